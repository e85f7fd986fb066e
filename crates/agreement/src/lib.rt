// The theorem over lists of calls: no code.
#![tactic(auto)]
