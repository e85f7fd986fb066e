// A space copied into another: definitions and theorems, no code yet.
#![tactic(auto)]
