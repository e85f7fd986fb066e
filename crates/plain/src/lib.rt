// The plain table: all of it stands in specs/ and proofs/.
#![tactic(auto)]
