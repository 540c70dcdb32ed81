// The theorems about the definitions: no code, only what specs/ states and proofs/ shows.
#![tactic(auto)]
