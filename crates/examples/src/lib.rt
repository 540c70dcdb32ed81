// R20.1, the examples that are proved: no code, one table in specs/ and its proof.
#![tactic(auto)]
