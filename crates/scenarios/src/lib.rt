// Scenarios: calls on a table in turn, each with what it must give, and how they are computed in proofs/. No functions.
#![tactic(auto)]
