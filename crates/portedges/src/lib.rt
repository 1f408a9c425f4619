// The edges of two ports, proved together in proofs/. No functions.
#![tactic(auto)]
