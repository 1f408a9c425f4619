// The edges of opening hours, proved together in proofs/. No functions.
#![tactic(auto)]
