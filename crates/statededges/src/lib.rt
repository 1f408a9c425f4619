// The edges of stated rates, proved together in proofs/. No functions.
#![tactic(auto)]
