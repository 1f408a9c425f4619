// The edges of the requests (a) to (c) of document 02, proved together in proofs/. No functions.
#![tactic(auto)]
