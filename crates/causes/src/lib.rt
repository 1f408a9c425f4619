// The causes of every call, their numbers and their order, proved together in proofs/. No functions.
#![tactic(auto)]
