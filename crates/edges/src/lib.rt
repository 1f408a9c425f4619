// The joint table of edges: the marked edges of document 01 and the edges of document 02's requests, proved together in proofs/. No functions.
#![tactic(auto)]
