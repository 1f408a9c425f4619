// What reading and writing a plan mean, and that nothing is lost on the way.
#![tactic(auto)]
