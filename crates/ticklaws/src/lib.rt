// Laws of the tick.
#![tactic(auto)]
