// Laws of the definitions of the table.
#![tactic(auto)]
