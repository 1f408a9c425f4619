// Every accepted call keeps a table in order.
#![tactic(auto)]
