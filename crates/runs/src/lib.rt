// Lists of calls on a table: what each leaves, and what its caller sees of it. The definitions are in specs/.
#![tactic(auto)]
