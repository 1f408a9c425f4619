// What each class covers, and the sums for it, in one pass.
#![tactic(auto)]

pub mod classes;
pub mod totals;
