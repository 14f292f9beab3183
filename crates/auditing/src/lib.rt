// What an audit finds in a journal: where the inputs of a showing come from, what became of each
// draft, and the shorter journal.
#![tactic(auto)]

pub mod accounts;
pub mod gathering;
pub mod marks;
pub mod page;
