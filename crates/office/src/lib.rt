// What `desk` does with files: a journal run line by line, a call said on a journal that four desks
// share, and an audit of a journal's line. Only reading, writing and the lock stand here; what a
// line means and what is said of it is `sitting`'s, what an audit finds `auditing`'s. Texts lie in
// buffers of fixed size with a length beside: the programs allocate nothing.
#![tactic(auto)]

pub mod audit;
mod failure;
mod files;
mod folder;
mod journal;
mod keep;
mod link;
mod lock;
mod name;
pub mod run;
pub mod say;
pub mod standard;
pub mod usage;
