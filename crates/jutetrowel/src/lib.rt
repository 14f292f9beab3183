// The library for programs in other languages, which `jutetrowel_c` exports: each function is one of
// the crates below it, over numbers and slices. A worksheet is 96 words that the caller lends.
#![tactic(auto)]

pub mod answers;
pub mod clocks;
pub mod desks;
mod fields;
pub mod files;
pub mod layers;
pub mod numbers;
pub mod sheets;
mod words;

pub use words::SHEET_WORDS;
