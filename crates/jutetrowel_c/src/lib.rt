// The static library for programs in other languages: each export calls the function of `jutetrowel`
// that has its name, and states its clauses again. A crate is a library or a static library, not both.
#![tactic(auto)]

mod clocks;
mod desks;
mod files;
mod layers;
mod numbers;
mod sheets;
