// The planner's worksheet: one set of inputs, four desks that draft changes to it, its showings,
// and the calls that all of these are.
#![tactic(auto)]

pub mod desks;
pub mod inputs;
pub mod journal;
pub mod showing;
