// Maps and geometry: what the worksheet's figures are made of.
#![tactic(auto)]

pub mod figures;
pub mod geometry;
pub mod inputs;
pub mod ionosphere;
pub mod magnetic;
