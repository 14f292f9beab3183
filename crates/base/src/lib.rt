// Arithmetic and files: what the maps and the worksheet stand on.
#![tactic(auto)]

pub mod angle;
pub mod blend;
pub mod constants;
pub mod elementary;
pub mod files;
mod finite;
pub mod index;
pub mod month_file;
pub mod number;
pub mod ranges;
pub mod refusal;
pub mod tables;
pub mod words;
pub mod year;
