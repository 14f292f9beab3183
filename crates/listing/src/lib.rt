// What the programs share: calls from the words of their input, answers as lines of text, calls and
// answers in words for people, and what a year file has to show.
#![tactic(auto)]

pub mod account;
pub mod answer;
pub mod call;
pub mod columns;
pub mod decimal;
pub mod fault;
pub mod fields;
pub mod page;
mod reason;
pub mod sheet;
pub mod spoken;
pub mod survey;
mod text;
pub mod turn;
mod unit;
pub mod written;
