// A journal as people write it: numbers, the words of a line, and the call that they are.
#![tactic(auto)]

pub mod line;
pub mod number;
pub mod token;
pub mod written;
