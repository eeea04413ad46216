#![tactic(auto)]
// One line of a list in words: the event that it says, or what is wrong with it. What a line says is defined in specs/Reading.antt.
mod fault;
mod kinds;
pub mod scan;
mod words;

pub use fault::Fault;
pub use kinds::line_of;
