#![tactic(auto)]
// Standard input, standard output and standard error, each failure told to the caller, and what the programs do with them. What each
// function reads and writes is said of streams whose bytes are known. Of the three standard streams no contract can say it, nor that a call
// failed or the input ended: what std says of them is only how many bytes a call moves at most.
// A signal that interrupts a call before it moves a byte counts as a failure.
mod failure;
mod input;
mod output;
mod program;

pub use failure::{Failure, ReadFailed, WriteFailed};
pub use input::fill;
pub use output::send;
pub use program::{Buffer, Streams};
