#![tactic(auto)]
// Event files, document 01, "Event file and key". What the bytes mean is defined in rules, specs/EventFile.antt.
pub mod lent;
pub mod reader;
mod words;
pub mod writer;

pub use reader::{Found, Stepped, check_file, open, step};
pub use words::{byte_at, length_field, word};
pub use writer::{append, record_length, role_byte, start};
