#![tactic(auto)]
// From an event number and a file's bytes to the bytes of the reason, document 02, [5]. The reason is defined in rules, specs/Reason.antt.
// The two numbers that a program over this crate needs, how much it must read and how much it must write, are fixed here by contracts.
ghost use Rattle.std.specs.Prelude.{ℕ, ◌≡◌, List, ◌++◌, length, take, drop};
ghost use Rattle.rules.specs.Reason.{reason};

mod causes;
mod chain;
mod reached;

use causes::put_causes;
use chain::put_chain_line;
use event_file::{check_file, length_field};
use reached::reach;
use rules::Refusal;
use text::{put_file_line, zeros};

// Room for the reason of every event: `reason_fits`, in crate text.
pub const ROOM: usize = 4096;

// The number's 4 bytes, and one byte more than a file may have: `enough_for_reason`, in crate text.
const INPUT: usize = 65541;

// A buffer for what is read. Of an input of any length it holds enough: the reason of that much is the reason of the whole.
pub fn input() -> [u8; INPUT]
    ensures { (b : List ℕ) → reason (take (length result) b) ≡ reason b }
{
    zeros()
}

// Writes the reason that an input asks for into a lent buffer, from its front, and gives the reason's length. Every other byte stays.
pub fn write_reason(input: &[u8], out: &mut [u8; ROOM]) -> usize
    ensures { (result ≡ length (reason input.now))
        × (out.new ≡ reason input.now ++ drop (length (reason input.now)) out.old) }
{
    if input.len() < 4 {
        return put_file_line(out, 0, 14);
    }
    let number = length_field(input);
    let file = &input[4..];
    if let Err(refusal) = check_file(file) {
        return put_file_line(out, 0, u8::from(refusal));
    }
    let Some(machine) = reach(file, number) else {
        return put_file_line(out, 0, u8::from(Refusal::NoSuchEvent));
    };
    let next = put_chain_line(out, machine);
    put_causes(out, next, machine)
}
