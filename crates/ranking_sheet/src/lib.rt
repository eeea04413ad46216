#![tactic(auto)]
// From an input's bytes to the bytes that the program `ranking` prints: a ranking table and intervals to look up in it. Both are defined in
// specs/Sheet.antt. The two numbers that a program over this crate needs, how much it must read and how much it must write, are fixed
// here by contracts.
ghost use Rattle.std.specs.Prelude.{ℕ, ◌≡◌, List, ◌++◌, length, take, drop};
ghost use Rattle.ranking_sheet.specs.Sheet.{ranking};

mod answers;
mod reading;

use answers::put_answers;
use reading::{check_input, read_table};
use text::{INPUT, file_buffer, put_file_line};

// Room for the answers to every input: `ranking_fits`, proofs/Room.antt.
pub const ROOM: usize = 425984;

// A buffer for what is read. Of an input of any length it holds enough: the answers to that much are the answers to the whole
// (`enough_for_ranking`, proofs/Room.antt).
pub fn input() -> [u8; INPUT]
    ensures { (b : List ℕ) → ranking (take (length result) b) ≡ ranking b }
{
    file_buffer()
}

// Writes the answers to an input into a lent buffer, from its front, and gives their length. Every other byte stays.
pub fn write_ranking(input: &[u8], out: &mut [u8; ROOM]) -> usize
    ensures { (result ≡ length (ranking input.now))
        × (out.new ≡ ranking input.now ++ drop (length (ranking input.now)) out.old) }
{
    if let Err(refusal) = check_input(input) {
        return put_file_line(out, 0, u8::from(refusal));
    }
    put_answers(out, input, &read_table(input))
}
