#![tactic(auto)]
// From an input's bytes to the bytes that the program `card` prints: a block of the bridge card, commands, and an event file behind them.
// Both are defined in specs/Sheet.antt. The two numbers that a program over this crate needs, how much it must read and how much it must
// write, are fixed here by contracts.
ghost use Rattle.std.specs.Prelude.{ℕ, ◌≡◌, List, ◌++◌, length, take, drop};
ghost use Rattle.rules.specs.EventFile.{Bytes};
ghost use Rattle.card_sheet.specs.Sheet.{card};

mod commands;
mod lines;
mod reading;

use lines::put_commands;
use reading::{check_input, copy_block, file_at};
use text::{put_file_line, zeros};

// "commands of 3 bytes, op a b"
#[derive(Clone, Copy)]
pub struct Command {
    pub op: u8,
    pub a: u8,
    pub b: u8,
}

// Up to 1,022 bytes before the file, and one byte more than a file may have: `enough_for_card`, proofs/Room.antt.
pub const INPUT: usize = 66559;

// Room for what is printed of every input: `card_fits`, proofs/Room.antt.
pub const ROOM: usize = 269790;

// A buffer for what is read. Of an input of any length it holds enough: what is printed of that much is what is printed of the whole.
pub fn input() -> [u8; INPUT]
    ensures { (b : List ℕ) → Bytes b → card (take (length result) b) ≡ card b }
{
    zeros()
}

// Writes what an input prints into a lent buffer, from its front, and gives its length. Every other byte stays.
pub fn write_card(input: &[u8], out: &mut [u8; ROOM]) -> usize
    ensures { (result ≡ length (card input.now))
        × (out.new ≡ card input.now ++ drop (length (card input.now)) out.old) }
{
    if let Err(refusal) = check_input(input) {
        return put_file_line(out, 0, u8::from(refusal));
    }
    let mut store = [0; 255];
    let n = copy_block(input, &mut store);
    let at = file_at(input);
    put_commands(out, input, &input[at..], &mut store[..n])
}
