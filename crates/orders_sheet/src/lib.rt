#![tactic(auto)]
// From an input's bytes to the bytes that the program `orders` prints: commands, and an event file behind them. Both are defined in
// specs/Sheet.antt. The two numbers that a program over this crate needs, how much it must read and how much it must write, are fixed here
// by contracts.
ghost use Rattle.std.specs.Prelude.{ℕ, ◌≡◌, List, ◌++◌, length, take, drop};
ghost use Rattle.rules.specs.EventFile.{Bytes};
ghost use Rattle.orders_sheet.specs.Sheet.{orders};

mod commands;
mod lines;
mod reading;

use lines::put_commands;
use reading::file_at;
use replay::check_behind;
use text::{put_file_line, zeros};

// "commands of 6 bytes: op, thread, order number"
#[derive(Clone, Copy)]
pub struct Command {
    pub op: u8,
    pub thread: u8,
    pub number: u32,
}

// Up to 1,531 bytes before the file, and one byte more than a file may have: `enough_for_orders`, proofs/Room.antt.
pub const INPUT: usize = 67068;

// Room for what is printed of every input: `orders_fit`, proofs/Room.antt.
pub const ROOM: usize = 8670;

// A buffer for what is read. Of an input of any length it holds enough: what is printed of that much is what is printed of the whole.
pub fn input() -> [u8; INPUT]
    ensures { (b : List ℕ) → Bytes b → orders (take (length result) b) ≡ orders b }
{
    zeros()
}

// Writes what an input prints into a lent buffer, from its front, and gives its length. Every other byte stays.
pub fn write_orders(input: &[u8], out: &mut [u8; ROOM]) -> usize
    ensures { (result ≡ length (orders input.now))
        × (out.new ≡ orders input.now ++ drop (length (orders input.now)) out.old) }
{
    let at = file_at(input);
    if let Err(refusal) = check_behind(input, at) {
        return put_file_line(out, 0, u8::from(refusal));
    }
    put_commands(out, input, &input[at..])
}
