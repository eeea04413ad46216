#![tactic(auto)]
// From a refusal number and a file's bytes to the bytes of a shorter question, document 02, [11]. It is defined in rules,
// specs/Shorten.antt. The two numbers that a program over this crate needs, how much it must read and how much it must write, are fixed
// here by contracts.
ghost use Rattle.std.specs.Prelude.{ℕ, ◌<◌, ◌+◌, ◌≡◌, List, ◌∷◌, ◌++◌, length, take, drop, true};
ghost use Rattle.rules.specs.EventFile.{four_bytes, file_of, file_refusal, events_of};
ghost use Rattle.rules.specs.Shorten.{refused_in, shortened, shorter};
ghost use Rattle.text.specs.Put.{Put};

mod ask;
mod moving;
mod parts;
mod reach;
mod rounds;

use ask::ask;
use dispatcher::Machine;
use event_file::check_file;
use rounds::shorten;
use rules::Refusal;
use text::{file_buffer, put_bytes, put_file_line, put_head, zeros};

// Room for every answer: `shorter_fits`, proofs/Room.antt.
pub const ROOM: usize = 65536;

// The number's byte, and one byte more than a file may have: `enough_for_shorter`, proofs/Room.antt.
const INPUT: usize = 65538;

// A buffer for what is read. Of an input of any length it holds enough: the answer to that much is the answer to the whole.
pub fn input() -> [u8; INPUT]
    ensures { (b : List ℕ) → shorter (take (length result) b) ≡ shorter b }
{
    zeros()
}

// The file of these records.
fn put_file(out: &mut [u8], records: &[u8]) -> usize
    requires { 5 + length records.now < 65537 }
    ensures { Put out.old out.new 0 result
        (four_bytes (1 + length records.now) ++ (1 ∷ records.now)) }
{
    let count = (1 + records.len()) as u16;
    let first = put_head(out, count);
    put_bytes(out, first, records)
}

// The file of the events that are left of a file in which some event is refused with the number.
fn put_shortened(out: &mut [u8], file: &[u8], number: u8) -> usize
    requires { (file_refusal file.now ≡ 0) × (refused_in number (events_of file.now) ≡ true) }
    ensures { Put out.old out.new 0 result (file_of (shortened number (events_of file.now))) }
{
    let mut work = file_buffer();
    let end = put_bytes(&mut work, 0, file);
    let left = shorten(&mut work[..end], number);
    let from = left.from;
    let to = left.to;
    put_file(out, &work[from..to])
}

// Writes the shorter question that an input asks for into a lent buffer, from its front, and gives its length. Every other byte stays.
pub fn write_shorter(input: &[u8], out: &mut [u8; ROOM]) -> usize
    ensures { (result ≡ length (shorter input.now))
        × (out.new ≡ shorter input.now ++ drop (length (shorter input.now)) out.old) }
{
    if input.len() == 0 {
        return put_file_line(out, 0, 14);
    }
    let number = input[0];
    let file = &input[1..];
    if let Err(refusal) = check_file(file) {
        return put_file_line(out, 0, u8::from(refusal));
    }
    if ask(file, 5, Machine::empty(), number).is_none() {
        return put_file_line(out, 0, u8::from(Refusal::NeverRefused));
    }
    put_shortened(out, file, number)
}
