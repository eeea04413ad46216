#![tactic(auto)]
// A file's events in words, as specs/Writing.antt defines them. The numbers that a program over this crate needs, how much it must read and
// how much it must write, are fixed here by contracts.
ghost use Rattle.std.specs.Prelude.{ℕ, ◌≡◌, List, ◌++◌, length, take, drop};
ghost use Rattle.list_writer.specs.Writing.{file_text};

mod writer;

use event_file::check_file;
use text::{INPUT, file_buffer, put_file_line};

// Room for the text of every file: `text_fits`, proofs/Room.antt.
pub const ROOM: usize = 1048576;

// A buffer for a file that is read. Of an input of any length it holds enough: the text of that much is the text of the whole
// (`enough_of_a_file`, proofs/Enough.antt).
pub fn file_input() -> [u8; INPUT]
    ensures { (b : List ℕ) → file_text (take (length result) b) ≡ file_text b }
{
    file_buffer()
}

// Writes a file's events in words into a lent buffer, from its front, and gives the text's length; a refused file as the key program's
// line. Every other byte stays.
pub fn write_text(file: &[u8], out: &mut [u8; ROOM]) -> usize
    ensures { (result ≡ length (file_text file.now))
        × (out.new ≡ file_text file.now ++ drop (length (file_text file.now)) out.old) }
{
    if let Err(refusal) = check_file(file) {
        return put_file_line(out, 0, u8::from(refusal));
    }
    writer::put_events(file, out)
}
