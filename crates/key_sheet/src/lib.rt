#![tactic(auto)]
// From a file's bytes to the bytes of its key, document 01, "Event file and key". The key is defined in rules, specs/Key.antt. The two
// numbers that a program over this crate needs, how much it must read and how much it must write, are fixed here by contracts.
ghost use Rattle.std.specs.Prelude.{ℕ, ◌≡◌, List, ◌++◌, length, take, drop};
ghost use Rattle.rules.specs.Key.{key};

mod lines;

use event_file::check_file;
use text::{INPUT, file_buffer, put_file_line};

// Room for the key of every file: `key_fits`, in crate text.
pub const ROOM: usize = 1048576;

// A buffer for what is read. Of an input of any length it holds enough: the key of that much is the key of the whole
// (`enough_for_key`, in crate text).
pub fn input() -> [u8; INPUT]
    ensures { (b : List ℕ) → key (take (length result) b) ≡ key b }
{
    file_buffer()
}

// Writes the key of a file into a lent buffer, from its front, and gives the key's length. Every other byte stays. (Each sheet has its own
// definition and lines; what they share is `check_file` and `put_file_line`.)
pub fn write_key(file: &[u8], out: &mut [u8; ROOM]) -> usize
    ensures { (result ≡ length (key file.now))
        × (out.new ≡ key file.now ++ drop (length (key file.now)) out.old) }
{
    if let Err(refusal) = check_file(file) {
        return put_file_line(out, 0, u8::from(refusal));
    }
    lines::put_lines(file, out)
}
