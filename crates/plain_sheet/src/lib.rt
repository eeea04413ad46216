#![tactic(auto)]
// From a file's bytes to the bytes of the plain machine's key, document 02, [1]: "each event's line without its last column". The key is
// defined in rules, specs/Key.antt (`plain_key`). The two numbers that a program over this crate needs, how much it must read and how much
// it must write, are fixed here by contracts.
ghost use Rattle.std.specs.Prelude.{ℕ, ◌≡◌, List, ◌++◌, length, take, drop};
ghost use Rattle.rules.specs.Key.{plain_key};

mod lines;

use event_file::check_file;
use text::{INPUT, file_buffer, put_file_line};

// Room for the key of every file: `plain_fits`, in crate text.
pub const ROOM: usize = 1048576;

// A buffer for what is read. Of an input of any length it holds enough: the key of that much is the key of the whole
// (`enough_for_plain_key`, in crate text).
pub fn input() -> [u8; INPUT]
    ensures { (b : List ℕ) → plain_key (take (length result) b) ≡ plain_key b }
{
    file_buffer()
}

// Writes the plain machine's key of a file into a lent buffer, from its front, and gives the key's length. Every other byte stays.
pub fn write_plain_key(file: &[u8], out: &mut [u8; ROOM]) -> usize
    ensures { (result ≡ length (plain_key file.now))
        × (out.new ≡ plain_key file.now ++ drop (length (plain_key file.now)) out.old) }
{
    if let Err(refusal) = check_file(file) {
        return put_file_line(out, 0, u8::from(refusal));
    }
    lines::put_lines(file, out)
}
