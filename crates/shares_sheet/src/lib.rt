#![tactic(auto)]
// From a file's bytes to the bytes of its shares, document 02, [13]. The shares are defined in rules, specs/Shares.antt. The two numbers
// that a program over this crate needs, how much it must read and how much it must write, are fixed here by contracts.
ghost use Rattle.std.specs.Prelude.{ℕ, ◌≡◌, List, ◌++◌, length, take, drop};
ghost use Rattle.rules.specs.Shares.{shares};

mod lines;
mod tally;

use event_file::check_file;
use lines::put_shares;
use tally::sum_payments;
use text::{INPUT, file_buffer, put_file_line};

// Room for the shares of every file: `shares_fit`, in crate text.
pub const ROOM: usize = 4096;

// A buffer for what is read. Of an input of any length it holds enough: the shares of that much are the shares of the whole
// (`enough_for_shares`, in crate text).
pub fn input() -> [u8; INPUT]
    ensures { (b : List ℕ) → shares (take (length result) b) ≡ shares b }
{
    file_buffer()
}

// Writes the shares of a file into a lent buffer, from its front, and gives their length. Every other byte stays.
pub fn write_shares(file: &[u8], out: &mut [u8; ROOM]) -> usize
    ensures { (result ≡ length (shares file.now))
        × (out.new ≡ shares file.now ++ drop (length (shares file.now)) out.old) }
{
    if let Err(refusal) = check_file(file) {
        return put_file_line(out, 0, u8::from(refusal));
    }
    put_shares(out, sum_payments(file))
}
