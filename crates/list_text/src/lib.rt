#![tactic(auto)]
// Lists of events in words: what an examiner writes and reads instead of an event file's bytes. Reading is defined in specs/Reading.antt,
// that of one line in list_line; writing in list_writer. The numbers that a program over this crate needs, how much it must read and how
// much it must write, are fixed here by contracts.
ghost use Rattle.std.specs.Prelude.{ℕ, ◌≡◌, List, ◌++◌, length, take, drop};
ghost use Rattle.list_text.specs.Reading.{read_text};
ghost use Rattle.list_text.specs.Answers.{filed_in, filed_as, buffer_as, sentence};

mod filing;
mod records;
mod sentence;

use list_line::Fault;
use text::zeros;

// The first line of a list that is wrong, counted from 1, and its fault.
#[derive(Clone, Copy, Debug, PartialEq, Eq)]
pub struct WrongLine {
    pub line: usize,
    pub fault: Fault,
}

// One byte more than a list may have: `enough_of_a_list`, proofs/Enough.antt.
const LIST: usize = 1048577;

// The most bytes of a file.
pub const MOST: usize = 65536;

// Room for every sentence: `sentence_fits`, proofs/Sentences.antt.
pub const SENTENCE: usize = 64;

// A buffer for a list that is read. Of an input of any length it holds enough: what becomes of that much becomes of the whole.
pub fn list_input() -> [u8; LIST]
    ensures { (b : List ℕ) → read_text (take (length result) b) ≡ read_text b }
{
    zeros()
}

// Writes the file of a list into a lent buffer, from its front, and gives the file's length; of a list with a fault the line and the
// fault, and then no byte changes.
pub fn write_file(text: &[u8], out: &mut [u8; MOST]) -> Result<usize, WrongLine>
    ensures { (filed_in result ≡ filed_as (read_text text.now))
        × (out.new ≡ buffer_as (read_text text.now) out.old) }
{
    let bytes = filing::count(text)?;
    filing::put_file(text, out, bytes);
    Ok(bytes)
}

// Writes the sentence of a line's fault into a lent buffer, from its front, and gives its length. Every other byte stays.
pub fn write_sentence(out: &mut [u8; SENTENCE], line: usize, fault: u8) -> usize
    ensures { (result ≡ length (sentence line fault))
        × (out.new ≡ sentence line fault ++ drop (length (sentence line fault)) out.old) }
{
    sentence::put_sentence(out, 0, line, fault)
}
