// Document 01, "Writing is given a buffer and how many of its first bytes the file so far fills".
ghost use Rattle.std.specs.Prelude.{◌≡◌, ◌≤◌, ◌+◌, length, OnOk};
ghost use Rattle.rules.specs.EventFile.{record_of, append_refusal, started, appended};
ghost use Rattle.rules.specs.RefusalNumbers.{number_in};
ghost use Rattle.event_file.specs.Answers.{written_as};

use crate::reader::check_file;
use rules::{Event, Refusal};

mod records;
mod stores;

pub use records::{record_length, role_byte};

// Starts a file of no records, and says how many bytes it fills.
#[tactic(auto, unfolding(rules::specs::EventFile::started, rules::specs::EventFile::file_of, rules::specs::EventFile::records_of))]
pub fn start(buffer: &mut [u8]) -> Result<usize, Refusal>
    ensures { written_as 0 result buffer.new ≡ started buffer.old }
{
    if buffer.len() < 5 {
        return Err(Refusal::NoRoom);
    }
    stores::put_length(buffer, 1);
    buffer[4] = 1;
    Ok(5)
}

// Decided before a byte is written, so that a refusal changes none. What is not refused has room, behind the first five bytes of a file.
#[tactic(auto, unfolding(rules::specs::EventFile::append_refusal))]
fn check_append(buffer: &[u8], filled: usize, event: Event) -> Result<(), Refusal>
    ensures number { number_in result ≡ append_refusal buffer.now filled event }
    ensures begun { OnOk result (5 ≤ filled) }
    ensures room { OnOk result (filled + length (record_of event) ≤ length buffer.now) }
    ensures small { OnOk result (filled + length (record_of event) ≤ 65536) }
{
    if buffer.len() < filled {
        return Err(Refusal::BadLength);
    }
    check_file(&buffer[..filled])?;
    let after = filled + record_length(event);
    if buffer.len() < after || 65536 < after {
        return Err(Refusal::NoRoom);
    }
    Ok(())
}

// Adds a record and renews the length field; says how many bytes are filled then. A refusal leaves as many as there were.
#[tactic(auto, unfolding(rules::specs::EventFile::appended))]
pub fn append(buffer: &mut [u8], filled: usize, event: Event) -> Result<usize, Refusal>
    ensures { written_as filled result buffer.new ≡ appended buffer.old filled event }
{
    check_append(&buffer[..], filled, event)?;
    let after = filled + record_length(event);
    records::put_record(buffer, filled, event);
    stores::put_length(buffer, after - 4);
    Ok(after)
}
