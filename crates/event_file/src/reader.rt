// Document 01, "Reading a file": a file is opened, which checks it whole, and then read step by step.
ghost use Rattle.std.specs.Prelude.{◌≡◌, ◌<◌, ◌+◌, length, get_or, drop};
ghost use Rattle.rules.specs.Refusals.{◌gives◌else◌};
ghost use Rattle.rules.specs.EventFile.{record_at, records_in, is_none, file_refusal, opened, stepped};
ghost use Rattle.rules.specs.RefusalNumbers.{number_in};
ghost use Rattle.event_file.specs.Answers.{with_next, opened_as, shown_found, refusal_of};

use operands::body;
use rules::{Event, Refusal};

mod header;
mod operands;

// What stands at an offset: an event, the file's end, or no good record. Document 01 has a refusal number for each: `refusal_of`.
#[derive(Clone, Copy, Debug, PartialEq, Eq)]
pub enum Found {
    Record(Event),
    End,
    Bad,
}

#[derive(Clone, Copy, Debug, PartialEq, Eq)]
pub struct Stepped {
    pub found: Found,
    pub offset: usize,
}

// The record that begins at an offset inside the file, and the offset of the byte after it.
fn record_at(file: &[u8], at: usize) -> Option<(Event, usize)>
    requires { at < length file.now }
    ensures { result ≡ with_next (record_at (drop at file.now)) (at + 1 + get_or file.now at 0) }
{
    let first = at + 1;
    let count = usize::from(file[at]);
    let event = body(file[first..].get(..count)?)?;
    Some((event, first + count))
}

// One record after the other, in one pass. A turn goes to the next record, as many bytes on as this one has, so no `for` counts them.
fn check_records(file: &[u8]) -> Result<(), Refusal>
    ensures { number_in result ≡ (is_none (records_in file.now) gives 16 else 0) }
{
    let mut at = 5;
    while at < file.len() {
        let Some((_, next)) = record_at(file, at) else {
            return Err(Refusal::BadRecord);
        };
        at = next;
    }
    Ok(())
}

// The head first, then every record.
#[tactic(auto, unfolding(rules::specs::EventFile::file_refusal))]
pub fn check_file(file: &[u8]) -> Result<(), Refusal>
    ensures { number_in result ≡ file_refusal file.now }
{
    header::check_head(file)?;
    check_records(file)
}

// Checks the whole file. Its records begin at the offset 5.
#[tactic(auto, unfolding(rules::specs::EventFile::opened))]
pub fn open(file: &[u8]) -> Result<usize, Refusal>
    ensures { opened_as result ≡ opened file.now }
{
    check_file(file)?;
    Ok(5)
}

// Reads the record at an offset inside the records. The file's end, and what is no good record, keep the offset.
#[tactic(auto, unfolding(rules::specs::EventFile::stepped))]
pub fn step(file: &[u8], at: usize) -> Stepped
    ensures { (shown_found result.found ≡ (stepped file.now at).found)
        × (result.offset ≡ (stepped file.now at).offset)
        × (refusal_of result.found ≡ (stepped file.now at).refusal) }
{
    if at < 5 || file.len() < at {
        return Stepped {
            found: Found::Bad,
            offset: at,
        };
    }
    if at == file.len() {
        return Stepped {
            found: Found::End,
            offset: at,
        };
    }
    match record_at(file, at) {
        Some((event, next)) => Stepped {
            found: Found::Record(event),
            offset: next,
        },
        None => Stepped {
            found: Found::Bad,
            offset: at,
        },
    }
}
