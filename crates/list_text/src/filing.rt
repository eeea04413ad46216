// From a list in words to its file: the list is counted first, and only a list without a fault is written.
ghost use Rattle.std.specs.Prelude.{◌≡◌, IfOk, [], ◌∷◌, ◌++◌, ◌≤◌, ◌-◌, length};
ghost use Rattle.rules.specs.EventFile.{four_bytes};
ghost use Rattle.text.specs.Put.{Put};
ghost use Rattle.list_line.specs.Reading.{parts, line_feed, line_of};
ghost use Rattle.list_text.specs.Reading.{read_lines, line_after, read_text};
ghost use Rattle.list_text.specs.Answers.{filed_in};
ghost use Rattle.list_text.specs.Counting.{counted, Counts, line_record, lines_records};

use crate::WrongLine;
use crate::records::put_record;
use event_file::record_length;
use list_line::{Fault, line_of};
use text::put_head;

// One line, where the file so far has `filled` bytes.
fn count_line(filled: usize, line: &[u8]) -> Result<usize, Fault>
    requires { filled ≤ 65536 }
    ensures counts { Counts filled (line_of line.now) result }
    ensures bounded { IfOk result (λ n. n ≤ 65536) }
{
    let Some(event) = line_of(line)? else {
        return Ok(filled);
    };
    let after = filled + record_length(event);
    if after > 65536 {
        return Err(Fault::TooLong);
    }
    Ok(after)
}

// All lines of a text that is not too long itself.
fn count_lines(text: &[u8]) -> Result<usize, WrongLine>
    requires { length text.now ≤ 1048576 }
    ensures { filed_in result ≡ counted 5 (read_lines 1 5 (parts line_feed text.now)) }
{
    let mut filled = 5;
    let mut number = 1;
    for line in text.split(|b| *b == b'\n') {
        match count_line(filled, line) {
            Ok(after) => filled = after,
            Err(fault) => return Err(WrongLine {
                line: number,
                fault,
            }),
        }
        number += 1;
    }
    Ok(filled)
}

// The line of the byte after these.
fn line_after(text: &[u8]) -> usize
    requires { length text.now ≤ 1048576 }
    ensures { result ≡ line_after 1 text.now }
{
    1 + text.iter().filter(|b| **b == b'\n').count()
}

// What a list is refused for, or how many bytes its file has.
pub fn count(text: &[u8]) -> Result<usize, WrongLine>
    ensures { filed_in result ≡ counted 5 (read_text text.now) }
{
    if text.len() > 1048576 {
        let line = line_after(&text[..1048576]);
        return Err(WrongLine {
            line,
            fault: Fault::TooLong,
        });
    }
    count_lines(text)
}

// The record of a line's event, nothing for a line without one.
fn put_line(out: &mut [u8], at: usize, line: &[u8]) -> usize
    ensures { Put out.old out.new at result (line_record (line_of line.now)) }
{
    match line_of(line) {
        Ok(Some(event)) => put_record(out, at, event),
        _ => at,
    }
}

// The records of all lines.
fn put_lines(text: &[u8], out: &mut [u8], from: usize) -> usize
    ensures { Put out.old out.new from result (lines_records (parts line_feed text.now)) }
{
    let mut to = from;
    for line in text.split(|b| *b == b'\n') {
        to = put_line(out, to, line);
    }
    to
}

// The file of a list that is counted.
pub fn put_file(text: &[u8], out: &mut [u8], bytes: usize) -> usize
    requires { (4 ≤ bytes) × (bytes ≤ 65536) }
    ensures { Put out.old out.new 0 result
        (four_bytes (bytes - 4) ++ (1 ∷ []) ++ lines_records (parts line_feed text.now)) }
{
    let count = (bytes - 4) as u16;
    let from = put_head(out, count);
    put_lines(text, out, from)
}
