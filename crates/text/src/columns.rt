// The columns of the key's lines.
ghost use Rattle.std.specs.Prelude.{◌++◌};
ghost use Rattle.rules.specs.Key.{bytes, decimal, verdict_word, running_columns, columns};
ghost use Rattle.text.specs.Line.{line_bytes};
ghost use Rattle.text.specs.Put.{Put};

use crate::{put_byte, put_bytes, put_decimal};
use rules::Running;

// "the bytes `ok` or `no`"
#[tactic(auto, using(crate::proofs::ColumnParts::refused_verdict), unfolding(rules::specs::Key::bytes))]
fn put_verdict(out: &mut [u8], at: usize, refusal: u8) -> usize
    ensures { Put out.old out.new at result (verdict_word refusal) }
{
    if refusal == 0 {
        return put_bytes(out, at, b"ok");
    }
    put_bytes(out, at, b"no")
}

// A number with a space after it.
#[tactic(auto, using(crate::proofs::Puts::joined), unfolding(rules::specs::Key::bytes))]
pub fn put_column(out: &mut [u8], at: usize, n: u64) -> usize
    ensures { Put out.old out.new at result (decimal n ++ bytes " ") }
{
    let end = put_decimal(out, at, n);
    put_byte(out, end, b' ')
}

// "running thread or `-`, timeslice or `-`, donation count"
#[tactic(auto, unfolding(rules::specs::Key::bytes))]
fn put_running(out: &mut [u8], at: usize, running: Running) -> usize
    ensures { Put out.old out.new at result (running_columns running) }
{
    match running {
        Running::Nothing => put_bytes(out, at, b"- - 0"),
        Running::Runs {
            thread,
            timeslice,
            count,
        } => {
            let first = put_column(out, at, u64::from(thread));
            let second = put_column(out, first, u64::from(timeslice));
            put_decimal(out, second, u64::from(count))
        }
    }
}

// "event number from 1, the bytes `ok` or `no`, refusal number", and what runs: all columns but the last.
// The refusal is a number here, 0 for an accepted event: a `Result` with a `Refusal` would ask more of callers.
pub fn put_columns(out: &mut [u8], at: usize, number: u64, refusal: u8, running: Running) -> usize
    ensures { Put out.old out.new at result (columns number refusal running) }
{
    let verdict = put_column(out, at, number);
    let space = put_verdict(out, verdict, refusal);
    let first = put_byte(out, space, b' ');
    let second = put_column(out, first, u64::from(refusal));
    put_running(out, second, running)
}

// A whole line of the key: its columns, "links followed; single spaces, a line feed".
pub fn put_key_line(
    out: &mut [u8],
    at: usize,
    number: u64,
    refusal: u8,
    running: Running,
    links: u64,
) -> usize
    ensures { Put out.old out.new at result (line_bytes number refusal running links) }
{
    let space = put_columns(out, at, number, refusal, running);
    let last = put_byte(out, space, b' ');
    let end = put_decimal(out, last, links);
    put_byte(out, end, b'\n')
}
