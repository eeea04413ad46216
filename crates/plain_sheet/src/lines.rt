// The lines of an accepted file's events.
ghost use Rattle.std.specs.Prelude.{◌++◌, ◌≡◌};
ghost use Rattle.rules.specs.Lists.{plain_run};
ghost use Rattle.rules.specs.EventFile.{file_refusal, events_of};
ghost use Rattle.rules.specs.Plain.{empty_plain};
ghost use Rattle.rules.specs.Key.{bytes, columns, plain_lines};
ghost use Rattle.text.specs.Put.{Put};

use event_file::{Found, step};
use plain_engine::PlainMachine;
use rules::{Refusal, Running};
use text::{put_byte, put_columns};

// One event's line: its columns and a line feed.
fn put_line(out: &mut [u8], at: usize, number: u64, refusal: u8, running: Running) -> usize
    ensures { Put out.old out.new at result (columns number refusal running ++ bytes "\n") }
{
    let end = put_columns(out, at, number, refusal, running);
    put_byte(out, end, b'\n')
}

// One event of the file after the other, until there is none left: by records, so no `for` counts them, and the number is the line's.
pub fn put_lines(file: &[u8], out: &mut [u8]) -> usize
    requires { file_refusal file.now ≡ 0 }
    ensures { Put out.old out.new 0 result (plain_lines 1 (plain_run (events_of file.now) empty_plain)) }
{
    let mut machine = PlainMachine::empty();
    let mut offset = 5;
    let mut at = 0;
    let mut number: u64 = 1;
    loop {
        let read = step(file, offset);
        let Found::Record(event) = read.found else {
            return at;
        };
        let answer = machine.offer(event);
        at = put_line(out, at, number, Refusal::number_in(answer), machine.running);
        offset = read.offset;
        number += 1;
    }
}
