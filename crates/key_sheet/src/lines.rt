// The lines of an accepted file's events.
ghost use Rattle.std.specs.Prelude.{◌≡◌};
ghost use Rattle.rules.specs.State.{empty};
ghost use Rattle.rules.specs.Lists.{run};
ghost use Rattle.rules.specs.EventFile.{file_refusal, events_of};
ghost use Rattle.rules.specs.Key.{lines};
ghost use Rattle.text.specs.Put.{Put};

use dispatcher::Machine;
use event_file::{Found, step};
use rules::Refusal;
use text::put_key_line;

// One turn of the file after the other, until there is no event left: by records, so no `for` counts them, and the number is the line's.
pub fn put_lines(file: &[u8], out: &mut [u8]) -> usize
    requires { file_refusal file.now ≡ 0 }
    ensures { Put out.old out.new 0 result (lines 1 (run (events_of file.now) empty)) }
{
    let mut machine = Machine::empty();
    let mut offset = 5;
    let mut at = 0;
    let mut number: u64 = 1;
    loop {
        let read = step(file, offset);
        let Found::Record(event) = read.found else {
            return at;
        };
        let answer = machine.dispatch(event);
        at = put_key_line(
            out,
            at,
            number,
            Refusal::number_in(answer),
            machine.running,
            u64::from(answer.unwrap_or(0)),
        );
        offset = read.offset;
        number += 1;
    }
}
