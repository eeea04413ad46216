// "the machine after that event": refused events count, and leave the machine as it was.
ghost use Rattle.std.specs.Prelude.{◌≡◌};
ghost use Rattle.rules.specs.EventFile.{file_refusal};
ghost use Rattle.reason_sheet.specs.Arrived.{Arrived};

use dispatcher::Machine;
use event_file::{Found, step};

// The machine after the event of that number, if the file has one: dispatches one event after the other, so many of them.
pub fn reach(file: &[u8], number: usize) -> Option<Machine>
    requires { file_refusal file.now ≡ 0 }
    ensures { Arrived file.now number result }
{
    let mut machine = Machine::empty();
    let mut offset = 5;
    for _ in 0..number {
        let read = step(file, offset);
        let Found::Record(event) = read.found else {
            return None;
        };
        let _ = machine.dispatch(event);
        offset = read.offset;
    }
    (0 < number).then_some(machine)
}
