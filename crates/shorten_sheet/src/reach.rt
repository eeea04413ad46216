// The machine before an event in the midst of a file, so that it need not be computed from the start for each event that is tried.
ghost use Rattle.std.specs.Prelude.{◌<◌, ◌≡◌, true, length};
ghost use Rattle.dispatcher.specs.Shown.{shown, sound_machine};
ghost use Rattle.event_file.specs.Left.{events_at};
ghost use Rattle.shorten_sheet.specs.Standing.{Stand};
ghost use Rattle.shorten_sheet.specs.Promises.{Reaches};

use dispatcher::Machine;
use event_file::{Found, step};

// The machine, and where the event's record begins.
#[derive(Clone, Copy)]
pub struct Reached {
    pub machine: Machine,
    pub at: usize,
}

// Dispatches the events from a place of the file on, up to one with no more than so many bytes behind it: never the first, unless it is
// the only one.
pub fn reach(file: &[u8], from: usize, start: Machine, behind: usize) -> Reached
    requires { (Stand file.now from (events_at from file.now)) × (sound_machine start ≡ true) × (from < length file.now) }
    ensures { Reaches (events_at from file.now) (shown start) from result }
{
    let mut machine = start;
    let mut at = from;
    let mut most = 0;
    loop {
        let read = step(file, at);
        let Found::Record(event) = read.found else {
            return Reached { machine, at };
        };
        if file.len() - read.offset <= most {
            return Reached { machine, at };
        }
        let _ = machine.dispatch(event);
        at = read.offset;
        most = behind;
    }
}
