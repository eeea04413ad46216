// "some event is still refused with that number": a run stops at the first such event.
ghost use Rattle.std.specs.Prelude.{◌≡◌, true, not, ◌&&◌, eqb};
ghost use Rattle.dispatcher.specs.Shown.{shown, sound_machine};
ghost use Rattle.event_file.specs.Left.{events_at};
ghost use Rattle.shorten_sheet.specs.Standing.{Stand};
ghost use Rattle.shorten_sheet.specs.Promises.{Asks};

use dispatcher::Machine;
use event_file::{Found, step};
use rules::Refusal;

// Where the record of an event begins and ends.
#[derive(Clone, Copy, Debug, PartialEq, Eq)]
pub struct Asked {
    pub at: usize,
    pub to: usize,
}

// Both are numbers, as the question has one: 0 is no refusal.
fn is_asked(refusal: u8, number: u8) -> bool
    ensures { result ≡ (not (eqb number 0) && eqb number refusal) }
{
    number != 0 && number == refusal
}

// Dispatches the events from a place of the file on, up to the first that is refused with the number.
pub fn ask(file: &[u8], from: usize, start: Machine, number: u8) -> Option<Asked>
    requires { (Stand file.now from (events_at from file.now)) × (sound_machine start ≡ true) }
    ensures { Asks number (events_at from file.now) (shown start) from result }
{
    let mut machine = start;
    let mut at = from;
    loop {
        let read = step(file, at);
        let Found::Record(event) = read.found else {
            return None;
        };
        let refusal = Refusal::number_in(machine.dispatch(event));
        if is_asked(refusal, number) {
            return Some(Asked {
                at,
                to: read.offset,
            });
        }
        at = read.offset;
    }
}
