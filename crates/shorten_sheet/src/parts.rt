// "Events are tried from the last to the first, each left out if such a refusal remains". The records of the events yet to be tried stand
// at the front of a buffer, those of the events that stay at its end. The events of the second half are tried first, from the machine
// before them: so the machine before an event is computed from the beginning of its half, and not from the first event each time.
ghost use Rattle.std.specs.Prelude.{◌≡◌, true, reverse, take};
ghost use Rattle.dispatcher.specs.Shown.{shown, sound_machine};
ghost use Rattle.event_file.specs.Left.{events_at};
ghost use Rattle.shorten_sheet.specs.Standing.{Apart};
ghost use Rattle.shorten_sheet.specs.Promises.{tried_from, Keeps};

use crate::ask::ask;
use crate::moving::move_up;
use crate::reach::reach;
use dispatcher::Machine;

// Tries the events between two places, given the machine before the first of them and where those that stay begin, and gives where these
// begin then.
pub fn try_part(
    work: &mut [u8],
    from: usize,
    start: Machine,
    to: usize,
    at: usize,
    number: u8,
) -> usize
    requires { (Apart work.old from to at) × (sound_machine start ≡ true) }
    ensures { Keeps work.old work.new from result
        (tried_from number (shown start) (reverse (events_at from (take to work.old))) (events_at at work.old)) }
{
    if to <= from {
        return at;
    }
    let half = reach(&work[..to], from, start, (to - from) / 2);
    let middle = half.at;
    if from < middle {
        let kept = try_part(work, middle, half.machine, to, at, number);
        return try_part(work, from, start, middle, kept, number);
    }
    if ask(&work[..], at, start, number).is_some() {
        return at;
    }
    move_up(work, from, to, at)
}
