// The clauses about every timeslice of the turn order.
ghost use Rattle.std.specs.Prelude.{◌≡◌};
ghost use Rattle.rules.specs.Tests.{all};
ghost use Rattle.neighbours.specs.Reading.{turns_read};
ghost use Rattle.soundness.specs.Parts.{turn_test};

use crate::places::{place_good, spent_good};
use crate::ranges::in_range;
use neighbours::sides::neighbour;
use rules::{Slice, Thread, Timeslice};
use tables::lookup::{thread_at, timeslice_at};
use tables::numbers::entries;

pub(crate) fn turn_good(
    threads: [Thread; 128],
    timeslices: [Timeslice; 128],
    after: &[u8; 129],
    live_threads: u8,
    live: u8,
    t: u8,
) -> bool
    ensures { result ≡ turn_test threads timeslices (turns_read after.now live) live_threads t }
{
    let x = timeslice_at(timeslices, t);
    t < 128
        && thread_at(threads, x.owner).live
        && in_range(Slice::from(x))
        && place_good(threads, timeslices, after, live_threads, live, t)
        && spent_good(x.left, x.place)
}

pub(crate) fn turns_good(
    threads: [Thread; 128],
    timeslices: [Timeslice; 128],
    after: &[u8; 129],
    live_threads: u8,
    live: u8,
) -> bool
    ensures { result ≡ all (λ t. turn_test threads timeslices (turns_read after.now live) live_threads t)
        (turns_read after.now live) }
{
    let mut t: u8 = 128;
    for _ in 0..entries(live) {
        t = neighbour(after, t);
        if !turn_good(threads, timeslices, after, live_threads, live, t) {
            return false;
        }
    }
    true
}
