// Document 01, "A sound machine", and document 02, [2]: every timeslice has a true place, Queue, Behind, On, Stalled or Spent.
ghost use Rattle.std.specs.Prelude.{◌≡◌, map, ◌&&◌};
ghost use Rattle.rules.specs.Tests.{member as member_of};
ghost use Rattle.rules.specs.State.{place_at};
ghost use Rattle.rules.specs.Release.{in_queue};
ghost use Rattle.rules.specs.Order.{stands_above};
ghost use Rattle.rules.specs.Sound.{spent_good};
ghost use Rattle.neighbours.specs.Reading.{turns_read};
ghost use Rattle.soundness.specs.Parts.{place_test};
ghost use Rattle.tables.specs.Timeslices.{slice_of, place_of};

use neighbours::reading::lists;
use neighbours::standing::stands_above;
use rules::{Place, Thread, Timeslice};
use tables::ends::{Verdict, verdict_of};
use tables::lookup::timeslice_at;
use tables::walk::walk;

// "Behind: the other is in Queue and stands above."
#[tactic(auto, unfolding(rules::specs::Order::stands_above))]
pub(crate) fn behind_good(
    timeslices: [Timeslice; 128],
    after: &[u8; 129],
    live: u8,
    q: u8,
    t: u8,
) -> bool
    ensures { result ≡ (member_of q (turns_read after.now live) && in_queue (place_at (map place_of timeslices) q)
        && stands_above (map slice_of timeslices) (turns_read after.now live) q t) }
{
    let x = timeslice_at(timeslices, q);
    let y = timeslice_at(timeslices, t);
    lists(after, live, q)
        && x.place == Place::Queue
        && stands_above(after, live, q, x.priority, t, y.priority)
}

// "On: the walk ends there and does not let it run. Stalled: the walk loops."
pub(crate) fn place_good(
    threads: [Thread; 128],
    timeslices: [Timeslice; 128],
    after: &[u8; 129],
    live_threads: u8,
    live: u8,
    t: u8,
) -> bool
    ensures { result ≡ place_test threads timeslices (turns_read after.now live) live_threads t }
{
    let x = timeslice_at(timeslices, t);
    match x.place {
        Place::Queue | Place::Spent => true,
        Place::Behind(q) => behind_good(timeslices, after, live, q, t),
        Place::On(n) => {
            let chain = walk(threads, live_threads, x.owner);
            verdict_of(threads, chain) == Verdict::Waits && chain.end == n
        }
        Place::Stalled => {
            let chain = walk(threads, live_threads, x.owner);
            verdict_of(threads, chain) == Verdict::Stalls
        }
    }
}

// "Left is 0 exactly for Spent."
pub(crate) fn spent_good(left: u16, place: Place) -> bool
    ensures { result ≡ spent_good left place }
{
    (place == Place::Spent) == (left == 0)
}
