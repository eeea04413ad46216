// The clauses about every number of a table: its thread, its timeslice's slot and its neighbours.
ghost use Rattle.std.specs.Prelude.{◌≡◌};
ghost use Rattle.rules.specs.Tests.{below};
ghost use Rattle.rules.specs.State.{limit};
ghost use Rattle.neighbours.specs.Sides.{sides};
ghost use Rattle.neighbours.specs.Reading.{turns_read};
ghost use Rattle.neighbours.specs.Forming.{entries_free};
ghost use Rattle.soundness.specs.Parts.{thread_test, slot_test, number_test};

use crate::calls::call_good;
use crate::idles::idle_good;
use crate::links::link_good;
use neighbours::forming::entries_free;
use neighbours::reading::lists;
use rules::{Thread, Timeslice};
use tables::lookup::{thread_at, timeslice_at};

// "Free slots hold one fixed value."
pub fn thread_good(threads: [Thread; 128], n: u8) -> bool
    ensures { result ≡ thread_test threads n }
{
    let t = thread_at(threads, n);
    call_good(threads, n, t)
        && link_good(threads, n, t.hold)
        && idle_good(t)
        && (t.live || t == Thread::FREE)
}

// What stands where a timeslice is not listed.
pub(crate) fn neighbours_good<'a>(
    before: &'a [u8; 129],
    after: &'a [u8; 129],
    live: u8,
    t: u8,
) -> bool
    ensures { result ≡ entries_free (sides before.now after.now) (turns_read after.now live) t }
{
    lists(after, live, t) || entries_free(before, after, t)
}

pub(crate) fn slot_good(timeslices: [Timeslice; 128], after: &[u8; 129], live: u8, t: u8) -> bool
    ensures { result ≡ slot_test timeslices (turns_read after.now live) t }
{
    lists(after, live, t) || timeslice_at(timeslices, t) == Timeslice::FREE
}

pub(crate) fn number_good<'a>(
    threads: [Thread; 128],
    timeslices: [Timeslice; 128],
    before: &'a [u8; 129],
    after: &'a [u8; 129],
    live: u8,
    n: u8,
) -> bool
    ensures { result ≡ number_test threads timeslices (sides before.now after.now)
        (turns_read after.now live) n }
{
    neighbours_good(before, after, live, n)
        && thread_good(threads, n)
        && slot_good(timeslices, after, live, n)
}

pub(crate) fn numbers_good<'a>(
    threads: [Thread; 128],
    timeslices: [Timeslice; 128],
    before: &'a [u8; 129],
    after: &'a [u8; 129],
    live: u8,
) -> bool
    ensures { result ≡ below limit (λ n. number_test threads timeslices (sides before.now after.now)
        (turns_read after.now live) n) }
{
    (0..128).all(|n| number_good(threads, timeslices, before, after, live, n))
}
