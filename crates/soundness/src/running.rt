// Document 01, "A sound machine": "Nothing runs exactly when Queue is empty. Otherwise the current is the topmost in Queue and its walk
// ends, Ready, at the running thread, with the stored count."
ghost use Rattle.std.specs.Prelude.{◌≡◌};
ghost use Rattle.neighbours.specs.Reading.{turns_read};
ghost use Rattle.soundness.specs.Parts.{chain_within, runs_on, settled_within};

use rules::{Place, Running, Thread, Timeslice};
use tables::ends::{Verdict, verdict_of};
use tables::lookup::timeslice_at;
use tables::walk::walk;
use timeslices::search::topmost;

pub(crate) fn runs_on(
    threads: [Thread; 128],
    timeslices: [Timeslice; 128],
    live_threads: u8,
    q: u8,
    running: Running,
) -> bool
    ensures { result ≡ runs_on threads (chain_within live_threads threads timeslices q) q running }
{
    let chain = walk(threads, live_threads, timeslice_at(timeslices, q).owner);
    let settled = Running::Runs {
        thread: chain.end,
        timeslice: q,
        count: chain.count,
    };
    running == settled && verdict_of(threads, chain) == Verdict::Runs
}

pub(crate) fn is_settled(
    threads: [Thread; 128],
    timeslices: [Timeslice; 128],
    after: &[u8; 129],
    live_threads: u8,
    live: u8,
    running: Running,
) -> bool
    ensures { result ≡ settled_within live_threads threads timeslices (turns_read after.now live) running }
{
    match topmost(timeslices, after, live, Place::Queue) {
        None => running == Running::Nothing,
        Some(q) => runs_on(threads, timeslices, live_threads, q, running),
    }
}
