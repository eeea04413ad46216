// Document 01, "The walk": what the end of a chain says of its timeslice.
ghost use Rattle.std.specs.Prelude.{◌≡◌, cond};
ghost use Rattle.rules.specs.Walk.{at_end, stalls, verdict};
ghost use Rattle.rules.specs.Events.{end_blocked};
ghost use Rattle.tables.specs.Verdicts.{verdict_of};

use crate::lookup::thread_at;
use rules::{Chain, Hold, Thread};

#[derive(Clone, Copy, Debug, PartialEq, Eq)]
pub enum Verdict {
    Runs,
    Retries,
    Waits,
    Stalls,
}

pub fn at_end(hold: Hold, links: u8) -> Verdict
    ensures { verdict_of result ≡ at_end hold links }
{
    match hold {
        Hold::Ready => Verdict::Runs,
        Hold::Idle if 0 < links => Verdict::Retries,
        _ => Verdict::Waits,
    }
}

pub fn judged(looped: bool, hold: Hold, links: u8) -> Verdict
    ensures { verdict_of result ≡ cond looped stalls (at_end hold links) }
{
    if looped {
        Verdict::Stalls
    } else {
        at_end(hold, links)
    }
}

pub fn verdict_of(threads: [Thread; 128], chain: Chain) -> Verdict
    ensures { verdict_of result ≡ verdict threads chain }
{
    let last = thread_at(threads, chain.end);
    judged(chain.looped, last.hold, chain.links)
}

// The end of a chain is Blocked.
pub fn end_blocked(threads: [Thread; 128], chain: Chain) -> bool
    ensures { result ≡ end_blocked chain threads }
{
    thread_at(threads, chain.end).hold == Hold::Blocked
}
