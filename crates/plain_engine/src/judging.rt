// Document 01, "The plain machine": "of all live timeslices whose chain's end lets them run, it takes the topmost."
ghost use Rattle.std.specs.Prelude.{◌≡◌};
ghost use Rattle.rules.specs.Order.{upper as upper_of};
ghost use Rattle.rules.specs.Walk.{walk as walk_of, may_run};
ghost use Rattle.rules.specs.Plain.{judge, topmost_runnable};
ghost use Rattle.tables.specs.Sets.{sought_of};
ghost use Rattle.plain_engine.specs.Shown.{plain_shown};

use crate::PlainMachine;
use crate::slices::slice_at;
use rules::{Chain, Running, Slice, Thread};
use tables::ends::{Verdict, verdict_of};
use tables::lives::count_live;
use tables::numbers::entries;
use tables::threads::donated;
use tables::walk::walk;

// The walk from a thread, with as many links as there are live threads.
#[tactic(auto, unfolding(rules::specs::Walk::walk))]
pub(crate) fn chain_from(threads: [Thread; 128], n: u8) -> Chain
    ensures { result ≡ walk_of threads n }
{
    walk(threads, count_live(threads), n)
}

// Of a timeslice and the topmost of those later in turn order, the one that stands above.
pub(crate) fn upper(slices: [Slice; 128], t: u8, later: Option<u8>) -> Option<u8>
    ensures { sought_of result ≡ upper_of slices t (sought_of later) }
{
    match later {
        Some(u) if slice_at(slices, t).priority < slice_at(slices, u).priority => later,
        _ => Some(t),
    }
}

impl PlainMachine {
    // One timeslice judged. With nothing left it does not run.
    pub(crate) fn may_run(&self, t: u8) -> bool
        ensures { result ≡ may_run self.now.threads self.now.slices t }
    {
        let x = slice_at(self.slices, t);
        let said = verdict_of(self.threads, chain_from(self.threads, x.owner));
        matches!(said, Verdict::Runs | Verdict::Retries) && x.left != 0
    }

    // Every live timeslice judged, from the last in turn order to the first.
    pub(crate) fn topmost_runnable(&self) -> Option<u8>
        ensures { sought_of result ≡ topmost_runnable (plain_shown self.now) }
    {
        let mut top = None;
        for &t in self.order[..entries(self.live)].iter().rev() {
            if self.may_run(t) {
                top = upper(self.slices, t, top);
            }
        }
        top
    }

    // "If that end is Idle, the last helper's retry is made as above and it judges again." Every retry leaves an Idle thread less.
    pub(crate) fn judge(&mut self)
        ensures { plain_shown self.new ≡ judge (plain_shown self.old) }
    {
        for _ in 0..usize::from(count_live(self.threads)) + 1 {
            let Some(t) = self.topmost_runnable() else {
                self.running = Running::Nothing;
                return;
            };
            let chain = chain_from(self.threads, slice_at(self.slices, t).owner);
            match verdict_of(self.threads, chain) {
                Verdict::Runs => {
                    self.running = Running::Runs {
                        thread: chain.end,
                        timeslice: t,
                        count: chain.count,
                    };
                    return;
                }
                Verdict::Retries => {
                    self.threads = donated(self.threads, chain.helper, chain.end);
                }
                // It does not arise, since the topmost may run.
                Verdict::Waits | Verdict::Stalls => return,
            }
        }
    }
}
