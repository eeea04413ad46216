// Document 01, "Release and choice": the choice.
ghost use Rattle.std.specs.Prelude.{◌≡◌, Ok};
ghost use Rattle.dispatcher.specs.Choosing.{aside_of, freed_by, Choosable, Chosen};
ghost use Rattle.dispatcher.specs.Promise.{answered};

use crate::Machine;
use rules::{Hold, Place, Running, Timeslice};
use tables::ends::{Verdict, judged};
use tables::threads::donated;
use tables::walk::walk;
use timeslices::heights::{code, fill, park_codes, release_set, top_of};
use timeslices::release::released;

// Where a timeslice that may not run is put aside.
pub(crate) fn aside(verdict: Verdict, end: u8) -> Place
    ensures { result ≡ aside_of verdict end }
{
    match verdict {
        Verdict::Runs | Verdict::Retries | Verdict::Waits => Place::On(end),
        Verdict::Stalls => Place::Stalled,
    }
}

// What is released then: after a retry those On the end, and otherwise the followers of the timeslice that leaves Queue.
pub(crate) fn freed_by(verdict: Verdict, t: u8, end: u8) -> Place
    ensures { result ≡ freed_by verdict t end }
{
    match verdict {
        Verdict::Retries => Place::On(end),
        Verdict::Runs | Verdict::Waits | Verdict::Stalls => Place::Behind(t),
    }
}

impl Machine {
    // The turn order, the codes and the heights are three arrays since a search through numbers alone is compiled to vector instructions; a
    // look works on all of them and on the machine, so the looks are one function.
    pub(crate) fn choose(&mut self, links: u16) -> u16
        requires { Choosable self.old links }
        ensures { Chosen self.old links (answered self.new (Ok result)) }
    {
        let live = self.live_timeslices;
        let mut followed = links;
        let mut order = [0u8; Timeslice::LIMIT];
        let mut codes = [0u16; Timeslice::LIMIT];
        let mut heights = [0u16; Timeslice::LIMIT];
        fill(
            &mut order,
            &mut codes,
            &mut heights,
            self.timeslices,
            &self.after,
            live,
        );
        for _ in 0..usize::from(live) + 2 {
            // The code of Queue is 0.
            let Some(t) = top_of(&codes, &heights, &order, live, 0) else {
                self.running = Running::Nothing;
                return followed;
            };
            let k = usize::from(t);
            let chain = walk(self.threads, self.live_threads, self.timeslices[k].owner);
            followed += u16::from(chain.links);
            let e = usize::from(chain.end);
            // Not by `thread_at`, which is given the whole table: a copy at every look made the events 11 % slower.
            let hold = if e < 128 {
                self.threads[e].hold
            } else {
                Hold::Ready
            };
            let verdict = judged(chain.looped, hold, chain.links);
            match verdict {
                Verdict::Runs => {
                    self.running = Running::Runs {
                        thread: chain.end,
                        timeslice: t,
                        count: chain.count,
                    };
                    return followed;
                }
                Verdict::Retries => {
                    self.threads = donated(self.threads, chain.helper, chain.end);
                }
                Verdict::Waits | Verdict::Stalls => {
                    let place = aside(verdict, chain.end);
                    self.timeslices[k].place = place;
                    park_codes(&mut codes, &order, live, t, code(place));
                }
            }
            let set = freed_by(verdict, t, chain.end);
            if let Some(q) = release_set(&mut codes, &heights, &order, live, set) {
                self.timeslices = released(self.timeslices, &self.after, live, set, q);
            }
        }
        followed
    }
}
