// Document 01, "Events": after an event's changes, the releases and the choice that it makes.
ghost use Rattle.std.specs.Prelude.{◌≡◌, true, Ok};
ghost use Rattle.std.proofs.Math.Option.{some};
ghost use Rattle.rules.specs.Order.{stands_above};
ghost use Rattle.rules.specs.Events.{overtakes, settle_if, settle, releases, release_walked, after_walk};
ghost use Rattle.dispatcher.specs.Shown.{shown, stored};
ghost use Rattle.dispatcher.specs.Choosing.{Choosable, Settled, Shows, before};
ghost use Rattle.dispatcher.specs.Promise.{answered};

use crate::Machine;
use rules::{Chain, Place, Running};
use timeslices::release::{release, released};
use timeslices::search::{Members, members_of};

impl Machine {
    // "Of two timeslices the higher priority stands above; among equals, the earlier in turn order."
    pub fn stands_above(&self, a: u8, b: u8) -> bool
        ensures { result ≡ stands_above (shown self.now).slices (shown self.now).order a b }
    {
        // Not by `timeslice_at`, which is given the whole table: the two copies made the events 7 % slower.
        let j = usize::from(a);
        let high = if j < 128 {
            self.timeslices[j].priority
        } else {
            0
        };
        let k = usize::from(b);
        let low = if k < 128 {
            self.timeslices[k].priority
        } else {
            0
        };
        neighbours::standing::stands_above(&self.after, self.live_timeslices, a, high, b, low)
    }

    // A timeslice joined Queue: choice if nothing runs or it stands above the current.
    pub(crate) fn overtaken(&mut self, q: u8) -> u16
        requires { Choosable self.old 0 }
        ensures { Settled (settle_if (overtakes (shown self.old) (some q)) (before self.old 0)) (answered self.new (Ok result)) }
    {
        let Running::Runs { timeslice, .. } = self.running else {
            return self.choose(0);
        };
        if self.stands_above(q, timeslice) {
            return self.choose(0);
        }
        0
    }

    // Those On a thread are released; where there is one only, it alone changes its place.
    pub(crate) fn waiters_released(&mut self, n: u8) -> u16
        requires { Choosable self.old 0 }
        ensures { Settled (settle (releases n (shown self.old))) (answered self.new (Ok result)) }
    {
        let live = self.live_timeslices;
        match members_of(self.timeslices, &self.after, live, Place::On(n)) {
            Members::None => 0,
            Members::One(q) => {
                self.timeslices[usize::from(q)].place = Place::Queue;
                self.overtaken(q)
            }
            Members::Several(q) => {
                self.timeslices = released(self.timeslices, &self.after, live, Place::On(n), q);
                self.overtaken(q)
            }
        }
    }

    // After a walk that looped the Stalled are released, after one that ended at a Blocked thread those On it.
    pub(crate) fn walk_released(&mut self, chain: Chain, blocked: bool)
        requires { stored self.old ≡ true }
        ensures { Shows (release_walked chain.looped blocked chain.end (shown self.old)) self.new }
    {
        let live = self.live_timeslices;
        if chain.looped {
            self.timeslices = release(self.timeslices, &self.after, live, Place::Stalled);
        } else if blocked {
            self.timeslices = release(self.timeslices, &self.after, live, Place::On(chain.end));
        }
    }

    // A choice follows.
    pub(crate) fn settled_after(&mut self, chain: Chain, blocked: bool) -> u16
        requires { Choosable self.old chain.links }
        ensures { Settled (settle (after_walk chain blocked (shown self.old))) (answered self.new (Ok result)) }
    {
        self.walk_released(chain, blocked);
        self.choose(u16::from(chain.links))
    }
}
