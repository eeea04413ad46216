// Document 02, [3]: Remove.
ghost use Rattle.std.specs.Prelude.{◌<◌, ◌≡◌, true, Ok};
ghost use Rattle.std.proofs.Math.Option.{some};
ghost use Rattle.rules.specs.declared.Event.TheVariants.{Remove};
ghost use Rattle.rules.specs.State.{live_at};
ghost use Rattle.rules.specs.Tests.{member as member_of};
ghost use Rattle.rules.specs.Timeslices.{own_of};
ghost use Rattle.rules.specs.Events.{dispatch, settle, strike_out, remove};
ghost use Rattle.dispatcher.specs.Choosing.{Choosable, Settled, Shows};
ghost use Rattle.dispatcher.specs.Shown.{shown, sound_machine};
ghost use Rattle.dispatcher.specs.Promise.{Answers, answered};

use crate::Machine;
use neighbours::joining::strike_out;
use rules::{Place, Refusal, Timeslice};
use tables::ends::end_blocked;
use tables::threads::removed;
use tables::walk::walk;
use timeslices::release::release;
use timeslices::search::own;

impl Machine {
    // The timeslice leaves the turn order, its slot is free, and its followers are released.
    pub(crate) fn struck_out(&mut self, t: u8)
        requires choosable { Choosable self.old 0 }
        requires in_range { t < 128 }
        requires listed { member_of t (shown self.old).order ≡ true }
        ensures { Shows (strike_out (some t) (shown self.old)) self.new }
    {
        self.timeslices[usize::from(t)] = Timeslice::FREE;
        strike_out(&mut self.before, &mut self.after, t);
        self.live_timeslices -= 1;
        self.timeslices = release(
            self.timeslices,
            &self.after,
            self.live_timeslices,
            Place::Behind(t),
        );
    }

    pub(crate) fn own_struck_out(&mut self, n: u8)
        requires { sound_machine self.old ≡ true }
        ensures { Shows (strike_out (own_of (shown self.old).slices n (shown self.old).order) (shown self.old)) self.new }
    {
        if let Some(t) = own(self.timeslices, &self.after, self.live_timeslices, n) {
            self.struck_out(t);
        }
    }

    // First the walk from the thread; then its own timeslice and its record go, and those that waited at the walk's end are released.
    pub(crate) fn remove_walks(&mut self, n: u8) -> u16
        requires sound { sound_machine self.old ≡ true }
        requires live { live_at (shown self.old).threads n ≡ true }
        ensures { Settled (settle (remove n (shown self.old))) (answered self.new (Ok result)) }
    {
        let chain = walk(self.threads, self.live_threads, n);
        let blocked = end_blocked(self.threads, chain);
        self.own_struck_out(n);
        self.threads = removed(self.threads, n);
        self.live_threads -= 1;
        self.settled_after(chain, blocked)
    }

    pub(crate) fn dispatch_remove(&mut self, n: u8) -> Result<u16, Refusal>
        requires { sound_machine self.old ≡ true }
        ensures { Answers (dispatch (Remove n) (shown self.old)) self.old (answered self.new result) }
    {
        self.live_thread(n)?;
        Ok(self.remove_walks(n))
    }
}
