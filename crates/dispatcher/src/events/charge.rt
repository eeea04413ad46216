// Document 01, "Events" and "Refusals, operation by operation", and document 02, [2]: Charge.
ghost use Rattle.std.specs.Prelude.{◌≡◌, true, ◌≤◌, ◌<◌, Ok};
ghost use Rattle.rules.specs.declared.Event.TheVariants.{Charge};
ghost use Rattle.rules.specs.Events.{dispatch, settle, depletes};
ghost use Rattle.rules.specs.State.{left_at};
ghost use Rattle.rules.specs.Tests.{member as member_of};
ghost use Rattle.dispatcher.specs.Choosing.{Choosable, Settled};
ghost use Rattle.dispatcher.specs.Shown.{shown, sound_machine};
ghost use Rattle.dispatcher.specs.Promise.{Answers, answered};

use crate::Machine;
use neighbours::joining::move_back;
use rules::{Place, Refusal, Running, Timeslice};
use timeslices::release::release;

impl Machine {
    // The current timeslice goes to the back and is Spent, and its followers are released.
    pub(crate) fn depleted(&mut self, t: u8, units: u16) -> u16
        requires choosable { Choosable self.old 0 }
        requires in_range { t < 128 }
        requires listed { member_of t (shown self.old).order ≡ true }
        requires payable { units ≤ left_at (shown self.old).slices t }
        ensures { Settled (settle (depletes t units (shown self.old))) (answered self.new (Ok result)) }
    {
        let k = usize::from(t);
        let x = self.timeslices[k];
        self.timeslices[k] = Timeslice {
            left: x.left - units,
            place: Place::Spent,
            ..x
        };
        move_back(&mut self.before, &mut self.after, t);
        self.timeslices = release(
            self.timeslices,
            &self.after,
            self.live_timeslices,
            Place::Behind(t),
        );
        self.choose(0)
    }

    pub(crate) fn dispatch_charge(&mut self, units: u16) -> Result<u16, Refusal>
        requires { sound_machine self.old ≡ true }
        ensures { Answers (dispatch (Charge units) (shown self.old)) self.old (answered self.new result) }
    {
        let Running::Runs { timeslice: t, .. } = self.running else {
            return Err(Refusal::NothingRuns);
        };
        let k = usize::from(t);
        let left = self.timeslices[k].left;
        if units == 0 || left < units {
            return Err(Refusal::BadCharge);
        }
        if left == units {
            return Ok(self.depleted(t, units));
        }
        self.timeslices[k].left = left - units;
        Ok(0)
    }
}
