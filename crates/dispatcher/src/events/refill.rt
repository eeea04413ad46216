// Document 02, [2]: Refill.
ghost use Rattle.std.specs.Prelude.{◌≡◌, true};
ghost use Rattle.rules.specs.declared.Event.TheVariants.{Refill};
ghost use Rattle.rules.specs.Events.{dispatch};
ghost use Rattle.dispatcher.specs.Shown.{shown, sound_machine};
ghost use Rattle.dispatcher.specs.Promise.{Answers, answered};

use crate::Machine;
use rules::{Place, Refusal, Timeslice};

impl Machine {
    pub(crate) fn dispatch_refill(&mut self, t: u8) -> Result<u16, Refusal>
        requires { sound_machine self.old ≡ true }
        ensures { Answers (dispatch (Refill t) (shown self.old)) self.old (answered self.new result) }
    {
        self.check_listed(t)?;
        let k = usize::from(t);
        let x = self.timeslices[k];
        // Left is 0 exactly for Spent.
        if x.left != 0 {
            return Err(Refusal::NotSpent);
        }
        self.timeslices[k] = Timeslice {
            left: x.quantum,
            place: Place::Queue,
            ..x
        };
        Ok(self.overtaken(t))
    }
}
