// Document 01, "Events" and "Refusals, operation by operation": Give.
ghost use Rattle.std.specs.Prelude.{◌≡◌, true};
ghost use Rattle.rules.specs.declared.Event.TheVariants.{Give};
ghost use Rattle.rules.specs.Events.{dispatch};
ghost use Rattle.dispatcher.specs.Shown.{shown, sound_machine};
ghost use Rattle.dispatcher.specs.Promise.{Answers, answered};

use crate::Machine;
use neighbours::joining::append;
use neighbours::reading::is_listed;
use rules::{Place, Refusal, Timeslice};
use timeslices::search::owns_one;

impl Machine {
    pub(crate) fn dispatch_give(
        &mut self,
        t: u8,
        n: u8,
        priority: u8,
        quantum: u16,
    ) -> Result<u16, Refusal>
        requires { sound_machine self.old ≡ true }
        ensures { Answers (dispatch (Give t n priority quantum) (shown self.old)) self.old (answered self.new result) }
    {
        if t > 127 || n > 127 {
            return Err(Refusal::AboveLimit);
        }
        if is_listed(&self.after, t) {
            return Err(Refusal::InUse);
        }
        self.live_thread(n)?;
        if owns_one(self.timeslices, &self.after, self.live_timeslices, n) {
            return Err(Refusal::OwnsOne);
        }
        if quantum == 0 {
            return Err(Refusal::NoQuantum);
        }
        self.timeslices[usize::from(t)] = Timeslice {
            owner: n,
            priority,
            quantum,
            left: quantum,
            place: Place::Queue,
        };
        append(&mut self.before, &mut self.after, t);
        self.live_timeslices += 1;
        Ok(self.overtaken(t))
    }
}
