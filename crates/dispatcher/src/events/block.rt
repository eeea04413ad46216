// Document 01, "Events" and "Refusals, operation by operation": Block.
ghost use Rattle.std.specs.Prelude.{◌≡◌, true};
ghost use Rattle.rules.specs.declared.Event.TheVariants.{Block};
ghost use Rattle.rules.specs.Events.{dispatch};
ghost use Rattle.dispatcher.specs.Shown.{shown, sound_machine};
ghost use Rattle.dispatcher.specs.Promise.{Answers, answered};

use crate::Machine;
use rules::{Hold, Refusal, Running};
use tables::threads::with_hold;

impl Machine {
    pub(crate) fn dispatch_block(&mut self) -> Result<u16, Refusal>
        requires { sound_machine self.old ≡ true }
        ensures { Answers (dispatch Block (shown self.old)) self.old (answered self.new result) }
    {
        let Running::Runs { thread, .. } = self.running else {
            return Err(Refusal::NothingRuns);
        };
        self.threads = with_hold(self.threads, thread, Hold::Blocked);
        Ok(self.choose(0))
    }
}
