// Document 01, "Events" and "Refusals, operation by operation": Wake.
ghost use Rattle.std.specs.Prelude.{◌≡◌, true};
ghost use Rattle.rules.specs.declared.Event.TheVariants.{Wake};
ghost use Rattle.rules.specs.Events.{dispatch};
ghost use Rattle.dispatcher.specs.Shown.{shown, sound_machine};
ghost use Rattle.dispatcher.specs.Promise.{Answers, answered};

use crate::Machine;
use rules::{Hold, Refusal};
use tables::threads::with_hold;

impl Machine {
    pub(crate) fn dispatch_wake(&mut self, n: u8) -> Result<u16, Refusal>
        requires { sound_machine self.old ≡ true }
        ensures { Answers (dispatch (Wake n) (shown self.old)) self.old (answered self.new result) }
    {
        let thread = self.live_thread(n)?;
        if thread.hold != Hold::Blocked {
            return Err(Refusal::NotBlocked);
        }
        self.threads = with_hold(self.threads, n, Hold::Ready);
        Ok(self.waiters_released(n))
    }
}
