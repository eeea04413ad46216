// Document 01, "Events" and "Refusals, operation by operation": Create.
ghost use Rattle.std.specs.Prelude.{◌≡◌, true};
ghost use Rattle.rules.specs.declared.Event.TheVariants.{Create};
ghost use Rattle.rules.specs.Events.{dispatch};
ghost use Rattle.dispatcher.specs.Shown.{shown, sound_machine};
ghost use Rattle.dispatcher.specs.Promise.{Answers, answered};

use crate::Machine;
use rules::{Refusal, Role};
use tables::threads::created;

impl Machine {
    pub(crate) fn dispatch_create(&mut self, n: u8, role: Role) -> Result<u16, Refusal>
        requires { sound_machine self.old ≡ true }
        ensures { Answers (dispatch (Create n role) (shown self.old)) self.old (answered self.new result) }
    {
        if n > 127 {
            return Err(Refusal::AboveLimit);
        }
        if self.threads[usize::from(n)].live {
            return Err(Refusal::InUse);
        }
        self.threads = created(self.threads, n, role);
        self.live_threads += 1;
        Ok(0)
    }
}
