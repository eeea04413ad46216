// Document 01, "Events" and "Refusals, operation by operation": Abort.
ghost use Rattle.std.specs.Prelude.{◌≡◌, true, Ok};
ghost use Rattle.rules.specs.declared.Event.TheVariants.{Abort};
ghost use Rattle.rules.specs.Events.{dispatch, settle, abort};
ghost use Rattle.dispatcher.specs.Choosing.{Choosable, Settled};
ghost use Rattle.dispatcher.specs.Shown.{shown, sound_machine};
ghost use Rattle.dispatcher.specs.Promise.{Answers, answered};

use crate::Machine;
use rules::Refusal;
use tables::ends::end_blocked;
use tables::records::is_linked;
use tables::threads::aborted;
use tables::walk::walk;

impl Machine {
    // First the walk from the thread named; then it is Ready, and those that waited at the walk's end are released.
    pub(crate) fn abort_walks(&mut self, n: u8) -> u16
        requires { Choosable self.old 0 }
        ensures { Settled (settle (abort n (shown self.old))) (answered self.new (Ok result)) }
    {
        let chain = walk(self.threads, self.live_threads, n);
        let blocked = end_blocked(self.threads, chain);
        self.threads = aborted(self.threads, n);
        self.settled_after(chain, blocked)
    }

    pub(crate) fn dispatch_abort(&mut self, n: u8) -> Result<u16, Refusal>
        requires { sound_machine self.old ≡ true }
        ensures { Answers (dispatch (Abort n) (shown self.old)) self.old (answered self.new result) }
    {
        let thread = self.live_thread(n)?;
        if !is_linked(thread.hold) {
            return Err(Refusal::NotLinked);
        }
        Ok(self.abort_walks(n))
    }
}
