// Document 01, "Refusals, operation by operation": the refusals that several events share.
ghost use Rattle.std.specs.Prelude.{◌≡◌};
ghost use Rattle.rules.specs.RefusalNumbers.{number_in};
ghost use Rattle.dispatcher.specs.Refusing.{live_thread, unlisted};

use crate::Machine;
use neighbours::reading::is_listed;
use rules::{Refusal, Thread};

impl Machine {
    // "2 (number above 127), 4 (no such live thread)"
    pub(crate) fn live_thread(&self, n: u8) -> Result<Thread, Refusal>
        ensures { result ≡ live_thread n self.now.threads }
    {
        if n > 127 {
            return Err(Refusal::AboveLimit);
        }
        let thread = self.threads[usize::from(n)];
        if !thread.live {
            return Err(Refusal::NotLive);
        }
        Ok(thread)
    }

    // "2 (timeslice number), 4 (no such live timeslice)"
    pub(crate) fn check_listed(&self, t: u8) -> Result<(), Refusal>
        ensures { number_in result ≡ unlisted t self.now.after }
    {
        if t > 127 {
            return Err(Refusal::AboveLimit);
        }
        if !is_listed(&self.after, t) {
            return Err(Refusal::NotLive);
        }
        Ok(())
    }
}
