// Document 01, "Events" and "Refusals, operation by operation": Call.
ghost use Rattle.std.specs.Prelude.{◌≡◌, true, ◌≤◌, Ok};
ghost use Rattle.rules.specs.declared.Event.TheVariants.{Call};
ghost use Rattle.rules.specs.Events.{dispatch, settle, call_donates, call_helps};
ghost use Rattle.dispatcher.specs.Choosing.{Choosable, Settled};
ghost use Rattle.dispatcher.specs.Shown.{shown, sound_machine};
ghost use Rattle.dispatcher.specs.Promise.{Answers, answered};

use crate::Machine;
use rules::{Hold, Refusal, Role, Running};
use tables::threads::{donated, with_hold};

impl Machine {
    // The server is Idle: the caller donates to it.
    pub(crate) fn call_donates(&mut self, server: u8, caller: u8, t: u8, count: u8) -> u16
        requires choosable { Choosable self.old 0 }
        requires in_range { count ≤ 128 }
        ensures { Settled (settle (call_donates server caller t count (shown self.old))) (answered self.new (Ok result)) }
    {
        self.threads = donated(self.threads, caller, server);
        self.running = Running::Runs {
            thread: server,
            timeslice: t,
            count: count + 1,
        };
        self.waiters_released(server)
    }

    // It is not: the caller helps it.
    pub(crate) fn call_helps(&mut self, server: u8, caller: u8) -> u16
        requires { Choosable self.old 0 }
        ensures { Settled (settle (call_helps server caller (shown self.old))) (answered self.new (Ok result)) }
    {
        self.threads = with_hold(self.threads, caller, Hold::Helping(server));
        self.choose(0)
    }

    pub(crate) fn dispatch_call(&mut self, server: u8) -> Result<u16, Refusal>
        requires { sound_machine self.old ≡ true }
        ensures { Answers (dispatch (Call server) (shown self.old)) self.old (answered self.new result) }
    {
        let Running::Runs {
            thread: caller,
            timeslice: t,
            count,
        } = self.running
        else {
            return Err(Refusal::NothingRuns);
        };
        let thread = self.live_thread(server)?;
        if thread.role != Role::Server {
            return Err(Refusal::NotAServer);
        }
        if server == caller {
            return Err(Refusal::Itself);
        }
        if thread.hold == Hold::Idle {
            return Ok(self.call_donates(server, caller, t, count));
        }
        Ok(self.call_helps(server, caller))
    }
}
