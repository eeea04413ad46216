// Document 01, "Events" and "Refusals, operation by operation": Reply.
ghost use Rattle.std.specs.Prelude.{◌≡◌, true, Ok};
ghost use Rattle.rules.specs.declared.Event.TheVariants.{Reply};
ghost use Rattle.rules.specs.Events.{dispatch, settle, reply_to};
ghost use Rattle.dispatcher.specs.Choosing.{Choosable, Settled};
ghost use Rattle.dispatcher.specs.Shown.{shown, sound_machine};
ghost use Rattle.dispatcher.specs.Promise.{Answers, answered};

use crate::Machine;
use rules::{Refusal, Role, Running, Service};
use tables::threads::replied;

impl Machine {
    // The server has replied. Count above 0: the caller runs. Count 0: choice.
    pub(crate) fn reply_to(&mut self, t: u8, count: u8, service: Service) -> u16
        requires { Choosable self.old 0 }
        ensures { Settled (settle (reply_to t count (shown self.old) service)) (answered self.new (Ok result)) }
    {
        match service {
            Service::Serving(caller) if count > 0 => {
                self.running = Running::Runs {
                    thread: caller,
                    timeslice: t,
                    count: count - 1,
                };
                0
            }
            _ => self.choose(0),
        }
    }

    pub(crate) fn dispatch_reply(&mut self) -> Result<u16, Refusal>
        requires { sound_machine self.old ≡ true }
        ensures { Answers (dispatch Reply (shown self.old)) self.old (answered self.new result) }
    {
        let Running::Runs {
            thread: server,
            timeslice: t,
            count,
        } = self.running
        else {
            return Err(Refusal::NothingRuns);
        };
        let thread = self.threads[usize::from(server)];
        if thread.role != Role::Server {
            return Err(Refusal::RunsAClient);
        }
        self.threads = replied(self.threads, server);
        Ok(self.reply_to(t, count, thread.service))
    }
}
