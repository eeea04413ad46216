// Document 01, "Events", and document 02: the events on a sound machine, each in its module, and here the inner door to all.
ghost use Rattle.std.specs.Prelude.{◌≡◌, true};
ghost use Rattle.rules.specs.Events.{dispatch};
ghost use Rattle.dispatcher.specs.Shown.{shown, sound_machine};
ghost use Rattle.dispatcher.specs.Promise.{Answers, answered};

use crate::Machine;
use rules::{Event, Refusal};

mod abort;
mod block;
mod call;
mod charge;
mod create;
mod give;
mod rank;
mod refill;
mod remove;
mod reply;
mod wake;

impl Machine {
    // It does not test soundness, which costs far more than an event: a list is tested once, at its beginning, and stays sound from event
    // to event. So it asks for a sound machine, and the checker refuses a caller that does not show it one.
    //
    // The links followed, or why the event is refused: then the machine is as it was.
    pub fn dispatch(&mut self, e: Event) -> Result<u16, Refusal>
        requires { sound_machine self.old ≡ true }
        ensures { Answers (dispatch e (shown self.old)) self.old (answered self.new result) }
    {
        match e {
            Event::Create { thread, role } => self.dispatch_create(thread, role),
            Event::Give {
                timeslice,
                thread,
                priority,
                quantum,
            } => self.dispatch_give(timeslice, thread, priority, quantum),
            Event::Call { server } => self.dispatch_call(server),
            Event::Reply => self.dispatch_reply(),
            Event::Block => self.dispatch_block(),
            Event::Wake { thread } => self.dispatch_wake(thread),
            Event::Charge { units } => self.dispatch_charge(units),
            Event::Abort { thread } => self.dispatch_abort(thread),
            Event::Refill { timeslice } => self.dispatch_refill(timeslice),
            Event::Remove { thread } => self.dispatch_remove(thread),
            Event::Rank {
                timeslice,
                priority,
            } => self.dispatch_rank(timeslice, priority),
        }
    }
}
