// The events offered to any machine: an unsound one is refused with 1, and a sound one goes through the inner door. `offer` takes any
// event; each kind has its method too, under the name that document 01 gives the operation.
ghost use Rattle.rules.specs.declared.Event.TheVariants.{Create, Give, Call, Reply, Block, Wake, Charge, Abort, Refill, Remove, Rank};
ghost use Rattle.rules.specs.Events.{offer_if};
ghost use Rattle.dispatcher.specs.Shown.{shown, sound_machine};
ghost use Rattle.dispatcher.specs.Promise.{Answers, answered};

use crate::{Answered, Machine};
use rules::{Event, Refusal, Role};

impl Machine {
    pub fn offer(mut self, e: Event) -> Answered
        ensures { Answers (offer_if (sound_machine self) e (shown self)) self (answered result.machine result.answer) }
    {
        let answer = self.tested(e);
        Answered {
            machine: self,
            answer,
        }
    }

    fn tested(&mut self, e: Event) -> Result<u16, Refusal>
        ensures { Answers (offer_if (sound_machine self.old) e (shown self.old)) self.old (answered self.new result) }
    {
        if !self.is_sound() {
            return Err(Refusal::Unsound);
        }
        self.dispatch(e)
    }

    pub fn create(mut self, thread: u8, role: Role) -> Answered
        ensures { Answers (offer_if (sound_machine self) (Create thread role) (shown self)) self (answered result.machine result.answer) }
    {
        self.offer(Event::Create { thread, role })
    }

    pub fn give(mut self, timeslice: u8, thread: u8, priority: u8, quantum: u16) -> Answered
        ensures { Answers (offer_if (sound_machine self) (Give timeslice thread priority quantum) (shown self)) self
            (answered result.machine result.answer) }
    {
        self.offer(Event::Give {
            timeslice,
            thread,
            priority,
            quantum,
        })
    }

    pub fn call(mut self, server: u8) -> Answered
        ensures { Answers (offer_if (sound_machine self) (Call server) (shown self)) self (answered result.machine result.answer) }
    {
        self.offer(Event::Call { server })
    }

    pub fn reply(mut self) -> Answered
        ensures { Answers (offer_if (sound_machine self) Reply (shown self)) self (answered result.machine result.answer) }
    {
        self.offer(Event::Reply)
    }

    pub fn block(mut self) -> Answered
        ensures { Answers (offer_if (sound_machine self) Block (shown self)) self (answered result.machine result.answer) }
    {
        self.offer(Event::Block)
    }

    pub fn wake(mut self, thread: u8) -> Answered
        ensures { Answers (offer_if (sound_machine self) (Wake thread) (shown self)) self (answered result.machine result.answer) }
    {
        self.offer(Event::Wake { thread })
    }

    pub fn charge(mut self, units: u16) -> Answered
        ensures { Answers (offer_if (sound_machine self) (Charge units) (shown self)) self (answered result.machine result.answer) }
    {
        self.offer(Event::Charge { units })
    }

    pub fn abort(mut self, thread: u8) -> Answered
        ensures { Answers (offer_if (sound_machine self) (Abort thread) (shown self)) self (answered result.machine result.answer) }
    {
        self.offer(Event::Abort { thread })
    }

    pub fn refill(mut self, timeslice: u8) -> Answered
        ensures { Answers (offer_if (sound_machine self) (Refill timeslice) (shown self)) self (answered result.machine result.answer) }
    {
        self.offer(Event::Refill { timeslice })
    }

    pub fn remove(mut self, thread: u8) -> Answered
        ensures { Answers (offer_if (sound_machine self) (Remove thread) (shown self)) self (answered result.machine result.answer) }
    {
        self.offer(Event::Remove { thread })
    }

    pub fn rank(mut self, timeslice: u8, priority: u8) -> Answered
        ensures { Answers (offer_if (sound_machine self) (Rank timeslice priority) (shown self)) self
            (answered result.machine result.answer) }
    {
        self.offer(Event::Rank {
            timeslice,
            priority,
        })
    }
}
