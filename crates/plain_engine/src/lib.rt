#![tactic(auto)]
// Document 02, [1]: an engine that runs document 01's plain machine, "with no places and every timeslice judged at every event". The walk
// and the rules of threads are those of crate tables; what reads timeslices is the engine's own, since its timeslices have no place.
ghost use Rattle.std.specs.Prelude.{◌≡◌};
ghost use Rattle.rules.specs.Sound.{shaped};
ghost use Rattle.rules.specs.Plain.{plain_offer_if};
ghost use Rattle.plain_engine.specs.Shown.{empty_machine, plain_shown};
ghost use Rattle.plain_engine.specs.Promise.{PlainAnswers, answered};

mod judging;
mod refusals;
mod shape;
mod slices;
mod updates;

use rules::{Event, Refusal, Running, Slice, Thread};

#[derive(Clone, Copy)]
pub struct PlainMachine {
    pub threads: [Thread; 128],
    pub slices: [Slice; 128],
    // The turn order, from its front, and T, the number of its live entries.
    pub order: [u8; 128],
    pub live: u8,
    pub running: Running,
}

impl PlainMachine {
    // No thread, no timeslice and nothing running.
    pub fn empty() -> PlainMachine
        ensures { result ≡ empty_machine }
    {
        PlainMachine {
            threads: [Thread::FREE; Thread::LIMIT],
            slices: [Slice::FREE; Slice::LIMIT],
            order: [0; Slice::LIMIT],
            live: 0,
            running: Running::Nothing,
        }
    }

    // A machine that is not shaped is refused with 1, and anything else by document 01's list. What is accepted changes the machine, and
    // then every timeslice is judged.
    pub fn offer(&mut self, e: Event) -> Result<(), Refusal>
        ensures { PlainAnswers (plain_offer_if (shaped (plain_shown self.old)) e (plain_shown self.old)) self.old
            (answered self.new result) }
    {
        if !self.is_shaped() {
            return Err(Refusal::Unsound);
        }
        self.check(e)?;
        self.update(e);
        self.judge();
        Ok(())
    }
}
