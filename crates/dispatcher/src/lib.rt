#![tactic(auto)]
// The stored machine of the dispatcher. Which state of document 01 it shows is said in specs/Shown.antt.
ghost use Rattle.std.specs.Prelude.{◌≡◌};
ghost use Rattle.dispatcher.specs.Shown.{empty_machine, sound_machine, turns_of};

mod checks;
mod choice;
mod doors;
mod events;
mod settle;

use neighbours::reading::laid_out;
use rules::{Refusal, Running, Thread, Timeslice};

#[derive(Clone, Copy)]
pub struct Machine {
    pub running: Running,
    // L and T, the numbers of live threads and timeslices.
    pub live_threads: u8,
    pub live_timeslices: u8,
    // The turn order: the timeslice before and the one after each. Entry 128 is the list's own, so that after it comes the first and
    // before it the last; a timeslice that is not listed has 255.
    pub before: [u8; 129],
    pub after: [u8; 129],
    pub threads: [Thread; 128],
    pub timeslices: [Timeslice; 128],
}

// The machine after an event, with the answer: the links followed, or why the event is refused.
#[derive(Clone, Copy)]
pub struct Answered {
    pub machine: Machine,
    pub answer: Result<u16, Refusal>,
}

impl Machine {
    // No thread, no timeslice and nothing running.
    pub fn empty() -> Machine
        ensures { result ≡ empty_machine }
    {
        let mut before = [255u8; 129];
        let mut after = [255u8; 129];
        before[128] = 128;
        after[128] = 128;
        Machine {
            running: Running::Nothing,
            live_threads: 0,
            live_timeslices: 0,
            before,
            after,
            threads: [Thread::FREE; Thread::LIMIT],
            timeslices: [Timeslice::FREE; Timeslice::LIMIT],
        }
    }

    // A true L, neighbours that form a list of T timeslices, and the state shown is sound.
    pub fn is_sound(&self) -> bool
        ensures { result ≡ sound_machine self.now }
    {
        soundness::is_sound(
            self.threads,
            self.timeslices,
            self.before,
            self.after,
            self.live_threads,
            self.live_timeslices,
            self.running,
        )
    }

    // The turn order from its front, as an array: as many entries as there are live timeslices. Readers take it from here, however it
    // is stored.
    pub fn turn_order(&self) -> [u8; 128]
        ensures { result ≡ turns_of self.now }
    {
        laid_out(&self.after, self.live_timeslices)
    }
}
