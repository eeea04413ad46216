#![tactic(auto)]
// One turn of a file is `event_file::step` and then `Machine::dispatch`; proofs/Turns.antt has its law, which every program that replays a
// file cites.
ghost use Rattle.std.specs.Prelude.{◌≡◌};
ghost use Rattle.rules.specs.RefusalNumbers.{number_in};
ghost use Rattle.replay.specs.Behind.{refusal_behind};
ghost use Rattle.replay.specs.Running.{Ready, RanOn};

use dispatcher::Machine;
use event_file::{Found, check_file, step};
use rules::Refusal;

// "An input cut short before the file prints `file 14`; a refused file prints its `file` line." The file begins at this place.
pub fn check_behind(input: &[u8], at: usize) -> Result<(), Refusal>
    ensures { number_in result ≡ refusal_behind at input.now }
{
    if input.len() < at {
        return Err(Refusal::BadLength);
    }
    check_file(&input[at..])
}

// The machine after some events of a file, where the next one begins, and the links that they followed in all.
#[derive(Clone, Copy)]
pub struct Ran {
    pub machine: Machine,
    pub offset: usize,
    pub links: u64,
}

// Runs the next events of a file, "fewer where it ends", "refused or not". An inner door, as `Machine::dispatch` is: file and machine are
// tested once, before the first command, so it asks for events that are left and a sound machine.
pub fn run_events(file: &[u8], from: usize, start: Machine, count: u8) -> Ran
    requires { Ready file.now from start }
    ensures { RanOn file.now from start count result }
{
    let mut machine = start;
    let mut offset = from;
    let mut links: u64 = 0;
    for _ in 0..count {
        let read = step(file, offset);
        let Found::Record(event) = read.found else {
            break;
        };
        links += u64::from(machine.dispatch(event).unwrap_or(0));
        offset = read.offset;
    }
    Ran {
        machine,
        offset,
        links,
    }
}
