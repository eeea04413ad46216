// "Op 0 reads register a; 1 writes b to register a; 2 raises line a; 3 polls; 4 and above runs the next a events of the file".
ghost use Rattle.card_sheet.specs.Sheet.{done};
ghost use Rattle.card_sheet.specs.Promises.{stand_of, Obeys};
ghost use Rattle.replay.specs.Running.{Ready};

use crate::Command;
use bridge_card::{poll, raise_line, read_register, write_register};
use dispatcher::Machine;
use replay::run_events;
use rules::Refusal;

// The machine, where the next event begins, and what the two lines say.
#[derive(Clone, Copy)]
pub(crate) struct Obeyed {
    pub machine: Machine,
    pub offset: usize,
    pub answer: Result<u64, Refusal>,
    pub byte: u8,
}

pub(crate) fn obey(
    command: Command,
    block: &mut [u8],
    file: &[u8],
    offset: usize,
    machine: Machine,
) -> Obeyed
    requires { Ready file.now offset machine }
    ensures { Obeys (done command (stand_of block.old file.now offset machine)) file.now
        block.new result }
{
    // The op stays a number: `done`, specs/Sheet.antt, speaks of a `Command` as it is read.
    match command.op {
        0 => {
            let reading = read_register(block, command.a);
            Obeyed {
                machine,
                offset,
                answer: reading.map(|_| 0),
                byte: reading.unwrap_or(0),
            }
        }
        1 => Obeyed {
            machine,
            offset,
            answer: write_register(block, command.a, command.b).map(|()| 0),
            byte: 0,
        },
        2 => Obeyed {
            machine,
            offset,
            answer: raise_line(block, command.a).map(|()| 0),
            byte: 0,
        },
        3 => {
            let polled = poll(block, machine);
            Obeyed {
                machine: polled.machine,
                offset,
                answer: polled.answer.map(u64::from),
                byte: 0,
            }
        }
        _ => {
            let ran = run_events(file, offset, machine, command.a);
            Obeyed {
                machine: ran.machine,
                offset: ran.offset,
                answer: Ok(ran.links),
                byte: 0,
            }
        }
    }
}
