// "Op 0 gives an abort order; 1 a withdraw order; 2 takes the orders; 3 and above runs the next `thread` events of the file".
ghost use Rattle.orders_sheet.specs.Sheet.{done};
ghost use Rattle.orders_sheet.specs.Promises.{stand_of, Obeys};
ghost use Rattle.replay.specs.Running.{Ready};

use crate::Command;
use abort_orders::Store;
use dispatcher::Machine;
use replay::run_events;
use rules::Refusal;

// The machine, where the next event begins, and what the line says: why the command is refused, or the last column, which is a
// take's count or the links of a run.
#[derive(Clone, Copy)]
pub(crate) struct Obeyed {
    pub machine: Machine,
    pub offset: usize,
    pub answer: Result<u64, Refusal>,
}

pub(crate) fn obey(
    command: Command,
    store: &mut Store,
    file: &[u8],
    offset: usize,
    machine: Machine,
) -> Obeyed
    requires { Ready file.now offset machine }
    ensures { Obeys (done command (stand_of store.old file.now offset machine)) file.now
        store.new result }
{
    // The op stays a number: `done`, specs/Sheet.antt, speaks of a `Command` as it is read.
    match command.op {
        0 => Obeyed {
            machine,
            offset,
            answer: store.give_abort(command.thread, command.number).map(|()| 0),
        },
        1 => Obeyed {
            machine,
            offset,
            answer: store
                .give_withdraw(command.thread, command.number)
                .map(|()| 0),
        },
        2 => {
            let taken = store.take(machine);
            *store = taken.store;
            Obeyed {
                machine: taken.machine,
                offset,
                answer: taken.answer.map(u64::from),
            }
        }
        _ => {
            let ran = run_events(file, offset, machine, command.thread);
            Obeyed {
                machine: ran.machine,
                offset: ran.offset,
                answer: Ok(ran.links),
            }
        }
    }
}
