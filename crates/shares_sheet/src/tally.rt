// "summed from the accepted charge events of the list, not from the machine": what each timeslice number paid, and all of them together.
ghost use Rattle.std.specs.Prelude.{◌+◌, ◌<◌, ◌≡◌, List, length};
ghost use Rattle.rules.specs.EventFile.{file_refusal, events_of};
ghost use Rattle.rules.specs.Shares.{paid, payments_of, total};
ghost use Rattle.shares_sheet.specs.Tallies.{Tallied, Added, Room};

use dispatcher::Machine;
use event_file::{Found, step};
use rules::{Event, Refusal, Running, Timeslice};

// The units of each number, and their sum.
#[derive(Clone, Copy)]
pub struct Tally {
    pub units: [u64; Timeslice::LIMIT],
    pub total: u64,
}

// Adds what an event pays to the units of the timeslice that was current when it came, and gives that much. The refusal is a number, as
// the definition `paid` has it.
fn add_payment(units: &mut [u64], refusal: u8, running: Running, event: Event) -> u64
    requires { Room units.old (paid refusal running event) }
    ensures { Added units.old units.new (paid refusal running event) result }
{
    if refusal != 0 {
        return 0;
    }
    let Event::Charge { units: charged } = event else {
        return 0;
    };
    let Running::Runs { timeslice, .. } = running else {
        return 0;
    };
    units[timeslice as usize] += charged as u64;
    charged as u64
}

// One event after the other, until there is none left.
pub fn sum_payments(file: &[u8]) -> Tally
    requires { file_refusal file.now ≡ 0 }
    ensures { Tallied (payments_of (events_of file.now)) result }
{
    let mut machine = Machine::empty();
    let mut offset = 5;
    let mut units = [0; Timeslice::LIMIT];
    let mut total = 0;
    loop {
        let read = step(file, offset);
        let Found::Record(event) = read.found else {
            return Tally { units, total };
        };
        let running = machine.running;
        let refusal = Refusal::number_in(machine.dispatch(event));
        total += add_payment(&mut units, refusal, running, event);
        offset = read.offset;
    }
}
