// "over and over until a whole pass leaves out none"
ghost use Rattle.std.specs.Prelude.{◌≡◌, true};
ghost use Rattle.rules.specs.Shorten.{refused_in, shortened};
ghost use Rattle.event_file.specs.Left.{events_at};
ghost use Rattle.shorten_sheet.specs.Standing.{Stand};
ghost use Rattle.shorten_sheet.specs.Promises.{Rests};

use crate::ask::ask;
use crate::parts::try_part;
use dispatcher::Machine;

// Between which places the records are that are left.
#[derive(Clone, Copy)]
pub struct Rest {
    pub from: usize,
    pub to: usize,
}

// Each round cuts off what comes after the first refusal asked for, which its pass would leave out; the refused event itself stays.
pub fn shorten(work: &mut [u8], number: u8) -> Rest
    requires { (Stand work.old 5 (events_at 5 work.old)) × (refused_in number (events_at 5 work.old) ≡ true) }
    ensures { Rests work.old work.new result (shortened number (events_at 5 work.old)) }
{
    let mut from = 5;
    let mut to = work.len();
    loop {
        let Some(asked) = ask(&work[..to], from, Machine::empty(), number) else {
            // Some event of those left is refused with the number.
            unreachable!();
        };
        to = asked.to;
        let last = asked.at;
        let first = try_part(&mut work[..to], from, Machine::empty(), last, last, number);
        if first <= from {
            return Rest { from, to };
        }
        from = first;
    }
}
