// "A line is the number and these three figures, with single spaces; lines go by rising timeslice number."
ghost use Rattle.std.specs.Prelude.{◌<◌};
ghost use Rattle.rules.specs.Shares.{share, share_line};
ghost use Rattle.text.specs.Put.{Put};
ghost use Rattle.shares_sheet.specs.Tallies.{Within, tally_lines};

use crate::tally::Tally;
use text::{put_byte, put_column, put_decimal};

// "units charged, whole parts per thousand of the total, and the remainder"
fn put_share(out: &mut [u8], at: usize, total: u64, timeslice: u8, units: u64) -> usize
    requires { (0 < total) × (units < 2147483648) }
    ensures { Put out.old out.new at result (share_line (share total timeslice units)) }
{
    let thousandfold = 1000 * units;
    let second = put_column(out, at, timeslice as u64);
    let third = put_column(out, second, units);
    let last = put_column(out, third, thousandfold / total);
    let end = put_decimal(out, last, thousandfold % total);
    put_byte(out, end, b'\n')
}

// Of those that have paid, from number 0 on.
pub fn put_shares(out: &mut [u8], paid: Tally) -> usize
    requires { Within paid }
    ensures { Put out.old out.new 0 result (tally_lines paid.total 0 paid.units) }
{
    let total = paid.total;
    let mut at = 0;
    for timeslice in 0..128 {
        let units = paid.units[timeslice as usize];
        if 0 < units {
            at = put_share(out, at, total, timeslice, units);
        }
    }
    at
}
