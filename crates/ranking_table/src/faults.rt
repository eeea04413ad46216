// What can be wrong with a table: a bad row, an overlap, a gap.
ghost use Rattle.std.specs.Prelude.{◌≤◌, ◌≡◌, false, length};
ghost use Rattle.ranking_table.specs.Ranking.{any_bad, in_two, missing, overlap, gap, fault, judged_of};
ghost use Rattle.ranking_table.specs.Good.{there, better};

use crate::rows::count_holding;
use crate::{LONGEST, Refused, Row};
use rules::Refusal;
use std::iter;

// Where no interval is meant.
const PAST: u16 = 60001;

pub(crate) fn has_bad_row(rows: &[Row]) -> bool
    ensures { result ≡ any_bad rows.now }
{
    rows.iter().any(|row| row.is_bad())
}

// An interval in two rows or more, if it is below the best so far: no other is counted.
fn better_overlap(rows: &[Row], best: u16, i: u16) -> u16
    ensures { result ≡ better (in_two rows.now) best i }
{
    if i < best && 2 <= count_holding(rows, i) {
        i
    } else {
        best
    }
}

// A missing interval, if it is below the best so far: no other is counted.
fn better_gap(rows: &[Row], best: u16, i: u16) -> u16
    ensures { result ≡ better (missing rows.now) best i }
{
    if i < best && count_holding(rows, i) == 0 {
        i
    } else {
        best
    }
}

// "the smallest interval in two rows or more": it is the first of a row.
pub(crate) fn smallest_overlap(rows: &[Row]) -> Option<u16>
    requires { any_bad rows.now ≡ false }
    ensures { result ≡ there (overlap rows.now) }
{
    let best = rows
        .iter()
        .map(|row| row.first)
        .fold(PAST, |best, i| better_overlap(rows, best, i));
    (best <= LONGEST).then_some(best)
}

// "the smallest interval missing": it is 1, or the one after the last of a row.
pub(crate) fn smallest_gap(rows: &[Row]) -> Option<u16>
    requires { any_bad rows.now ≡ false }
    ensures { result ≡ there (gap rows.now) }
{
    let best = iter::once(1)
        .chain(rows.iter().map(|row| row.last + 1))
        .fold(PAST, |best, i| better_gap(rows, best, i));
    (best <= LONGEST).then_some(best)
}

// "24, overlap; 25, gap": what is wrong with a table whose rows are not too many and none of which is bad.
#[tactic(auto, using(crate::proofs::Judging::overlap_told, crate::proofs::Judging::gap_told, crate::proofs::Judging::none_told))]
pub(crate) fn overlap_or_gap(rows: &[Row]) -> Result<(), Refused>
    requires { (length rows.now ≤ 64) × (any_bad rows.now ≡ false) }
    ensures { judged_of result ≡ fault rows.now }
{
    match (smallest_overlap(rows), smallest_gap(rows)) {
        (Some(interval), _) => Err(Refused {
            refusal: Refusal::Overlap,
            interval,
        }),
        (None, Some(interval)) => Err(Refused {
            refusal: Refusal::Gap,
            interval,
        }),
        (None, None) => Ok(()),
    }
}
