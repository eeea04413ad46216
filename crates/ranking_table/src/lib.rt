#![tactic(auto)]
// Document 02, [10]: the ranking table of a survey office, which turns a sensor's message interval into a priority. What a table and a
// lookup answer is defined in specs/Ranking.antt.
//
// The smallest interval in two rows is the first of a row; the smallest that is missing is 1, or comes right after the last of a row
// (`overlap_at_a_first`, `gap_after_a_last`, proofs/Rankings.antt). So only these are tried, each against all rows: a table of n rows is
// judged in at most 2n(n + 2) looks at a row, and an interval is looked up in n, however long the rows are.
ghost use Rattle.std.specs.Prelude.{◌≡◌};
ghost use Rattle.ranking_table.specs.Ranking.{rows_of, judged_of, answer_of, fault, answer_by, lookup, accepted, AnswersBy};

mod faults;
mod rows;

use faults::{has_bad_row, overlap_or_gap};
use rows::{in_range, priority_in};
use rules::Refusal;

// "a sensor's message interval, 1 to 60,000 milliseconds"
pub const LONGEST: u16 = 60000;

// "first, last, priority": "first and last inclusive"
#[derive(Clone, Copy, Debug, Default, PartialEq, Eq)]
pub struct Row {
    pub first: u16,
    pub last: u16,
    pub priority: u8,
}

// "up to 64 rows in any order": an array and a count, since memory is fixed, with room for more, so that more can be refused.
#[derive(Clone, Copy)]
pub struct Table {
    pub rows: [Row; Table::ROOM],
    pub count: usize,
}

impl Table {
    pub const ROOM: usize = 255;

    pub const MOST: usize = 64;

    // The rows in use: never more than there is room for.
    fn rows(&self) -> &[Row]
        ensures { result.now ≡ rows_of self.now }
    {
        &self.rows[..self.count.min(Table::ROOM)]
    }
}

// Why a lookup is refused, and the interval that it hands back.
#[derive(Clone, Copy, Debug, PartialEq, Eq)]
pub struct Refused {
    pub refusal: Refusal,
    pub interval: u16,
}

impl Refused {
    // "with 23, for a row or for the interval looked up, the interval handed back is 0"
    const BAD_ROW: Refused = Refused {
        refusal: Refusal::BadRow,
        interval: 0,
    };
}

// What is wrong with a table.
#[tactic(auto, using(crate::proofs::Judging::many_fault, crate::proofs::Judging::row_fault))]
pub fn judge(table: &Table) -> Result<(), Refused>
    ensures { judged_of result ≡ fault (rows_of table.now) }
{
    let rows = table.rows();
    if Table::MOST < rows.len() || has_bad_row(rows) {
        return Err(Refused::BAD_ROW);
    }
    overlap_or_gap(rows)
}

// What a table without a fault answers.
fn find(table: &Table, interval: u16) -> Result<u8, Refused>
    ensures { answer_of result ≡ answer_by (accepted 0) (rows_of table.now) interval }
{
    if !in_range(interval) {
        return Err(Refused::BAD_ROW);
    }
    Ok(priority_in(table.rows(), interval))
}

// What a table that was judged so answers: for several intervals it is judged once. Whatever refused it is handed on.
pub fn answer_by<E: From<Refused>>(
    judged: Result<(), E>,
    table: &Table,
    interval: u16,
) -> Result<u8, E>
    ensures { AnswersBy E.From.from_gives judged (rows_of table.now) interval result }
{
    judged?;
    Ok(find(table, interval)?)
}

// "A lookup first refuses a bad table with that table's number, then an interval outside 1 to 60,000 with 23."
#[tactic(auto, unfolding(crate::specs::Ranking::lookup))]
pub fn lookup(table: &Table, interval: u16) -> Result<u8, Refused>
    ensures { answer_of result ≡ lookup (rows_of table.now) interval }
{
    answer_by(judge(table), table, interval)
}
