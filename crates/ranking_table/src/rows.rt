// What the rows of a table say of one interval.
ghost use Rattle.std.specs.Prelude.{◌≡◌};
ghost use Rattle.ranking_table.specs.Ranking.{in_range, bad_row, holds, holding, priority_in};

use crate::{LONGEST, Row};

// "1 to 60,000"
pub(crate) fn in_range(i: u16) -> bool
    ensures { result ≡ in_range i }
{
    (1..=LONGEST).contains(&i)
}

impl Row {
    // "outside the range or with first above last"
    pub(crate) fn is_bad(&self) -> bool
        ensures { result ≡ bad_row self.now }
    {
        !in_range(self.first) || !in_range(self.last) || self.last < self.first
    }

    // "first and last inclusive"
    pub(crate) fn holds(&self, i: u16) -> bool
        ensures { result ≡ holds i self.now }
    {
        (self.first..=self.last).contains(&i)
    }
}

// How many rows hold an interval.
pub(crate) fn count_holding(rows: &[Row], i: u16) -> usize
    ensures { result ≡ holding rows.now i }
{
    rows.iter().filter(|row| row.holds(i)).count()
}

// "the priority of the row that holds its interval"; 0 where none does.
pub(crate) fn priority_in(rows: &[Row], i: u16) -> u8
    ensures { result ≡ priority_in rows.now i }
{
    rows.iter()
        .find(|row| row.holds(i))
        .map_or(0, |row| row.priority)
}
