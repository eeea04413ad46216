// "a byte n; n rows of 5 bytes: first (2), last (2), priority (1), big-endian; the rest are intervals of 2 bytes"
ghost use Rattle.std.specs.Prelude.{◌≤◌, ◌≡◌, length, get_or};
ghost use Rattle.rules.specs.RefusalNumbers.{number_in};
ghost use Rattle.ranking_table.specs.Ranking.{rows_of};
ghost use Rattle.ranking_sheet.specs.Sheet.{word_at, row_from, rows_from, intervals_at, input_refusal};

use event_file::byte_at;
use ranking_table::{Row, Table};
use rules::Refusal;

// The number of two bytes.
pub(crate) fn word_at(input: &[u8], at: usize) -> u16
    requires { at ≤ 65536 }
    ensures { result ≡ word_at input.now at }
{
    u16::from_be_bytes([byte_at(input, at), byte_at(input, at + 1)])
}

// The row of five bytes.
fn row_from(input: &[u8], at: usize) -> Row
    requires { at ≤ 65530 }
    ensures { result ≡ row_from input.now at }
{
    Row {
        first: word_at(input, at),
        last: word_at(input, at + 2),
        priority: byte_at(input, at + 4),
    }
}

// Where the intervals begin.
pub(crate) fn intervals_at(input: &[u8]) -> usize
    ensures { result ≡ intervals_at input.now }
{
    1 + 5 * usize::from(byte_at(input, 0))
}

#[tactic(auto, unfolding(crate::specs::Sheet::input_refusal))]
pub(crate) fn check_input(input: &[u8]) -> Result<(), Refusal>
    ensures { number_in result ≡ input_refusal input.now }
{
    let length = input.len();
    let at = intervals_at(input);
    if 65536 < length || length < at || (length - at) % 2 == 1 {
        return Err(Refusal::BadLength);
    }
    Ok(())
}

// One row after the other.
pub(crate) fn read_table(input: &[u8]) -> Table
    ensures { rows_of result ≡ rows_from input.now 1 (get_or input.now 0 0) }
{
    let count = usize::from(byte_at(input, 0));
    let mut rows = [Row::default(); Table::ROOM];
    for k in 0..count {
        rows[k] = row_from(input, 1 + 5 * k);
    }
    Table { rows, count }
}
