// "Each interval prints a line: refusal, priority, interval handed back, single spaces."
ghost use Rattle.std.specs.Prelude.{◌≡◌};
ghost use Rattle.text.specs.Put.{Put};
ghost use Rattle.ranking_table.specs.Ranking.{rows_of, answer_of};
ghost use Rattle.ranking_sheet.specs.Sheet.{input_refusal, intervals_in, answer_line, answer_lines};

use crate::reading::{intervals_at, word_at};
use ranking_table::{Refused, Table, answer_by, judge};
use text::{put_byte, put_column, put_decimal};

fn put_answer(out: &mut [u8], at: usize, answer: Result<u8, Refused>) -> usize
    ensures { Put out.old out.new at result (answer_line (answer_of answer)) }
{
    let (refusal, priority, interval) = match answer {
        Ok(priority) => (0, priority, 0),
        Err(refused) => (u8::from(refused.refusal), 0, refused.interval),
    };
    let second = put_column(out, at, u64::from(refusal));
    let third = put_column(out, second, u64::from(priority));
    let end = put_decimal(out, third, u64::from(interval));
    put_byte(out, end, b'\n')
}

// The table is judged once, and then every interval looked up.
pub(crate) fn put_answers(out: &mut [u8], input: &[u8], table: &Table) -> usize
    requires { input_refusal input.now ≡ 0 }
    ensures { Put out.old out.new 0 result (answer_lines (rows_of table.now) (intervals_in input.now)) }
{
    let judged = judge(table);
    let start = intervals_at(input);
    let mut at = 0;
    for k in 0..(input.len() - start) / 2 {
        let interval = word_at(input, start + 2 * k);
        at = put_answer(out, at, answer_by(judged, table, interval));
    }
    at
}
