// "Each command prints two lines."
ghost use Rattle.std.specs.Prelude.{◌≡◌, ◌++◌};
ghost use Rattle.rules.specs.Key.{decimal};
ghost use Rattle.text.specs.Put.{Put};
ghost use Rattle.card_sheet.specs.Sheet.{input_refusal, file_in, block_in, commands_in, at_first, block_text, command_lines};

use crate::commands::obey;
use crate::reading::{command_count, command_from, count_at};
use dispatcher::Machine;
use rules::Refusal;
use text::{put_byte, put_decimal, put_key_line};

// "the n bytes of the block, decimal, single spaces", each with its space before it, and the line's end.
fn put_block(out: &mut [u8], at: usize, block: &[u8]) -> usize
    ensures { Put out.old out.new at result (block_text block.now) }
{
    let mut place = at;
    for &byte in block {
        let space = put_byte(out, place, b' ');
        place = put_decimal(out, space, u64::from(byte));
    }
    put_byte(out, place, b'\n')
}

// "Then the byte read (else 0) and the n bytes of the block".
fn put_second(out: &mut [u8], at: usize, byte: u8, block: &[u8]) -> usize
    ensures { Put out.old out.new at result (decimal byte ++ block_text block.now) }
{
    let end = put_decimal(out, at, u64::from(byte));
    put_block(out, end, block)
}

// One command after the other; block, machine and the place in the file go from each to the next.
pub(crate) fn put_commands(out: &mut [u8], input: &[u8], file: &[u8], block: &mut [u8]) -> usize
    requires { (input_refusal input.now ≡ 0) × (file.now ≡ file_in input.now) × (block.old ≡ block_in input.now) }
    ensures { Put out.old out.new 0 result
        (command_lines 1 (commands_in input.now) (at_first input.now)) }
{
    let mut machine = Machine::empty();
    let mut offset = 5;
    let mut place = count_at(input) + 1;
    let mut at = 0;
    for number in 1..=u64::from(command_count(input)) {
        let command = command_from(input, place);
        let done = obey(command, block, file, offset, machine);
        machine = done.machine;
        let second = put_key_line(
            out,
            at,
            number,
            Refusal::number_in(done.answer),
            machine.running,
            done.answer.unwrap_or(0),
        );
        at = put_second(out, second, done.byte, block);
        offset = done.offset;
        place += 3;
    }
    at
}
