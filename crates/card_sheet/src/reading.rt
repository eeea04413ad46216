// "a byte n; n bytes, the block; a byte k; k commands of 3 bytes, op a b; the rest is an event file"
ghost use Rattle.std.specs.Prelude.{◌+◌, ◌≤◌, ◌≡◌, ◌++◌, length, drop};
ghost use Rattle.rules.specs.RefusalNumbers.{number_in};
ghost use Rattle.card_sheet.specs.Sheet.{count_at, command_count, command_from, file_at, input_refusal, block_in};

use crate::Command;
use event_file::byte_at;
use replay::check_behind;
use rules::Refusal;
use text::put_bytes;

// Where the byte k stands.
pub(crate) fn count_at(input: &[u8]) -> usize
    ensures { result ≡ count_at input.now }
{
    usize::from(byte_at(input, 0)) + 1
}

pub(crate) fn command_count(input: &[u8]) -> u8
    ensures { result ≡ command_count input.now }
{
    byte_at(input, count_at(input))
}

pub(crate) fn file_at(input: &[u8]) -> usize
    ensures { result ≡ file_at input.now }
{
    count_at(input) + 1 + 3 * usize::from(command_count(input))
}

pub(crate) fn command_from(input: &[u8], at: usize) -> Command
    requires { at ≤ 65536 }
    ensures { result ≡ command_from input.now at }
{
    Command {
        op: byte_at(input, at),
        a: byte_at(input, at + 1),
        b: byte_at(input, at + 2),
    }
}

pub(crate) fn check_input(input: &[u8]) -> Result<(), Refusal>
    ensures { number_in result ≡ input_refusal input.now }
{
    check_behind(input, file_at(input))
}

// The block's bytes, at the front of a buffer with room for the largest.
pub(crate) fn copy_block(input: &[u8], store: &mut [u8]) -> usize
    requires { (input_refusal input.now ≡ 0) × (255 ≤ length store.old) }
    ensures { (result ≡ length (block_in input.now))
        × (store.new ≡ block_in input.now ++ drop (length (block_in input.now)) store.old) }
{
    put_bytes(store, 0, &input[1..count_at(input)])
}
