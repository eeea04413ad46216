// "a byte k; k commands of 6 bytes: op, thread, order number (4, big-endian); the rest is an event file"
ghost use Rattle.std.specs.Prelude.{◌≤◌, ◌≡◌};
ghost use Rattle.orders_sheet.specs.Sheet.{file_at, number_at, command_from};

use crate::Command;
use event_file::byte_at;

pub(crate) fn file_at(input: &[u8]) -> usize
    ensures { result ≡ file_at input.now }
{
    1 + 6 * usize::from(byte_at(input, 0))
}

fn number_at(input: &[u8], at: usize) -> u32
    requires { at ≤ 65536 }
    ensures { result ≡ number_at input.now at }
{
    u32::from_be_bytes([
        byte_at(input, at),
        byte_at(input, at + 1),
        byte_at(input, at + 2),
        byte_at(input, at + 3),
    ])
}

pub(crate) fn command_from(input: &[u8], at: usize) -> Command
    requires { at ≤ 32768 }
    ensures { result ≡ command_from input.now at }
{
    Command {
        op: byte_at(input, at),
        thread: byte_at(input, at + 1),
        number: number_at(input, at + 2),
    }
}
