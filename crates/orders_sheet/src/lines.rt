// "Each command prints a key line".
ghost use Rattle.std.specs.Prelude.{◌≡◌};
ghost use Rattle.text.specs.Put.{Put};
ghost use Rattle.orders_sheet.specs.Sheet.{input_refusal, file_in, commands_in, at_first, command_lines};

use crate::commands::obey;
use crate::reading::command_from;
use abort_orders::Store;
use dispatcher::Machine;
use event_file::byte_at;
use rules::Refusal;
use text::put_key_line;

// One command after the other; store, machine and the place in the file go from each to the next.
pub(crate) fn put_commands(out: &mut [u8], input: &[u8], file: &[u8]) -> usize
    requires { (input_refusal input.now ≡ 0) × (file.now ≡ file_in input.now) }
    ensures { Put out.old out.new 0 result
        (command_lines 1 (commands_in input.now) (at_first input.now)) }
{
    let mut store = Store::empty();
    let mut machine = Machine::empty();
    let mut offset = 5;
    let mut place = 1;
    let mut at = 0;
    for number in 1..=u64::from(byte_at(input, 0)) {
        let command = command_from(input, place);
        let done = obey(command, &mut store, file, offset, machine);
        machine = done.machine;
        at = put_key_line(
            out,
            at,
            number,
            Refusal::number_in(done.answer),
            machine.running,
            done.answer.unwrap_or(0),
        );
        offset = done.offset;
        place += 6;
    }
    at
}
