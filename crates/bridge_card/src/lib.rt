#![tactic(auto)]
// Document 02, [9]: the interrupt lines of the bridge card, a register block of 12 lent bytes. What the four operations answer, and what
// they leave in the block and in the machine, is defined in specs/Card.antt, for blocks of every length.
ghost use Rattle.std.specs.Prelude.{◌≡◌};
ghost use Rattle.rules.specs.RefusalNumbers.{number_in};
ghost use Rattle.dispatcher.specs.Promise.{answered};
ghost use Rattle.bridge_card.specs.Card.{read, write, raise};
ghost use Rattle.bridge_card.specs.Promises.{reading_of, Polls};

mod bytes;
mod lines;
mod refusals;

use bytes::{with_bit, without_bit, without_bits};
use dispatcher::{Answered, Machine};
use lines::{line_to_take, thread_of};
use refusals::{check, is_not_written};
use rules::Refusal;

// "byte 3 reads 0", whatever is stored there.
#[tactic(auto, using(crate::proofs::Answering::read_refused, crate::proofs::Answering::read_done))]
pub fn read_register(block: &[u8], register: u8) -> Result<u8, Refusal>
    ensures { reading_of result ≡ read block.now register }
{
    check(block, 11 < register)?;
    if register == 3 {
        return Ok(0);
    }
    Ok(block[usize::from(register)])
}

// "Writing a 1 to a pending bit clears it."
#[tactic(auto, using(crate::proofs::Answering::write_refused, crate::proofs::Answering::write_done))]
pub fn write_register(block: &mut [u8], register: u8, byte: u8) -> Result<(), Refusal>
    ensures { record { refusal = number_in result; block = block.new } ≡ write block.old register byte }
{
    check(block, is_not_written(register))?;
    if register == 1 {
        block[1] = without_bits(block[1], byte);
        return Ok(());
    }
    block[usize::from(register)] = byte;
    Ok(())
}

// "Raising a line sets its bit."
#[tactic(auto, using(crate::proofs::Answering::raise_refused, crate::proofs::Answering::raise_done))]
pub fn raise_line(block: &mut [u8], line: u8) -> Result<(), Refusal>
    ensures { record { refusal = number_in result; block = block.new } ≡ raise block.old line }
{
    check(block, 7 < line)?;
    block[1] = with_bit(block[1], line);
    Ok(())
}

// "A poll takes the lowest line that is pending and enabled, with the card on, clears its bit and wakes its thread." The wake's answer
// comes back, with the machine; "if the wake is refused .. the block is unchanged".
pub fn poll(block: &mut [u8], machine: Machine) -> Answered
    ensures { Polls block.old machine block.new (answered result.machine result.answer) }
{
    if let Err(refusal) = check(block, false) {
        return Answered {
            machine,
            answer: Err(refusal),
        };
    }
    let Some(line) = line_to_take(block) else {
        return Answered {
            machine,
            answer: Err(Refusal::NoLine),
        };
    };
    let woken = machine.wake(thread_of(block, line));
    if woken.answer.is_ok() {
        block[1] = without_bit(block[1], line);
    }
    woken
}
