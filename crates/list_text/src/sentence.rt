// The sentence of a fault.
ghost use Rattle.text.specs.Put.{Put};
ghost use Rattle.list_text.specs.Answers.{fault_words, sentence};

use text::{put_byte, put_bytes, put_decimal};

// By its number, whatever that is: the seven faults alone would ask more of callers.
#[tactic(auto, unfolding(crate::specs::Answers::fault_words, rules::specs::Key::bytes))]
fn put_fault(out: &mut [u8], at: usize, fault: u8) -> usize
    ensures { Put out.old out.new at result (fault_words fault) }
{
    match fault {
        1 => put_bytes(out, at, b"no such event"),
        2 => put_bytes(out, at, b"a number is missing"),
        3 => put_bytes(out, at, b"one too many"),
        4 => put_bytes(out, at, b"above 255"),
        5 => put_bytes(out, at, b"above 65,535"),
        6 => put_bytes(out, at, b"neither client nor server"),
        7 => put_bytes(out, at, b"too long"),
        _ => put_bytes(out, at, b"nothing is wrong"),
    }
}

// The line's number, what is wrong with it, a line feed.
pub fn put_sentence(out: &mut [u8], at: usize, line: usize, fault: u8) -> usize
    ensures { Put out.old out.new at result (sentence line fault) }
{
    let number = put_bytes(out, at, b"line ");
    let colon = put_decimal(out, number, line as u64);
    let what = put_bytes(out, colon, b": ");
    let end = put_fault(out, what, fault);
    put_byte(out, end, b'\n')
}
