#![tactic(auto)]
// Writes the event file of the list in words on standard input. What is wrong with the list goes to standard error.
ghost use Rattle.std.specs.Prelude.{◌≡◌, ◌≤◌, length};
ghost use Rattle.list_text.specs.Answers.{filed_as, buffer_as};
ghost use Rattle.list_text.specs.Reading.{read_text};

use list_text::{MOST, SENTENCE, list_input, write_sentence};
use std::io::Stderr;
use streams::Streams;

// Writes the list's file; of a list with a fault nothing, and the sentence of the fault goes to standard error.
fn write_file(mut errors: Stderr, list: &[u8], out: &mut [u8; MOST]) -> usize
    ensures file { (result ≡ (filed_as (read_text list.now)).bytes) × (out.new ≡ buffer_as (read_text list.now) out.old) }
    ensures within { result ≤ length out.new }
{
    match list_text::write_file(list, out) {
        Ok(bytes) => bytes,
        Err(wrong) => {
            let mut sentence = [0; SENTENCE];
            let end = write_sentence(&mut sentence, wrong.line, u8::from(wrong.fault));
            let _ = streams::send(&mut errors, &sentence[..end]);
            0
        }
    }
}

fn main(rt: HostRuntime) {
    let write = |list: &[u8], out: &mut [u8; MOST]|
        ensures { result ≤ length out.new }
    { write_file(rt.stderr(), list, out) };
    let _ = Streams::standard(rt).run("list_to_file", &mut list_input(), &mut [0; MOST], write);
}
