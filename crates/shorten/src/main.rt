#![tactic(auto)]
// Shortens a question: a refusal number in one byte, and then an event file, on standard input; the shorter file on standard output.
use shorten_sheet::{ROOM, input, write_shorter};
use streams::Streams;

fn main(rt: HostRuntime) {
    let _ = Streams::standard(rt).run("shorten", &mut input(), &mut [0; ROOM], write_shorter);
}
