#![tactic(auto)]
// Prints the plain machine's key of the event file on standard input.
use plain_sheet::{ROOM, input, write_plain_key};
use streams::Streams;

fn main(rt: HostRuntime) {
    let _ = Streams::standard(rt).run("plain_key", &mut input(), &mut [0; ROOM], write_plain_key);
}
