#![tactic(auto)]
// Prints the key of the event file on standard input.
use key_sheet::{ROOM, input, write_key};
use streams::Streams;

fn main(rt: HostRuntime) {
    let _ = Streams::standard(rt).run("key", &mut input(), &mut [0; ROOM], write_key);
}
