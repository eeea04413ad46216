#![tactic(auto)]
// Prints the reason after an event: its number in 4 bytes, and then the event file, on standard input.
use reason_sheet::{ROOM, input, write_reason};
use streams::Streams;

fn main(rt: HostRuntime) {
    let _ = Streams::standard(rt).run("reason", &mut input(), &mut [0; ROOM], write_reason);
}
