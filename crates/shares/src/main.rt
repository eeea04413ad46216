#![tactic(auto)]
// Prints the shares of the event file on standard input.
use shares_sheet::{ROOM, input, write_shares};
use streams::Streams;

fn main(rt: HostRuntime) {
    let _ = Streams::standard(rt).run("shares", &mut input(), &mut [0; ROOM], write_shares);
}
