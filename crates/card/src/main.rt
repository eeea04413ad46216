#![tactic(auto)]
// Commands to the bridge card: a block, commands and an event file on standard input, what they do on standard output.
use card_sheet::{ROOM, input, write_card};
use streams::Streams;

fn main(rt: HostRuntime) {
    let _ = Streams::standard(rt).run("card", &mut input(), &mut [0; ROOM], write_card);
}
