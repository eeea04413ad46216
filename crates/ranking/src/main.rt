#![tactic(auto)]
// Looks up intervals in a ranking table: both on standard input, the answers on standard output.
use ranking_sheet::{ROOM, input, write_ranking};
use streams::Streams;

fn main(rt: HostRuntime) {
    let _ = Streams::standard(rt).run("ranking", &mut input(), &mut [0; ROOM], write_ranking);
}
