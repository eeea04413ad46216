#![tactic(auto)]
// Prints the events of the file on standard input, one a line in words.
use list_writer::{ROOM, file_input, write_text};
use streams::Streams;

fn main(rt: HostRuntime) {
    let _ = Streams::standard(rt).run(
        "file_to_list",
        &mut file_input(),
        &mut [0; ROOM],
        write_text,
    );
}
