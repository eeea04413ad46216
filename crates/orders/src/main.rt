#![tactic(auto)]
// Abort orders: commands and an event file on standard input, what the commands do on standard output.
use orders_sheet::{ROOM, input, write_orders};
use streams::Streams;

fn main(rt: HostRuntime) {
    let _ = Streams::standard(rt).run("orders", &mut input(), &mut [0; ROOM], write_orders);
}
