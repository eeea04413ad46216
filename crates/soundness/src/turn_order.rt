// Document 01, "A sound machine": "Turn order holds exactly the live timeslices, once each."
ghost use Rattle.std.specs.Prelude.{◌≡◌, take};
ghost use Rattle.rules.specs.Tests.{distinct};

use tables::numbers::entries;
use tables::order::listed_from;

pub fn listed_once(order: [u8; 128], live: u8) -> bool
    ensures { result ≡ distinct (take live order) }
{
    for i in 0..entries(live) {
        if listed_from(order, live, i + 1, order[i]) {
            return false;
        }
    }
    true
}
