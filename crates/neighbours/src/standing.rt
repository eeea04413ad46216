// Document 01: "Of two timeslices the higher priority stands above; among equals, the earlier in turn order."
ghost use Rattle.std.specs.Prelude.{◌≡◌, ◌&&◌, ◌||◌, ltb, eqb};
ghost use Rattle.rules.specs.Order.{earlier as earlier_of};
ghost use Rattle.neighbours.specs.Reading.{turns_read};

use crate::sides::neighbour_at;
use tables::numbers::entries;

// One comes before the other in turn order.
pub(crate) fn earlier(after: &[u8; 129], live: u8, a: u8, b: u8) -> bool
    ensures { result ≡ earlier_of (turns_read after.now live) a b }
{
    let mut at: usize = 128;
    for _ in 0..entries(live) {
        let t = neighbour_at(after, at);
        if t == b {
            return false;
        }
        if t == a {
            return true;
        }
        at = usize::from(t);
    }
    false
}

// Of two timeslices with these priorities.
pub fn stands_above(after: &[u8; 129], live: u8, a: u8, high: u8, b: u8, low: u8) -> bool
    ensures { result ≡ (ltb low high || eqb high low && earlier_of (turns_read after.now live) a b) }
{
    low < high || high == low && earlier(after, live, a, b)
}
