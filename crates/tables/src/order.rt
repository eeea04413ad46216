// Which timeslices an array of the turn order lists.
ghost use Rattle.std.specs.Prelude.{◌≡◌, take, drop};
ghost use Rattle.rules.specs.Tests.{member as member_of};

use crate::numbers::entries;

// The turn order lists this timeslice, at that entry or later.
pub fn listed_from(order: [u8; 128], live: u8, from: usize, t: u8) -> bool
    ensures { result ≡ member_of t (drop from (take live order)) }
{
    let n = entries(live);
    from < n && order[from..n].contains(&t)
}

pub fn member(order: [u8; 128], live: u8, t: u8) -> bool
    ensures { result ≡ member_of t (take live order) }
{
    listed_from(order, live, 0, t)
}
