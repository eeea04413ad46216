// Document 01, "Events", and document 02, [3]: what they do to a turn order that is an array, as the plain engine has it. The array and the
// number of its live entries are two parameters: each function is total for any two, so that a struct of both would have nothing to keep.
ghost use Rattle.std.specs.Prelude.{◌≡◌, ◌<◌, eqb, position, take};
ghost use Rattle.tables.specs.Turning.{entries_of, Shifted, TakenOut, Turned, StruckOut};

use crate::numbers::entries;

// Where a timeslice stands first, if it is listed.
pub(crate) fn position(order: [u8; 128], live: u8, t: u8) -> Option<usize>
    ensures { result ≡ position (λ u. eqb u t) (take (entries_of live) order) }
{
    order[..entries(live)].iter().position(|u| *u == t)
}

// The entries after this one move up, and `last` fills the last live one.
pub(crate) fn shifted(mut order: [u8; 128], live: u8, from: usize, last: u8) -> [u8; 128]
    requires { from < entries_of live }
    ensures { Shifted last live order from result }
{
    let n = entries(live);
    order.copy_within(from + 1..n, from);
    order[n - 1] = last;
    order
}

// A listed timeslice is taken out, and `last` fills the last live entry; one that is not listed changes nothing.
pub(crate) fn taken_out(order: [u8; 128], live: u8, t: u8, last: u8) -> [u8; 128]
    ensures { TakenOut t last live order result }
{
    match position(order, live, t) {
        Some(from) => shifted(order, live, from, last),
        None => order,
    }
}

// A timeslice goes to the back of the turn order.
pub fn to_back(order: [u8; 128], live: u8, t: u8) -> [u8; 128]
    ensures { Turned t live order result }
{
    taken_out(order, live, t, t)
}

// A timeslice is struck out of the turn order: the entry that it leaves holds 0, as all free entries do.
pub fn strike_out(order: [u8; 128], live: u8, t: u8) -> [u8; 128]
    ensures { StruckOut t live order result }
{
    taken_out(order, live, t, 0)
}
