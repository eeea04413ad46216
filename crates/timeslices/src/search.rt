// The searches along the turn order: for the topmost timeslice of a set, and for the timeslice of an owner.
ghost use Rattle.std.specs.Prelude.{◌≡◌, map, cond, length, eqb, Some};
ghost use Rattle.rules.specs.Tests.{filter};
ghost use Rattle.rules.specs.Timeslices.{own_of};
ghost use Rattle.rules.specs.Refusals.{is_one};
ghost use Rattle.tables.specs.Timeslices.{slice_of};
ghost use Rattle.tables.specs.Sets.{sought_of};
ghost use Rattle.neighbours.specs.Reading.{turns_read};
ghost use Rattle.timeslices.specs.Searching.{takes, topmost_in, members_of, joined as joined_of, ended as ended_of};

use crate::heights::code;
use neighbours::sides::{neighbour, neighbour_at};
use rules::{Place, Timeslice};
use tables::lookup::entry_or;
use tables::numbers::entries;

// Which timeslices of the turn order are in a set: none, one, or several with this topmost one. Three cases, and so no `Option`.
#[derive(Clone, Copy, Debug, PartialEq, Eq)]
pub enum Members {
    None,
    One(u8),
    Several(u8),
}

// The topmost member so far with its priority, and whether it has others.
#[derive(Clone, Copy)]
pub(crate) struct Found {
    pub best: u8,
    pub priority: u8,
    pub several: bool,
}

// One more member, later in turn order: it stands above only if its priority is higher.
#[tactic(auto, unfolding(crate::specs::Searching::joined))]
pub(crate) fn joined(found: Option<Found>, t: u8, priority: u8) -> Found
    ensures { result ≡ joined_of found t priority }
{
    match found {
        Some(f) if priority <= f.priority => Found { several: true, ..f },
        _ => Found {
            best: t,
            priority,
            several: found.is_some(),
        },
    }
}

// One more timeslice, whose place has this code.
pub(crate) fn seen(found: Option<Found>, set: u16, code: u16, t: u8, priority: u8) -> Option<Found>
    ensures { result ≡ cond (eqb code set) (Some (joined_of found t priority)) found }
{
    if code == set {
        Some(joined(found, t, priority))
    } else {
        found
    }
}

pub(crate) fn ended(found: Option<Found>) -> Members
    ensures { result ≡ ended_of found }
{
    match found {
        None => Members::None,
        Some(f) if f.several => Members::Several(f.best),
        Some(f) => Members::One(f.best),
    }
}

pub fn members_of(timeslices: [Timeslice; 128], after: &[u8; 129], live: u8, set: Place) -> Members
    ensures { result ≡ members_of (topmost_in set timeslices (turns_read after.now live))
        (length (filter (takes set timeslices) (turns_read after.now live))) }
{
    let c = code(set);
    let mut at: usize = 128;
    let mut found = None;
    for _ in 0..entries(live) {
        let t = neighbour_at(after, at);
        at = usize::from(t);
        let x = entry_or(&timeslices, at, Timeslice::FREE);
        found = seen(found, c, code(x.place), t, x.priority);
    }
    ended(found)
}

// The topmost of the timeslices in a set.
pub fn topmost(timeslices: [Timeslice; 128], after: &[u8; 129], live: u8, set: Place) -> Option<u8>
    ensures { sought_of result ≡ topmost_in set timeslices (turns_read after.now live) }
{
    match members_of(timeslices, after, live, set) {
        Members::None => None,
        Members::One(t) | Members::Several(t) => Some(t),
    }
}

// The timeslice of the turn order that has this owner.
pub fn own(timeslices: [Timeslice; 128], after: &[u8; 129], live: u8, n: u8) -> Option<u8>
    ensures { sought_of result ≡ own_of (map slice_of timeslices) n (turns_read after.now live) }
{
    let mut at: u8 = 128;
    for _ in 0..entries(live) {
        at = neighbour(after, at);
        if entry_or(&timeslices, usize::from(at), Timeslice::FREE).owner == n {
            return Some(at);
        }
    }
    None
}

pub fn owns_one(timeslices: [Timeslice; 128], after: &[u8; 129], live: u8, n: u8) -> bool
    ensures { result ≡ is_one (own_of (map slice_of timeslices) n (turns_read after.now live)) }
{
    own(timeslices, after, live, n).is_some()
}
