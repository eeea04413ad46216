// Document 01, "Release and choice": the release.
ghost use Rattle.std.specs.Prelude.{◌≡◌, cond, map, eqb};
ghost use Rattle.rules.specs.declared.Place.TheVariants.{Queue, Behind};
ghost use Rattle.rules.specs.Release.{released_places};
ghost use Rattle.tables.specs.Timeslices.{with_place, slice_of, place_of};
ghost use Rattle.tables.specs.Sets.{set_of};
ghost use Rattle.neighbours.specs.Reading.{turns_read};
ghost use Rattle.timeslices.specs.Releasing.{places_after, Replaced};

use crate::search::{Members, members_of};
use neighbours::sides::neighbour_at;
use rules::{Place, Timeslice};
use tables::lookup::{timeslice_at, with_entry};
use tables::numbers::entries;

// The topmost one of a released set goes to Queue, the rest go Behind that one.
pub fn released_one(x: Timeslice, t: u8, first: u8) -> Timeslice
    ensures { result ≡ with_place (cond (eqb t first) Queue (Behind first)) x }
{
    let place = if t == first {
        Place::Queue
    } else {
        Place::Behind(first)
    };
    Timeslice { place, ..x }
}

pub fn released(
    mut timeslices: [Timeslice; 128],
    after: &[u8; 129],
    live: u8,
    set: Place,
    first: u8,
) -> [Timeslice; 128]
    ensures { Replaced timeslices
        (released_places (set_of set) first (turns_read after.now live) (map place_of timeslices)) result }
{
    let mut at: usize = 128;
    for _ in 0..entries(live) {
        let t = neighbour_at(after, at);
        at = usize::from(t);
        if at < 128 && timeslices[at].place == set {
            timeslices[at] = released_one(timeslices[at], t, first);
        }
    }
    timeslices
}

// An empty set changes nothing, and of a set of one nobody goes Behind another.
pub fn release(
    timeslices: [Timeslice; 128],
    after: &[u8; 129],
    live: u8,
    set: Place,
) -> [Timeslice; 128]
    ensures { Replaced timeslices
        (places_after (set_of set) (map slice_of timeslices) (turns_read after.now live) (map place_of timeslices)) result }
{
    match members_of(timeslices, after, live, set) {
        Members::None => timeslices,
        Members::One(q) => {
            let x = timeslice_at(timeslices, q);
            let y = Timeslice {
                place: Place::Queue,
                ..x
            };
            with_entry(timeslices, q, y)
        }
        Members::Several(q) => released(timeslices, after, live, set, q),
    }
}
