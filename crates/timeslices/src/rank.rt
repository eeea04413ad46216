// Document 02, [4]: what a rank does to the timeslices.
ghost use Rattle.std.specs.Prelude.{◌≡◌, map};
ghost use Rattle.rules.specs.State.{place_at};
ghost use Rattle.tables.specs.Timeslices.{slice_of, place_of, set_priority};
ghost use Rattle.neighbours.specs.Reading.{turns_read};
ghost use Rattle.timeslices.specs.Releasing.{detached_places, Replaced};

use crate::release::release;
use rules::{Place, Timeslice};
use tables::lookup::{timeslice_at, with_entry};

#[tactic(auto, unfolding(tables::specs::Timeslices::set_priority))]
pub fn with_priority(timeslices: [Timeslice; 128], t: u8, priority: u8) -> [Timeslice; 128]
    ensures { result ≡ set_priority t priority timeslices }
{
    let x = timeslice_at(timeslices, t);
    with_entry(timeslices, t, Timeslice { priority, ..x })
}

// Nobody stands Behind the timeslice any more, and it stands Behind nobody.
pub fn detached(
    timeslices: [Timeslice; 128],
    after: &[u8; 129],
    live: u8,
    t: u8,
) -> [Timeslice; 128]
    ensures { Replaced timeslices
        (detached_places t (map slice_of timeslices) (turns_read after.now live) (map place_of timeslices)
        (place_at (map place_of timeslices) t)) result }
{
    let x = timeslice_at(timeslices, t);
    match x.place {
        Place::Queue => release(timeslices, after, live, Place::Behind(t)),
        Place::Behind(_) => {
            let y = Timeslice {
                place: Place::Queue,
                ..x
            };
            with_entry(timeslices, t, y)
        }
        Place::On(_) | Place::Stalled | Place::Spent => timeslices,
    }
}
