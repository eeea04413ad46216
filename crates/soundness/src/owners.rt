// Document 01, "A sound machine": owners are distinct. (That they are live is asked of every timeslice of the turn order.)
ghost use Rattle.std.specs.Prelude.{◌≡◌, take};
ghost use Rattle.rules.specs.Tests.{distinct};
ghost use Rattle.soundness.specs.Parts.{owners_in};

use crate::turn_order::listed_once;
use rules::Timeslice;
use tables::lookup::entry_or;

pub(crate) fn owners_apart(timeslices: [Timeslice; 128], order: [u8; 128], live: u8) -> bool
    ensures { result ≡ distinct (owners_in timeslices (take live order)) }
{
    // Not by `timeslice_at`, which would copy the table for each entry.
    listed_once(
        order.map(|t| entry_or(&timeslices, usize::from(t), Timeslice::FREE).owner),
        live,
    )
}
