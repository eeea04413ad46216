// Timeslices without places: reading and searching them.
ghost use Rattle.std.specs.Prelude.{◌≡◌, take};
ghost use Rattle.rules.specs.State.{slice_at};
ghost use Rattle.rules.specs.Timeslices.{own_of};
ghost use Rattle.rules.specs.Refusals.{is_one};
ghost use Rattle.tables.specs.Sets.{sought_of};

use crate::PlainMachine;
use rules::Slice;
use tables::lookup::entry_or;
use tables::numbers::entries;

pub(crate) fn slice_at(slices: [Slice; 128], t: u8) -> Slice
    ensures { result ≡ slice_at slices t }
{
    entry_or(&slices, usize::from(t), Slice::FREE)
}

impl PlainMachine {
    // A thread's own timeslice.
    pub(crate) fn own(&self, n: u8) -> Option<u8>
        ensures { sought_of result ≡ own_of self.now.slices n (take self.now.live self.now.order) }
    {
        for &t in &self.order[..entries(self.live)] {
            if slice_at(self.slices, t).owner == n {
                return Some(t);
            }
        }
        None
    }

    pub(crate) fn owns_one(&self, n: u8) -> bool
        ensures { result ≡ is_one (own_of self.now.slices n (take self.now.live self.now.order)) }
    {
        self.own(n).is_some()
    }
}
