// Document 01, "A sound machine", without the places: slots_good goes once through the slots and turns_good once along the turn order,
// and each asks every clause there.
ghost use Rattle.std.specs.Prelude.{◌≡◌, take};
ghost use Rattle.rules.specs.Tests.{all, below, distinct};
ghost use Rattle.rules.specs.State.{limit};
ghost use Rattle.rules.specs.Sound.{shaped};
ghost use Rattle.plain_engine.specs.Shown.{plain_shown};
ghost use Rattle.plain_engine.specs.Shape.{slot_test, turn_test, owners_in};

use crate::PlainMachine;
use crate::slices::slice_at;
use rules::Slice;
use soundness::each_number::thread_good;
use soundness::ranges::in_range;
use soundness::turn_order::listed_once;
use tables::lookup::thread_at;
use tables::numbers::entries;
use tables::order::member;

impl PlainMachine {
    // The clauses about the thread and the timeslice's slot of this number. "Free slots hold one fixed value." (The stored machine's of the
    // same name asks places and neighbours too: one function for both would take the clauses as a parameter, and be no shorter.)
    pub(crate) fn slot_good(&self, n: u8) -> bool
        ensures { result ≡ slot_test self.now.threads self.now.slices (take self.now.live self.now.order) n }
    {
        thread_good(self.threads, n)
            && (member(self.order, self.live, n) || slice_at(self.slices, n) == Slice::FREE)
    }

    pub(crate) fn slots_good(&self) -> bool
        ensures { result ≡ below limit (λ n. slot_test self.now.threads self.now.slices (take self.now.live self.now.order) n) }
    {
        (0..128).all(|n| self.slot_good(n))
    }

    // The clauses about a timeslice of the turn order: its number, its owner and its ranges.
    pub(crate) fn turn_good(&self, t: u8) -> bool
        ensures { result ≡ turn_test self.now.threads self.now.slices t }
    {
        let x = slice_at(self.slices, t);
        t < 128 && thread_at(self.threads, x.owner).live && in_range(x)
    }

    pub(crate) fn turns_good(&self) -> bool
        ensures { result ≡ all (λ t. turn_test self.now.threads self.now.slices t) (take self.now.live self.now.order) }
    {
        for &t in &self.order[..entries(self.live)] {
            if !self.turn_good(t) {
                return false;
            }
        }
        true
    }

    // Owners are distinct. (That they are live is asked of every timeslice of the turn order.)
    pub(crate) fn owners_apart(&self) -> bool
        ensures { result ≡ distinct (owners_in self.now.slices (take self.now.live self.now.order)) }
    {
        let owners = self.order.map(|t| slice_at(self.slices, t).owner);
        listed_once(owners, self.live)
    }

    // What soundness says of a machine without its places. The tables are full by their types.
    #[tactic(auto, using(crate::proofs::Whole::whole_of))]
    pub fn is_shaped(&self) -> bool
        ensures { result ≡ shaped (plain_shown self.now) }
    {
        self.slots_good()
            && self.turns_good()
            && listed_once(self.order, self.live)
            && self.owners_apart()
    }
}
