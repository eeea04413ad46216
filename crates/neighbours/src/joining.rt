// The changes of the turn order: each touches a few entries and moves none. The sides are two fields of the stored machine, each lent by
// itself: a struct of both would be a second layout to keep in step.
ghost use Rattle.std.specs.Prelude.{◌≡◌, ◌&&◌, not, ltb};
ghost use Rattle.rules.specs.Tests.{member};
ghost use Rattle.rules.specs.State.{limit};
ghost use Rattle.rules.specs.Timeslices.{last, without, to_back};
ghost use Rattle.neighbours.specs.Sides.{sides};
ghost use Rattle.neighbours.specs.Joining.{joined, appended, passed_over, struck_out, moved_back};
ghost use Rattle.neighbours.specs.Forming.{Changes};

use crate::sides::{neighbour, put};

// The second comes after the first.
pub(crate) fn join<'a>(before: &'a mut [u8; 129], after: &'a mut [u8; 129], a: u8, b: u8)
    ensures { sides before.new after.new
        ≡ joined a b (sides before.old after.old) }
{
    put(after, a, b);
    put(before, b, a);
}

// A timeslice that is not listed goes last.
pub fn append<'a>(before: &'a mut [u8; 129], after: &'a mut [u8; 129], t: u8)
    ensures entries { sides before.new after.new
        ≡ appended t (sides before.old after.old) }
    ensures turned { Changes (λ order. ltb t limit && not (member t order)) (last t)
        (sides before.old after.old) (sides before.new after.new) }
{
    let back = before[128];
    join(before, after, back, t);
    join(before, after, t, 128);
}

// The neighbours of a timeslice are joined.
#[tactic(auto, unfolding(crate::specs::Joining::passed_over))]
pub(crate) fn pass_over<'a>(before: &'a mut [u8; 129], after: &'a mut [u8; 129], t: u8)
    ensures { sides before.new after.new
        ≡ passed_over t (sides before.old after.old) }
{
    let a = neighbour(before, t);
    let b = neighbour(after, t);
    join(before, after, a, b);
}

// A listed timeslice leaves the turn order, and its entries are free.
pub fn strike_out<'a>(before: &'a mut [u8; 129], after: &'a mut [u8; 129], t: u8)
    ensures entries { sides before.new after.new
        ≡ struck_out t (sides before.old after.old) }
    ensures turned { Changes (member t) (without t) (sides before.old after.old)
        (sides before.new after.new) }
{
    pass_over(before, after, t);
    put(before, t, 255);
    put(after, t, 255);
}

// A listed timeslice goes to the back of the turn order.
pub fn move_back<'a>(before: &'a mut [u8; 129], after: &'a mut [u8; 129], t: u8)
    ensures entries { sides before.new after.new
        ≡ moved_back t (sides before.old after.old) }
    ensures turned { Changes (member t) (to_back t) (sides before.old after.old)
        (sides before.new after.new) }
{
    pass_over(before, after, t);
    append(before, after, t);
}
