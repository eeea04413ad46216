// One entry of a side.
ghost use Rattle.std.specs.Prelude.{◌≡◌};
ghost use Rattle.neighbours.specs.Sides.{neighbour as neighbour_of, put as put_of};

use tables::lookup::entry_or;

// Past the list's own entry there is none. A loop that keeps the index of an entry, and not its number, need not widen a byte at each step
// before it can read the next.
#[tactic(auto, using(crate::proofs::Stepping::neighbour_is))]
pub fn neighbour_at(side: &[u8; 129], at: usize) -> u8
    ensures { result ≡ neighbour_of side.now at }
{
    entry_or(side, at, 255)
}

pub fn neighbour(side: &[u8; 129], t: u8) -> u8
    ensures { result ≡ neighbour_of side.now t }
{
    neighbour_at(side, usize::from(t))
}

#[tactic(auto, unfolding(crate::specs::Sides::put))]
pub(crate) fn put(side: &mut [u8; 129], t: u8, u: u8)
    ensures { side.new ≡ put_of side.old t u }
{
    // Not by `get_mut`, whose contract says nothing of what the side becomes.
    let at = usize::from(t);
    if at < 129 {
        side[at] = u;
    }
}
