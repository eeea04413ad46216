// Document 02, [8]: "Neighbours that form no such list make the machine unsound."
ghost use Rattle.std.specs.Prelude.{◌≡◌, ◌&&◌, eqb};
ghost use Rattle.neighbours.specs.Sides.{sides, sentinel, unlisted, neighbour as neighbour_of};
ghost use Rattle.neighbours.specs.Forming.{leads_back};

use crate::sides::neighbour;

// After so many timeslices comes the list's own entry, and before each stands the one that led to it.
pub fn leads_back<'a>(before: &'a [u8; 129], after: &'a [u8; 129], live: u8) -> bool
    ensures { result ≡ leads_back live (sides before.now after.now) sentinel }
{
    let mut at: u8 = 128;
    for _ in 0..live {
        let t = neighbour(after, at);
        if 127 < t || neighbour(before, t) != at {
            return false;
        }
        at = t;
    }
    neighbour(after, at) == 128 && neighbour(before, 128) == at
}

// What stands in the entries of a timeslice that is not listed.
pub fn entries_free<'a>(before: &'a [u8; 129], after: &'a [u8; 129], t: u8) -> bool
    ensures { result ≡ (eqb (neighbour_of before.now t) unlisted && eqb (neighbour_of after.now t) unlisted) }
{
    neighbour(before, t) == 255 && neighbour(after, t) == 255
}
