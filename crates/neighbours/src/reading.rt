// The turn order read from the neighbours.
ghost use Rattle.std.specs.Prelude.{◌≡◌};
ghost use Rattle.rules.specs.Tests.{member};
ghost use Rattle.neighbours.specs.Reading.{turns_read, laid_out, is_listed};

use crate::sides::neighbour;
use tables::numbers::entries;

pub fn laid_out(after: &[u8; 129], live: u8) -> [u8; 128]
    ensures { result ≡ laid_out after.now live }
{
    let mut order: [u8; 128] = [0; 128];
    let mut at: u8 = 128;
    for i in 0..entries(live) {
        at = neighbour(after, at);
        order[i] = at;
    }
    order
}

// The turn order lists this timeslice, whatever the neighbours are.
pub fn lists(after: &[u8; 129], live: u8, t: u8) -> bool
    ensures { result ≡ member t (turns_read after.now live) }
{
    let mut at: u8 = 128;
    for _ in 0..entries(live) {
        at = neighbour(after, at);
        if t == at {
            return true;
        }
    }
    false
}

// It has a neighbour.
pub fn is_listed(after: &[u8; 129], t: u8) -> bool
    ensures { result ≡ is_listed after.now t }
{
    neighbour(after, t) != 255
}
