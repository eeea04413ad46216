// The live timeslices in turn order as numbers, for all the searches of one choice: a search through an array of numbers is compiled to
// vector instructions, where a search along the neighbours is not.
ghost use Rattle.std.specs.Prelude.{ℕ, ◌≡◌, ◌≤◌, ◌<◌, get_or};
ghost use Rattle.tables.specs.Sets.{sought_of};
ghost use Rattle.tables.specs.Turning.{entries_of};
ghost use Rattle.neighbours.specs.Reading.{turns_read};
ghost use Rattle.timeslices.specs.Codes.{code_of, height_of, turn_of, weight as weight_of, highest as highest_of};
ghost use Rattle.timeslices.specs.Codes.{top_in, code_at, height_at, parked_code, released_code, Entered, Recoded, ReleasedCodes};

use neighbours::sides::neighbour_at;
use rules::{Place, Timeslice};
use tables::lookup::entry_or;
use tables::numbers::entries;

// A place as one number, different for different places.
pub fn code(place: Place) -> u16
    ensures { result ≡ code_of place }
{
    match place {
        Place::Queue => 0,
        Place::Behind(t) => 1 + 8 * u16::from(t),
        Place::On(n) => 2 + 8 * u16::from(n),
        Place::Stalled => 3,
        Place::Spent => 4,
    }
}

// Larger for a timeslice that stands higher: by its priority, and among equals by the earlier entry of the turn order. Never 0.
pub(crate) fn height(priority: u8, i: usize) -> u16
    requires { i ≤ 128 }
    ensures { result ≡ height_of priority i }
{
    u16::from(priority) * 128 + (128 - i) as u16
}

// The entry of the turn order that has this height.
pub(crate) fn turn(height: u16) -> usize
    requires { 0 < height }
    ensures value { result ≡ turn_of height }
    ensures within { result < 128 }
{
    127 - usize::from((height - 1) % 128)
}

// The turn order is laid out beside the numbers: the entry of the highest number says which timeslice has it.
pub fn fill<'a>(
    order: &'a mut [u8; 128],
    codes: &'a mut [u16; 128],
    heights: &'a mut [u16; 128],
    timeslices: [Timeslice; 128],
    after: &'a [u8; 129],
    live: u8,
)
    ensures ordered { Entered (λ i. get_or (turns_read after.now live) i 0) live order.old order.new }
    ensures coded { Entered (code_at timeslices (turns_read after.now live)) live
        codes.old codes.new }
    ensures measured { Entered (height_at timeslices (turns_read after.now live)) live
        heights.old heights.new }
{
    let mut at: usize = 128;
    for i in 0..entries(live) {
        let t = neighbour_at(after, at);
        at = usize::from(t);
        let x = entry_or(&timeslices, at, Timeslice::FREE);
        order[i] = t;
        codes[i] = code(x.place);
        heights[i] = height(x.priority, i);
    }
}

// A height that is not in the set loses to every other.
pub(crate) fn weight(code: u16, height: u16, set: u16) -> u16
    ensures { result ≡ weight_of code height set }
{
    if code == set { height } else { 0 }
}

// The highest height in a set, 0 where the set is empty.
pub(crate) fn highest(codes: &[u16; 128], heights: &[u16; 128], live: u8, set: u16) -> u16
    ensures { result ≡ highest_of set codes.now heights.now 0 (entries_of live) }
{
    let mut best: u16 = 0;
    for i in 0..entries(live) {
        best = best.max(weight(codes[i], heights[i], set));
    }
    best
}

// The topmost timeslice of the set that has this code.
pub fn top_of(
    codes: &[u16; 128],
    heights: &[u16; 128],
    order: &[u8; 128],
    live: u8,
    set: u16,
) -> Option<u8>
    ensures { sought_of result ≡ top_in set order.now live codes.now heights.now }
{
    let best = highest(codes, heights, live, set);
    if 0 < best {
        Some(order[turn(best)])
    } else {
        None
    }
}

// Every live entry's code is changed by the timeslice at that entry.
pub(crate) fn recode<F: Fn(u16, u8) -> u16>(
    codes: &mut [u16; 128],
    order: &[u8; 128],
    live: u8,
    change: F,
)
    requires { F.IsAlwaysCallable change }
    ensures { (f : ℕ → ℕ → ℕ) → ((t c r : ℕ) → F.post change c t r → r ≡ f t c) → Recoded f order.now live codes.old codes.new }
{
    for i in 0..entries(live) {
        codes[i] = change(codes[i], order[i]);
    }
}

pub fn park_codes(codes: &mut [u16; 128], order: &[u8; 128], live: u8, t: u8, to: u16)
    ensures { Recoded (parked_code t to) order.now live codes.old codes.new }
{
    recode(codes, order, live, |code, u| if u == t { to } else { code });
}

// The topmost one goes to Queue, whose code is 0, the rest of the set go Behind that one.
pub(crate) fn release_codes(
    codes: &mut [u16; 128],
    order: &[u8; 128],
    live: u8,
    set: u16,
    first: u8,
    behind: u16,
)
    ensures { Recoded (released_code set first behind) order.now live codes.old codes.new }
{
    recode(codes, order, live, |code, u| {
        if code == set {
            if u == first { 0 } else { behind }
        } else {
            code
        }
    });
}

// The topmost timeslice of a set. The set's codes are released, and its timeslices are left to the caller, since an empty set changes none.
pub fn release_set(
    codes: &mut [u16; 128],
    heights: &[u16; 128],
    order: &[u8; 128],
    live: u8,
    set: Place,
) -> Option<u8>
    ensures topmost { sought_of result ≡ top_in (code_of set) order.now live codes.old heights.now }
    ensures released { ReleasedCodes set order.now live codes.old codes.new result }
{
    let c = code(set);
    let q = top_of(codes, heights, order, live, c)?;
    release_codes(codes, order, live, c, q, code(Place::Behind(q)));
    Some(q)
}
