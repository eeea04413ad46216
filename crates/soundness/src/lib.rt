#![tactic(auto)]
// Document 01, "A sound machine": the test over the parts of a stored machine. Each clause has its module; each_number goes once through
// the slots and each_turn once along the turn order, and ask every clause there.
ghost use Rattle.std.specs.Prelude.{◌≡◌};
ghost use Rattle.neighbours.specs.Sides.{sides};
ghost use Rattle.soundness.specs.Parts.{sound_parts};

mod calls;
pub mod each_number;
mod each_turn;
mod idles;
mod links;
mod owners;
mod places;
pub mod ranges;
mod running;
pub mod turn_order;

use crate::each_number::numbers_good;
use crate::each_turn::turns_good;
use crate::owners::owners_apart;
use crate::running::is_settled;
use crate::turn_order::listed_once;
use neighbours::forming::leads_back;
use neighbours::reading::laid_out;
use rules::{Running, Thread, Timeslice};
use tables::lives::count_live;

// A true L, neighbours that form a list of T timeslices, and the state shown is sound. The tables and sides are full by their types.
#[tactic(auto, using(crate::proofs::Whole::whole_laid))]
pub fn is_sound(
    threads: [Thread; 128],
    timeslices: [Timeslice; 128],
    before: [u8; 129],
    after: [u8; 129],
    live_threads: u8,
    live: u8,
    running: Running,
) -> bool
    ensures { result ≡ sound_parts threads timeslices (sides before after) live_threads live running }
{
    let order = laid_out(&after, live);
    live_threads == count_live(threads)
        && live <= 128
        && leads_back(&before, &after, live)
        && numbers_good(threads, timeslices, &before, &after, live)
        && turns_good(threads, timeslices, &after, live_threads, live)
        && listed_once(order, live)
        && owners_apart(timeslices, order, live)
        && is_settled(threads, timeslices, &after, live_threads, live, running)
}
