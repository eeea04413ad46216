// What stands in a table at a number; past the end the free value ("Free slots hold one fixed value"), and nothing is stored there.
ghost use Rattle.std.specs.Prelude.{◌≡◌, get_or, set};
ghost use Rattle.rules.specs.State.{thread_at};
ghost use Rattle.tables.specs.Timeslices.{free_timeslice};

use rules::{Thread, Timeslice};

pub fn entry_or<T: Copy>(table: &[T], at: usize, free: T) -> T
    ensures { result ≡ get_or table.now at free }
{
    table.get(at).copied().unwrap_or(free)
}

#[tactic(auto, using(std::proofs::lemmas::List::set_past))]
pub fn with_entry<T: Copy>(mut table: [T; 128], n: u8, entry: T) -> [T; 128]
    ensures { result ≡ set table n entry }
{
    // Not by `get_mut`, whose contract says nothing of what the table becomes.
    let at = usize::from(n);
    if at < 128 {
        table[at] = entry;
    }
    table
}

pub fn thread_at(threads: [Thread; 128], n: u8) -> Thread
    ensures { result ≡ thread_at threads n }
{
    entry_or(&threads, usize::from(n), Thread::FREE)
}

pub fn timeslice_at(timeslices: [Timeslice; 128], t: u8) -> Timeslice
    ensures { result ≡ get_or timeslices t free_timeslice }
{
    entry_or(&timeslices, usize::from(t), Timeslice::FREE)
}
