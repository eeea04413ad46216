// An event that stays: its record is moved to the records of those that stay already.
ghost use Rattle.std.specs.Prelude.{◌≤◌, length};
ghost use Rattle.shorten_sheet.specs.Promises.{Moved};

// Moves the bytes between two places up, so that they end at a third, and gives where they begin then. The two parts may overlap.
pub fn move_up(work: &mut [u8], from: usize, end: usize, place: usize) -> usize
    requires { (from ≤ end) × (end ≤ place) × (place ≤ length work.old) }
    ensures { Moved work.old work.new from end place result }
{
    let at = place - (end - from);
    work.copy_within(from..end, at);
    at
}
