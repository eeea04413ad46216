// The number of live entries.
ghost use Rattle.std.specs.Prelude.{◌≡◌};
ghost use Rattle.tables.specs.Turning.{entries_of};

// The entries of the turn order that are live: never more than it has.
pub fn entries(live: u8) -> usize
    ensures { result ≡ entries_of live }
{
    usize::from(live).min(128)
}
