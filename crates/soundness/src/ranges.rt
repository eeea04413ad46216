// Document 01, "A sound machine": "Ranges hold."
ghost use Rattle.std.specs.Prelude.{◌≡◌};
ghost use Rattle.rules.specs.Sound.{in_range};

use rules::Slice;

// Priority and quantum are not too large by their types.
pub fn in_range(x: Slice) -> bool
    ensures { result ≡ in_range x }
{
    1 <= x.quantum && x.left <= x.quantum
}
