// Document 01, "A thread record holds its hold and its service side by side": tests on what one holds that are no `==`.
ghost use Rattle.std.specs.Prelude.{◌≡◌};
ghost use Rattle.rules.specs.Holds.{linked, linked_to};

use rules::Hold;

// It has a link: Calling or Helping.
pub fn is_linked(hold: Hold) -> bool
    ensures { result ≡ linked hold }
{
    matches!(hold, Hold::Calling(_) | Hold::Helping(_))
}

// Calling or Helping that thread.
pub fn is_linked_to(n: u8, hold: Hold) -> bool
    ensures { result ≡ linked_to n hold }
{
    hold == Hold::Calling(n) || hold == Hold::Helping(n)
}
