// Places in a text: where a line, a comment, a word begins or ends.
ghost use Rattle.std.specs.Prelude.{ℕ, Bool, ◌≡◌, ◌+◌, ◌<◌, drop};
ghost use Rattle.list_line.specs.Reading.{blank};
ghost use Rattle.list_line.specs.Scanning.{end_of, stops};

// What a scan stops at: a line feed, `#`, a blank, a byte that is no blank.
#[derive(Clone, Copy, Debug, PartialEq, Eq)]
pub enum Until {
    LineFeed,
    Hash,
    Blank,
    Word,
}

fn is_blank(b: u8) -> bool
    ensures { result ≡ blank b }
{
    matches!(b, b' ' | b'\t' | b'\r')
}

impl Until {
    fn stops_at(self, b: u8) -> bool
        ensures { result ≡ stops self b }
    {
        match self {
            Until::LineFeed => b == b'\n',
            Until::Hash => b == b'#',
            Until::Blank => is_blank(b),
            Until::Word => !is_blank(b),
        }
    }
}

// The first place from `at` on that the scan stops at; the text's end where there is none.
pub fn scan(text: &[u8], at: usize, until: Until) -> usize
    ensures { result ≡ at + end_of (stops until) (drop at text.now) }
{
    scan_by(text, at, |b| until.stops_at(b))
}

// The first place from `at` on whose byte passes the test; the text's end where there is none.
pub fn scan_by<F: Fn(u8) -> bool>(text: &[u8], at: usize, stops: F) -> usize
    requires { F.IsAlwaysCallable stops }
    ensures { (test : ℕ → Bool) → ((b : ℕ) (r : Bool) → F.post stops b r → r ≡ test b)
        → result ≡ at + end_of test (drop at text.now) }
{
    // Not by `skip` and `position`: so, and with names told by `==`, lists took 12 to 28 % more instructions.
    for i in at..text.len() {
        if stops(text[i]) {
            return i;
        }
    }
    at.max(text.len())
}
