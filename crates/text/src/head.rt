// The first five bytes of an event file, and numbers of two bytes.
ghost use Rattle.std.specs.Prelude.{◌≡◌, [], ◌∷◌, ◌++◌};
ghost use Rattle.rules.specs.EventFile.{high_byte, low_byte, four_bytes};
ghost use Rattle.text.specs.Put.{Put};

use crate::{put_byte, put_bytes};

pub fn put_two(out: &mut [u8], at: usize, a: u8, b: u8) -> usize
    ensures { Put out.old out.new at result (a ∷ b ∷ []) }
{
    put_bytes(out, at, &[a, b])
}

// A number of two bytes.
pub fn put_word(out: &mut [u8], at: usize, n: u16) -> usize
    ensures { Put out.old out.new at result (high_byte n ∷ low_byte n ∷ []) }
{
    put_bytes(out, at, &n.to_be_bytes())
}

// How many bytes follow the length field, and the version.
pub fn put_head(out: &mut [u8], count: u16) -> usize
    ensures { Put out.old out.new 0 result (four_bytes count ++ (1 ∷ [])) }
{
    let version = put_bytes(out, 0, &u32::from(count).to_be_bytes());
    put_byte(out, version, 1)
}
