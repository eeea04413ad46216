// The bits of a byte.
ghost use Rattle.std.specs.Prelude.{◌≡◌, ◌&&◌, ◌||◌, not, ◌<◌, eqb};
ghost use Rattle.bits.specs.Bits.{bit};
ghost use Rattle.bridge_card.specs.Card.{byte_of};

#[tactic(auto, using(bits::proofs::BitLaws::bit_shifted))]
pub(crate) fn has_bit(byte: u8, i: u8) -> bool
    requires { i < 8 }
    ensures { result ≡ bit i byte }
{
    (byte >> i) % 2 == 1
}

// Both have it.
pub(crate) fn common_bits(a: u8, b: u8) -> u8
    ensures { result ≡ byte_of (λ i. bit i a && bit i b) }
{
    a & b
}

// Bit i is set, the others stay.
pub(crate) fn with_bit(byte: u8, i: u8) -> u8
    requires { i < 8 }
    ensures { result ≡ byte_of (λ j. bit j byte || eqb j i) }
{
    byte | 1 << i
}

// Bit i is cleared, the others stay.
pub(crate) fn without_bit(byte: u8, i: u8) -> u8
    requires { i < 8 }
    ensures { result ≡ byte_of (λ j. bit j byte && not (eqb j i)) }
{
    byte & !(1 << i)
}

// The bits that `cleared` has are cleared, the others stay.
pub(crate) fn without_bits(byte: u8, cleared: u8) -> u8
    ensures { result ≡ byte_of (λ j. bit j byte && not (bit j cleared)) }
{
    byte & !cleared
}
