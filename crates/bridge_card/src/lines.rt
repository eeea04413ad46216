// Which line a poll takes: "the lowest line that is pending and enabled, with the card on".
ghost use Rattle.std.specs.Prelude.{◌≡◌, ◌<◌, length};
ghost use Rattle.bits.specs.Bits.{bit};
ghost use Rattle.tables.specs.Sets.{sought_of};
ghost use Rattle.bridge_card.specs.Card.{lowest, line_to_take, thread_of};

use crate::bytes::{common_bits, has_bit};

fn lowest_line(lines: u8) -> Option<u8>
    ensures { sought_of result ≡ lowest (λ i. bit i lines) }
{
    (0..8).find(
        |&line|
            requires { line < 8 }
            ensures { result ≡ bit line lines }
        { has_bit(lines, line) },
    )
}

pub(crate) fn line_to_take(block: &[u8]) -> Option<u8>
    requires { length block.now ≡ 12 }
    ensures { sought_of result ≡ line_to_take block.now }
{
    if has_bit(block[0], 0) {
        return lowest_line(common_bits(block[1], block[2]));
    }
    None
}

// "bytes 4 to 11 the thread of each line"
pub(crate) fn thread_of(block: &[u8], line: u8) -> u8
    requires twelve { length block.now ≡ 12 }
    requires one_of_eight { line < 8 }
    ensures { result ≡ thread_of block.now line }
{
    block[4 + usize::from(line)]
}
