// "New numbers: 20, a block that is not 12 bytes, before all others; 21, register above 11, a write to byte 3, or line above 7, after 20".
ghost use Rattle.std.specs.Prelude.{◌≡◌};
ghost use Rattle.rules.specs.RefusalNumbers.{number_in};
ghost use Rattle.bridge_card.specs.Card.{refusal_of, not_written};

use rules::Refusal;

// 20, and then 21 if the register or the line is wrong.
pub(crate) fn check(block: &[u8], wrong: bool) -> Result<(), Refusal>
    ensures { number_in result ≡ refusal_of block.now wrong }
{
    if block.len() != 12 {
        return Err(Refusal::BadBlock);
    }
    if wrong {
        return Err(Refusal::NoSuchRegister);
    }
    Ok(())
}

pub(crate) fn is_not_written(register: u8) -> bool
    ensures { result ≡ not_written register }
{
    11 < register || register == 3
}
