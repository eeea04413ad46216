// The first five bytes of a file.
ghost use Rattle.std.specs.Prelude.{◌≡◌};
ghost use Rattle.rules.specs.EventFile.{head_refusal};
ghost use Rattle.rules.specs.RefusalNumbers.{number_in};

use crate::words::length_field;
use rules::Refusal;

// The file's length and its length field, then its version.
pub fn check_head(file: &[u8]) -> Result<(), Refusal>
    ensures { number_in result ≡ head_refusal file.now }
{
    if file.len() < 4 || 65536 < file.len() {
        return Err(Refusal::BadLength);
    }
    let count = length_field(file);
    if count == 0 || count + 4 != file.len() {
        return Err(Refusal::BadLength);
    }
    if file[4] != 1 {
        return Err(Refusal::BadVersion);
    }
    Ok(())
}
