// Standard output and standard error, written whole.
ghost use Rattle.std.specs.Io.KnownBytes.{Appends};
ghost use Rattle.std.specs.Prelude.{take};
ghost use Rattle.streams.specs.Counts.{Sent, written_of};

use super::WriteFailed;
use std::io::Write;

// Writes until all is written or a write fails or takes nothing, and answers how many bytes. std's `write_all` does not say how many there
// were before a failure, and goes on after an interruption.
pub fn send<W: Write>(to: &mut W, text: &[u8]) -> Result<usize, WriteFailed>
    ensures counts { Sent result text.now }
    ensures bytes { Appends (W.contents to.old) (W.contents to.new) (take (written_of result) text.now) }
{
    let mut at: usize = 0;
    while at < text.len() {
        match to.write(&text[at..]) {
            Ok(0) | Err(_) => return Err(WriteFailed { written: at }),
            Ok(n) => at += n,
        }
    }
    Ok(at)
}
