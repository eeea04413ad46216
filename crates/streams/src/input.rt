// Standard input, read whole.
ghost use Rattle.streams.specs.Counts.{Filled, Reads};

use super::ReadFailed;
use std::io::Read;

// Reads until the input ends or the buffer is full, and answers how many bytes. std's `read_exact` does not say how many there were before
// the end, and goes on after an interruption.
pub fn fill<R: Read>(from: &mut R, buffer: &mut [u8]) -> Result<usize, ReadFailed>
    ensures counts { Filled result buffer.old buffer.new }
    ensures bytes { Reads result (R.remaining from.old) buffer.new }
{
    let mut at: usize = 0;
    while at < buffer.len() {
        match from.read(&mut buffer[at..]) {
            Ok(0) => return Ok(at),
            Ok(n) => at += n,
            Err(_) => return Err(ReadFailed),
        }
    }
    Ok(at)
}
