// What every program here does: it reads its input whole, writes what its sheet makes of that, and says on the third stream what failed.
ghost use Rattle.std.specs.Prelude.{List, ℕ, ◌≡◌, ◌≤◌, length, take, OnOk};
ghost use Rattle.std.specs.Io.KnownBytes.{Appends};
ghost use Rattle.streams.specs.Program.{CountsWithin, Answers, Reports, complaint};

use super::{Failure, fill, send};
use arrayvec::ArrayVec;
use std::io;
use std::io::{ErrorKind, Read, Stderr, Stdin, Stdout, Write};

// Room for what is said of a failure behind a program's name of up to 64 bytes.
const LINE: usize = 100;

// An array of bytes, whatever its size: a bound on a closure may not name the size.
pub trait Buffer {
    ghost bytes: { Self → List ℕ };

    fn as_bytes(&self) -> &[u8]
        ensures { result.now ≡ bytes self.now };
}

impl<const ROOM: usize> Buffer for [u8; ROOM] {
    ghost bytes = { λ array. array };

    fn as_bytes(&self) -> &[u8] {
        self.as_slice()
    }
}

// The three streams of a program.
#[derive(Drop)]
pub struct Streams<R, W, E> {
    pub input: R,
    pub output: W,
    pub errors: E,
}

impl Streams<Stdin, Stdout, Stderr> {
    pub fn standard(rt: HostRuntime) -> Self {
        Streams {
            input: rt.stdin(),
            output: rt.stdout(),
            errors: rt.stderr(),
        }
    }
}

impl<R: Read, W: Write, E: Write> Streams<R, W, E> {
    // Writes what a sheet makes of the input, of as many bytes as the buffer has room for. What failed is said behind the program's name on
    // the third stream; an error is of that stream alone.
    pub fn run<B: Buffer, F: FnOnce(&[u8], &mut B) -> usize>(
        &mut self,
        name: &str,
        buffer: &mut [u8],
        out: &mut B,
        sheet: F,
    ) -> io::Result<()>
        requires callable { F.IsAlwaysCallable sheet }
        requires within { CountsWithin B.bytes (F.post sheet) }
        ensures { (answered : _) × Answers B.bytes (F.post sheet) (R.remaining self.old.input) buffer.old
            (W.contents self.old.output) (W.contents self.new.output) answered
            × OnOk result (Reports name.now (E.contents self.old.errors) (E.contents self.new.errors) answered) }
    {
        match answer(&mut self.input, &mut self.output, buffer, out, sheet) {
            Ok(_) => Ok(()),
            Err(failure) => report(&mut self.errors, name, failure),
        }
    }
}

// What was read.
fn front(buffer: &[u8], n: usize) -> &[u8]
    requires { n ≤ length buffer.now }
    ensures { result.now ≡ take n buffer.now }
{
    &buffer[..n]
}

// Writes to one stream what a sheet makes of the bytes of another, as many as the buffer has room for.
fn answer<R: Read, W: Write, B: Buffer, F: FnOnce(&[u8], &mut B) -> usize>(
    from: &mut R,
    to: &mut W,
    buffer: &mut [u8],
    out: &mut B,
    sheet: F,
) -> Result<usize, Failure>
    requires callable { F.IsAlwaysCallable sheet }
    requires within { CountsWithin B.bytes (F.post sheet) }
    ensures { Answers B.bytes (F.post sheet) (R.remaining from.old) buffer.old
        (W.contents to.old) (W.contents to.new) result }
{
    let n = fill(from, buffer)?;
    let written = sheet(front(buffer, n), out);
    Ok(send(to, &out.as_bytes()[..written])?)
}

// Says what failed, behind the program's name. The line is put together first and goes out by `send`, in one write: of a line that goes
// out piece by piece a part can be left alone, or stand among those of another program. One that is too long for it does go out so.
fn report<W: Write>(to: &mut W, name: &str, failure: Failure) -> io::Result<()>
    ensures { OnOk result (Appends (W.contents to.old) (W.contents to.new) (complaint name.now failure)) }
{
    let mut line = ArrayVec::<u8, LINE>::new();
    if writeln!(line, "{name}: {failure}").is_err() {
        return writeln!(to, "{name}: {failure}");
    }
    match send(to, line.as_slice()) {
        Ok(_) => Ok(()),
        Err(_) => Err(io::Error::from(ErrorKind::WriteZero)),
    }
}
