// What can go wrong with a stream, as a program says it.
ghost use Rattle.std.specs.Prelude.{Some, ◌≡◌};
ghost use Rattle.streams.specs.Counts.{failure_text};
ghost use Rattle.streams.specs.declared.failure.Failure.TheVariants.{Read, Write};

use std::fmt;
use std::fmt::{Display, Formatter};

#[derive(Clone, Copy, Debug, PartialEq, Eq)]
pub struct ReadFailed;

// `written` bytes were written before writing failed.
#[derive(Clone, Copy, Debug, PartialEq, Eq)]
pub struct WriteFailed {
    pub written: usize,
}

#[derive(Clone, Copy, Debug, PartialEq, Eq)]
pub enum Failure {
    Read(ReadFailed),
    Write(WriteFailed),
}

impl From<ReadFailed> for Failure {
    ghost from_gives = { λ failed failure. failure ≡ Read failed };

    fn from(failed: ReadFailed) -> Failure {
        Failure::Read(failed)
    }
}

impl From<WriteFailed> for Failure {
    ghost from_gives = { λ failed failure. failure ≡ Write failed };

    fn from(failed: WriteFailed) -> Failure {
        Failure::Write(failed)
    }
}

impl Display for Failure {
    ghost output = { λ failure. Some (failure_text failure) };

    fn fmt<W: fmt::Write>(&self, f: &mut Formatter<W>) -> fmt::Result {
        f.write_str(match self {
            Failure::Read(_) => "standard input cannot be read",
            Failure::Write(_) => "standard output cannot be written",
        })
    }
}
