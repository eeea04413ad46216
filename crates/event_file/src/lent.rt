// Document 01: "The event reader carries the file it was given and an offset into it, as a struct over the lent bytes." Each
// method calls the cursor function on the reader's file and offset.
ghost use Rattle.std.specs.Prelude.{◌≡◌};
ghost use Rattle.rules.specs.EventFile.{opened, stepped};
ghost use Rattle.rules.specs.RefusalNumbers.{number_in};
ghost use Rattle.event_file.specs.Answers.{shown_found, refusal_of};

use crate::reader::{Found, Stepped, open, step};
use rules::Refusal;

#[derive(Clone, Copy)]
pub struct Reader<'a> {
    pub file: &'a [u8],
    pub offset: usize,
}

impl<'a> Reader<'a> {
    // A reader over a file that is yet to be opened: a step at its offset finds nothing good.
    pub fn over(file: &'a [u8]) -> Reader<'a>
        ensures { (result.file ≡ file.entry) × (result.offset ≡ 0) }
    {
        Reader { file, offset: 0 }
    }

    // Checks the reader's file whole, and sets the offset: of a refused file to 0.
    pub fn open_reader(&mut self) -> Result<(), Refusal>
        ensures { (number_in result ≡ (opened self.old.file.now).refusal)
            × (self.new.file ≡ self.old.file)
            × (self.new.offset ≡ (opened self.old.file.now).offset) }
    {
        self.offset = 0;
        self.offset = open(self.file)?;
        Ok(())
    }

    // What stands at the reader's offset, which moves past a record.
    pub fn next(&mut self) -> Found
        ensures { (shown_found result ≡ (stepped self.old.file.now self.old.offset).found)
            × (self.new.file ≡ self.old.file)
            × (self.new.offset ≡ (stepped self.old.file.now self.old.offset).offset)
            × (refusal_of result ≡ (stepped self.old.file.now self.old.offset).refusal) }
    {
        let read = step(self.file, self.offset);
        self.offset = read.offset;
        read.found
    }
}

// Opens a file and takes one step: of a refused file this finds nothing good. Its caller has a plain slice.
pub fn first_event(file: &[u8]) -> Stepped
    ensures { (shown_found result.found ≡ (stepped file.now (opened file.now).offset).found)
        × (result.offset ≡ (stepped file.now (opened file.now).offset).offset)
        × (refusal_of result.found ≡ (stepped file.now (opened file.now).offset).refusal) }
{
    let mut reader = Reader::over(file);
    let _ = reader.open_reader();
    let found = reader.next();
    Stepped {
        found,
        offset: reader.offset,
    }
}
