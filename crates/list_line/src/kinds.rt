// The events by their names, each with its operands.
ghost use Rattle.std.specs.Prelude.{◌≡◌};
ghost use Rattle.list_line.specs.Reading.{event_named, last, line_of, uncommented};
ghost use Rattle.list_line.specs.Reading as reading;
ghost use Rattle.list_line.specs.Faults.{event_in, line_in};

use crate::Fault;
use crate::scan::{Until, scan};
use crate::words::{Words, same};
use rules::Event;

fn create(words: &mut Words<'_>) -> Result<Event, Fault>
    ensures { event_in result ≡ reading.create words.old }
{
    let thread = words.byte()?;
    let role = words.role()?;
    words.end()?;
    Ok(Event::Create { thread, role })
}

fn give(words: &mut Words<'_>) -> Result<Event, Fault>
    ensures { event_in result ≡ reading.give words.old }
{
    let timeslice = words.byte()?;
    let owner = words.byte()?;
    let priority = words.byte()?;
    let quantum = words.wide()?;
    words.end()?;
    Ok(Event::Give {
        timeslice,
        thread: owner,
        priority,
        quantum,
    })
}

fn rank(words: &mut Words<'_>) -> Result<Event, Fault>
    ensures { event_in result ≡ reading.rank words.old }
{
    let timeslice = words.byte()?;
    let priority = words.byte()?;
    words.end()?;
    Ok(Event::Rank {
        timeslice,
        priority,
    })
}

// An event whose operands are taken.
fn alone(words: &mut Words<'_>, event: Event) -> Result<Event, Fault>
    ensures { event_in result ≡ last event words.old }
{
    words.end()?;
    Ok(event)
}

// The event that a word names; its operands are the words after it.
#[tactic(auto, unfolding(crate::specs::Reading::event_named, rules::specs::Key::bytes))]
fn named(word: &[u8], words: &mut Words<'_>) -> Result<Event, Fault>
    ensures { event_in result ≡ event_named word.now words.old }
{
    if same(word, b"create") {
        return create(words);
    }
    if same(word, b"give") {
        return give(words);
    }
    if same(word, b"call") {
        let server = words.byte()?;
        return alone(words, Event::Call { server });
    }
    if same(word, b"reply") {
        return alone(words, Event::Reply);
    }
    if same(word, b"block") {
        return alone(words, Event::Block);
    }
    if same(word, b"wake") {
        let thread = words.byte()?;
        return alone(words, Event::Wake { thread });
    }
    if same(word, b"charge") {
        let units = words.wide()?;
        return alone(words, Event::Charge { units });
    }
    if same(word, b"abort") {
        let thread = words.byte()?;
        return alone(words, Event::Abort { thread });
    }
    if same(word, b"refill") {
        let timeslice = words.byte()?;
        return alone(words, Event::Refill { timeslice });
    }
    if same(word, b"remove") {
        let thread = words.byte()?;
        return alone(words, Event::Remove { thread });
    }
    if same(word, b"rank") {
        return rank(words);
    }
    Err(Fault::NoSuchEvent)
}

// What stands before the comment.
fn uncommented(line: &[u8]) -> &[u8]
    ensures { result.now ≡ uncommented line.now }
{
    let stop = scan(line, 0, Until::Hash);
    &line[..stop]
}

#[tactic(auto, unfolding(crate::specs::Reading::line_of))]
pub fn line_of(line: &[u8]) -> Result<Option<Event>, Fault>
    ensures { line_in result ≡ line_of line.now }
{
    let mut words = Words::of(uncommented(line));
    match words.word() {
        None => Ok(None),
        Some(name) => named(name, &mut words).map(Some),
    }
}
