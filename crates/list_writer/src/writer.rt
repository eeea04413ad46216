// Events in words, put into a lent buffer.
ghost use Rattle.std.specs.Prelude.{◌≡◌, ◌++◌};
ghost use Rattle.rules.specs.declared.Event;
ghost use Rattle.rules.specs.EventFile.{file_refusal, events_of};
ghost use Rattle.rules.specs.Key.{bytes, decimal};
ghost use Rattle.text.specs.Put.{Put};
ghost use Rattle.list_writer.specs.Writing.{role_word, event_words, text_of};

use event_file::{Found, step};
use rules::{Event, Role};
use text::{put_byte, put_bytes, put_decimal};

#[tactic(auto, unfolding(rules::specs::Key::bytes))]
fn put_role(out: &mut [u8], at: usize, role: Role) -> usize
    ensures { Put out.old out.new at result (role_word role) }
{
    match role {
        Role::Client => put_bytes(out, at, b"client"),
        Role::Server => put_bytes(out, at, b"server"),
    }
}

// What stands before a number, and the number.
fn put_named(out: &mut [u8], at: usize, name: &[u8], n: u64) -> usize
    ensures { Put out.old out.new at result (name.now ++ decimal n) }
{
    let number = put_bytes(out, at, name);
    put_decimal(out, number, n)
}

fn put_create(out: &mut [u8], at: usize, thread: u8, role: Role) -> usize
    ensures { Put out.old out.new at result (event_words (Event.Create thread role)) }
{
    let space = put_named(out, at, b"create ", u64::from(thread));
    let word = put_byte(out, space, b' ');
    put_role(out, word, role)
}

fn put_give(
    out: &mut [u8],
    at: usize,
    timeslice: u8,
    thread: u8,
    priority: u8,
    quantum: u16,
) -> usize
    ensures { Put out.old out.new at result (event_words (Event.Give timeslice thread priority quantum)) }
{
    let second = put_named(out, at, b"give ", u64::from(timeslice));
    let third = put_named(out, second, b" ", u64::from(thread));
    let fourth = put_named(out, third, b" ", u64::from(priority));
    put_named(out, fourth, b" ", u64::from(quantum))
}

fn put_rank(out: &mut [u8], at: usize, timeslice: u8, priority: u8) -> usize
    ensures { Put out.old out.new at result (event_words (Event.Rank timeslice priority)) }
{
    let second = put_named(out, at, b"rank ", u64::from(timeslice));
    put_named(out, second, b" ", u64::from(priority))
}

#[tactic(auto, unfolding(crate::specs::Writing::event_words, rules::specs::Key::bytes))]
fn put_event(out: &mut [u8], at: usize, event: Event) -> usize
    ensures { Put out.old out.new at result (event_words event) }
{
    match event {
        Event::Create { thread, role } => put_create(out, at, thread, role),
        Event::Give {
            timeslice,
            thread,
            priority,
            quantum,
        } => put_give(out, at, timeslice, thread, priority, quantum),
        Event::Call { server } => put_named(out, at, b"call ", u64::from(server)),
        Event::Reply => put_bytes(out, at, b"reply"),
        Event::Block => put_bytes(out, at, b"block"),
        Event::Wake { thread } => put_named(out, at, b"wake ", u64::from(thread)),
        Event::Charge { units } => put_named(out, at, b"charge ", u64::from(units)),
        Event::Abort { thread } => put_named(out, at, b"abort ", u64::from(thread)),
        Event::Refill { timeslice } => put_named(out, at, b"refill ", u64::from(timeslice)),
        Event::Remove { thread } => put_named(out, at, b"remove ", u64::from(thread)),
        Event::Rank {
            timeslice,
            priority,
        } => put_rank(out, at, timeslice, priority),
    }
}

fn put_event_line(out: &mut [u8], at: usize, event: Event) -> usize
    ensures { Put out.old out.new at result (event_words event ++ bytes "\n") }
{
    let end = put_event(out, at, event);
    put_byte(out, end, b'\n')
}

// One event of an accepted file after the other, until there is none left.
pub fn put_events(file: &[u8], out: &mut [u8]) -> usize
    requires { file_refusal file.now ≡ 0 }
    ensures { Put out.old out.new 0 result (text_of (events_of file.now)) }
{
    let mut offset = 5;
    let mut at = 0;
    loop {
        let read = step(file, offset);
        let Found::Record(event) = read.found else {
            return at;
        };
        at = put_event_line(out, at, event);
        offset = read.offset;
    }
}
