#![tactic(auto)]
// Writes a file with an event of each kind, reads it back, and reads damaged files.
mod print;

use event_file::{Found, Stepped, append, open, start, step};
use print::{Number, Stood, Words};
use rules::{Event, Role};
use std::io;

// The events of the tour: one of each kind, and both roles.
const LISTED: [Event; 12] = [
    Event::Create {
        thread: 0,
        role: Role::Client,
    },
    Event::Create {
        thread: 255,
        role: Role::Server,
    },
    Event::Give {
        timeslice: 5,
        thread: 0,
        priority: 10,
        quantum: 100,
    },
    Event::Call { server: 1 },
    Event::Reply,
    Event::Block,
    Event::Wake { thread: 127 },
    Event::Charge { units: 65535 },
    Event::Abort { thread: 2 },
    Event::Refill { timeslice: 5 },
    Event::Remove { thread: 127 },
    Event::Rank {
        timeslice: 5,
        priority: 255,
    },
];

// A good file of one event.
const REPLY: &[u8] = b"\x00\x00\x00\x03\x01\x01\x04";

// The bytes filled: of a refused start none.
fn start_file(rt: &impl Print, what: &str, buffer: &mut [u8]) -> io::Result<usize> {
    let answer = start(buffer);
    let filled = answer.unwrap_or(0);
    println!(rt; "{what}: {}, filled {filled}", Number(answer))?;
    Ok(filled)
}

// The bytes filled: after a refused append as many as before.
fn append_event(
    rt: &impl Print,
    what: &str,
    buffer: &mut [u8],
    before: usize,
    event: Event,
) -> io::Result<usize> {
    let answer = append(buffer, before, event);
    let filled = answer.unwrap_or(before);
    println!(rt;
        "{what} {}: {}, filled {filled}",
        Words(event),
        Number(answer)
    )?;
    Ok(filled)
}

// Starts a file and appends the list; the bytes filled.
fn write(rt: &impl Print, buffer: &mut [u8]) -> io::Result<usize> {
    let mut filled = start_file(rt, "start", buffer)?;
    for event in LISTED {
        filled = append_event(rt, "append", buffer, filled, event)?;
    }
    Ok(filled)
}

// The offset of the first record, 0 in a refused file.
fn open_file(rt: &impl Print, what: &str, file: &[u8]) -> io::Result<usize> {
    let answer = open(file);
    let offset = answer.unwrap_or(0);
    println!(rt; "{what}: {}, offset {offset}", Number(answer))?;
    Ok(offset)
}

fn step_file(rt: &impl Print, what: &str, file: &[u8], at: usize) -> io::Result<Stepped> {
    let stepped = step(file, at);
    println!(rt; "{what} {at}: {}", Stood(stepped.found))?;
    Ok(stepped)
}

// Opens a file and steps until no record is found. A record has two bytes or more, so a step for each byte is enough.
fn read(rt: &impl Print, file: &[u8]) -> io::Result<()> {
    let mut at = open_file(rt, "open", file)?;
    for _ in 0..file.len() {
        let stepped = step_file(rt, "step at", file, at)?;
        let Found::Record(_) = stepped.found else {
            return Ok(());
        };
        at = stepped.offset;
    }
    Ok(())
}

fn open_damaged(rt: &impl Print) -> io::Result<()> {
    open_file(rt, "empty", b"")?;
    open_file(rt, "truncated", b"\x00\x00\x00\x03\x01\x01")?;
    open_file(rt, "wrong length field", b"\x00\x00\x00\x04\x01\x01\x04")?;
    open_file(rt, "length field 0", b"\x00\x00\x00\x00")?;
    open_file(rt, "version 2", b"\x00\x00\x00\x03\x02\x01\x04")?;
    open_file(rt, "unknown kind", b"\x00\x00\x00\x03\x01\x01\xff")?;
    open_file(
        rt,
        "wrong record length",
        b"\x00\x00\x00\x04\x01\x02\x04\x00",
    )?;
    open_file(rt, "role 2", b"\x00\x00\x00\x05\x01\x03\x01\x00\x02")?;
    open_file(rt, "record past the end", b"\x00\x00\x00\x03\x01\x02\x03")?;
    Ok(())
}

fn step_elsewhere(rt: &impl Print) -> io::Result<()> {
    step_file(rt, "below 5, step at", REPLY, 4)?;
    step_file(rt, "past the end, step at", REPLY, 8)?;
    step_file(rt, "inside a record, step at", REPLY, 6)?;
    Ok(())
}

// A buffer too small for a start, and one that is full but for a byte.
fn write_without_room(rt: &impl Print) -> io::Result<()> {
    let mut short = [0u8; 4];
    start_file(rt, "start in 4 bytes", &mut short)?;
    let mut full = [0u8, 0, 0, 1, 1, 0];
    append_event(rt, "in 6 bytes, append", &mut full, 5, Event::Reply)?;
    append_event(rt, "past the buffer, append", &mut full, 7, Event::Reply)?;
    append_event(rt, "to no file, append", &mut full, 4, Event::Reply)?;
    Ok(())
}

fn main(rt: HostRuntime) -> io::Result<()> {
    let mut buffer = [0u8; 64];
    let filled = write(&rt, &mut buffer)?;
    if let Some(file) = buffer.get(..filled) {
        read(&rt, file)?;
    }
    open_file(&rt, "no records", b"\x00\x00\x00\x01\x01")?;
    open_damaged(&rt)?;
    step_elsewhere(&rt)?;
    write_without_room(&rt)
}
