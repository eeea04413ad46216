// The records of events, put into a lent buffer.
ghost use Rattle.rules.specs.declared.Event;
ghost use Rattle.rules.specs.EventFile.{record_of};
ghost use Rattle.text.specs.Put.{Put};

use event_file::role_byte;
use rules::{Event, Role};
use text::{put_bytes, put_word};

fn put_create(out: &mut [u8], at: usize, thread: u8, role: Role) -> usize
    ensures { Put out.old out.new at result (record_of (Event.Create thread role)) }
{
    let byte = role_byte(role);
    put_bytes(out, at, &[3, 1, thread, byte])
}

fn put_give(
    out: &mut [u8],
    at: usize,
    timeslice: u8,
    thread: u8,
    priority: u8,
    quantum: u16,
) -> usize
    ensures { Put out.old out.new at result (record_of (Event.Give timeslice thread priority quantum)) }
{
    let last = put_bytes(out, at, &[6, 2, timeslice, thread, priority]);
    put_word(out, last, quantum)
}

fn put_charge(out: &mut [u8], at: usize, units: u16) -> usize
    ensures { Put out.old out.new at result (record_of (Event.Charge units)) }
{
    let operand = put_bytes(out, at, &[3, 7]);
    put_word(out, operand, units)
}

pub fn put_record(out: &mut [u8], at: usize, event: Event) -> usize
    ensures { Put out.old out.new at result (record_of event) }
{
    match event {
        Event::Create { thread, role } => put_create(out, at, thread, role),
        Event::Give {
            timeslice,
            thread,
            priority,
            quantum,
        } => put_give(out, at, timeslice, thread, priority, quantum),
        Event::Call { server } => put_bytes(out, at, &[2, 3, server]),
        Event::Reply => put_bytes(out, at, &[1, 4]),
        Event::Block => put_bytes(out, at, &[1, 5]),
        Event::Wake { thread } => put_bytes(out, at, &[2, 6, thread]),
        Event::Charge { units } => put_charge(out, at, units),
        Event::Abort { thread } => put_bytes(out, at, &[2, 8, thread]),
        Event::Refill { timeslice } => put_bytes(out, at, &[2, 9, timeslice]),
        Event::Remove { thread } => put_bytes(out, at, &[2, 10, thread]),
        Event::Rank {
            timeslice,
            priority,
        } => put_bytes(out, at, &[3, 11, timeslice, priority]),
    }
}
