// The record of an event: one arm for each kind.
ghost use Rattle.std.specs.Prelude.{◌≡◌, ◌≤◌, ◌+◌, length};
ghost use Rattle.std.proofs.lemmas.List.Edits.{sets};
ghost use Rattle.rules.specs.EventFile.{role_byte, record_of};

use crate::writer::stores::put;
use rules::{Event, Role};

// The operand of a role. `Role` is of another crate, so this is no `From<Role> for u8`.
pub fn role_byte(role: Role) -> u8
    ensures { result ≡ role_byte role }
{
    match role {
        Role::Client => 0,
        Role::Server => 1,
    }
}

// A length byte, a kind byte, operands.
pub fn record_length(event: Event) -> usize
    ensures value { result ≡ length (record_of event) }
    ensures bounded { result ≤ 7 }
{
    match event {
        Event::Reply | Event::Block => 2,
        Event::Call { .. }
        | Event::Wake { .. }
        | Event::Abort { .. }
        | Event::Refill { .. }
        | Event::Remove { .. } => 3,
        Event::Create { .. } | Event::Charge { .. } | Event::Rank { .. } => 4,
        Event::Give { .. } => 7,
    }
}

pub fn put_record(buffer: &mut [u8], at: usize, event: Event)
    requires { at + length (record_of event) ≤ length buffer.old }
    ensures { buffer.new ≡ sets buffer.old at (record_of event) }
{
    match event {
        Event::Create { thread, role } => put(buffer, at, &[3, 1, thread, role_byte(role)]),
        Event::Give {
            timeslice,
            thread,
            priority,
            quantum,
        } => {
            let [high, low] = quantum.to_be_bytes();
            put(buffer, at, &[6, 2, timeslice, thread, priority, high, low])
        }
        Event::Call { server } => put(buffer, at, &[2, 3, server]),
        Event::Reply => put(buffer, at, &[1, 4]),
        Event::Block => put(buffer, at, &[1, 5]),
        Event::Wake { thread } => put(buffer, at, &[2, 6, thread]),
        Event::Charge { units } => {
            let [high, low] = units.to_be_bytes();
            put(buffer, at, &[3, 7, high, low])
        }
        Event::Abort { thread } => put(buffer, at, &[2, 8, thread]),
        Event::Refill { timeslice } => put(buffer, at, &[2, 9, timeslice]),
        Event::Remove { thread } => put(buffer, at, &[2, 10, thread]),
        Event::Rank {
            timeslice,
            priority,
        } => put(buffer, at, &[3, 11, timeslice, priority]),
    }
}
