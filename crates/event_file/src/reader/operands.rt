// What a record holds after its length byte: a kind byte, then its operands.
ghost use Rattle.std.specs.Prelude.{◌≡◌};
ghost use Rattle.rules.specs.EventFile.{event_of, body_of};
ghost use Rattle.event_file.specs.Answers.{role_of, read_as};

use rules::{Event, Role};

// The role of an operand; none above 1. `Role` is of another crate, so this is no `TryFrom<u8>`.
fn role_of(byte: u8) -> Option<Role>
    ensures { result ≡ role_of byte }
{
    match byte {
        0 => Some(Role::Client),
        1 => Some(Role::Server),
        _ => None,
    }
}

// The kinds of documents 01 and 02, one arm each, with as many operands as the kind has. The numbers are those of the file format.
fn event_of(kind: u8, operands: &[u8]) -> Option<Event>
    ensures { result ≡ read_as (event_of kind operands.now) }
{
    let event = match (kind, operands) {
        (1, &[thread, role]) => Event::Create {
            thread,
            role: role_of(role)?,
        },
        (2, &[timeslice, thread, priority, high, low]) => Event::Give {
            timeslice,
            thread,
            priority,
            quantum: u16::from_be_bytes([high, low]),
        },
        (3, &[server]) => Event::Call { server },
        (4, &[]) => Event::Reply,
        (5, &[]) => Event::Block,
        (6, &[thread]) => Event::Wake { thread },
        (7, &[high, low]) => Event::Charge {
            units: u16::from_be_bytes([high, low]),
        },
        (8, &[thread]) => Event::Abort { thread },
        (9, &[timeslice]) => Event::Refill { timeslice },
        (10, &[thread]) => Event::Remove { thread },
        (11, &[timeslice, priority]) => Event::Rank {
            timeslice,
            priority,
        },
        _ => return None,
    };
    Some(event)
}

pub fn body(bytes: &[u8]) -> Option<Event>
    ensures { result ≡ read_as (body_of bytes.now) }
{
    match bytes {
        [kind, operands @ ..] => event_of(*kind, operands),
        [] => None,
    }
}
