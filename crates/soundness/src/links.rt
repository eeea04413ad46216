// Document 01, "A sound machine": "Links go to live servers, never to oneself."
ghost use Rattle.std.specs.Prelude.{◌≡◌};
ghost use Rattle.rules.specs.Sound.{link_to, link_good};

use rules::{Hold, Role, Thread};
use tables::lookup::thread_at;

pub(crate) fn link_to(threads: [Thread; 128], n: u8, s: u8) -> bool
    ensures { result ≡ link_to threads n s }
{
    let server = thread_at(threads, s);
    server.live && server.role == Role::Server && s != n
}

pub(crate) fn link_good(threads: [Thread; 128], n: u8, hold: Hold) -> bool
    ensures { result ≡ link_good threads n hold }
{
    match hold {
        Hold::Calling(s) | Hold::Helping(s) => link_to(threads, n, s),
        Hold::Ready | Hold::Idle | Hold::Blocked => true,
    }
}
