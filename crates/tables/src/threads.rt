// Document 01, "Events" and "Release and choice", and document 02, [3]: what they do to the threads.
ghost use Rattle.std.specs.Prelude.{◌≡◌};
ghost use Rattle.rules.specs.Threads.{set_hold, set_service, donate, replied as replied_of, free_caller, aborted as aborted_of};
ghost use Rattle.rules.specs.Threads.{orphan_server, cut_from, links_cut, removed as removed_of, starts_as, created as created_of};

use crate::lookup::{entry_or, with_entry};
use crate::records::is_linked_to;
use rules::{Hold, Role, Service, Thread};

#[tactic(auto, unfolding(rules::specs::Threads::set_hold))]
pub fn with_hold(threads: [Thread; 128], n: u8, hold: Hold) -> [Thread; 128]
    ensures { result ≡ set_hold n hold threads }
{
    let thread = entry_or(&threads, usize::from(n), Thread::FREE);
    with_entry(threads, n, Thread { hold, ..thread })
}

#[tactic(auto, unfolding(rules::specs::Threads::set_service))]
pub fn with_service(threads: [Thread; 128], n: u8, service: Service) -> [Thread; 128]
    ensures { result ≡ set_service n service threads }
{
    let thread = entry_or(&threads, usize::from(n), Thread::FREE);
    with_entry(threads, n, Thread { service, ..thread })
}

// A client starts Ready, a server Idle.
pub(crate) fn starts_as(role: Role) -> Hold
    ensures { result ≡ starts_as role }
{
    match role {
        Role::Client => Hold::Ready,
        Role::Server => Hold::Idle,
    }
}

#[tactic(auto, unfolding(rules::specs::Threads::created))]
pub fn created(threads: [Thread; 128], n: u8, role: Role) -> [Thread; 128]
    ensures { result ≡ created_of n role threads }
{
    let new = Thread {
        live: true,
        role,
        hold: starts_as(role),
        service: Service::Nobody,
    };
    with_entry(threads, n, new)
}

// The caller is Calling, the server Ready and serving it.
#[tactic(auto, unfolding(rules::specs::Threads::donate))]
pub fn donated(threads: [Thread; 128], caller: u8, server: u8) -> [Thread; 128]
    ensures { result ≡ donate caller server threads }
{
    let calling = with_hold(threads, caller, Hold::Calling(server));
    let ready = with_hold(calling, server, Hold::Ready);
    with_service(ready, server, Service::Serving(caller))
}

// The caller served, if any, becomes Ready.
pub fn freed(threads: [Thread; 128], service: Service) -> [Thread; 128]
    ensures { result ≡ free_caller service threads }
{
    match service {
        Service::Serving(caller) => with_hold(threads, caller, Hold::Ready),
        Service::Nobody | Service::Orphan => threads,
    }
}

// The server is Idle and serves nobody.
#[tactic(auto, unfolding(rules::specs::Threads::replied))]
pub fn replied(threads: [Thread; 128], server: u8) -> [Thread; 128]
    ensures { result ≡ replied_of server threads }
{
    let service = entry_or(&threads, usize::from(server), Thread::FREE).service;
    let ready = freed(threads, service);
    let idle = with_hold(ready, server, Hold::Idle);
    with_service(idle, server, Service::Nobody)
}

// The server of a thread that was Calling has an unfinished request.
pub fn orphaned(threads: [Thread; 128], hold: Hold) -> [Thread; 128]
    ensures { result ≡ orphan_server hold threads }
{
    match hold {
        Hold::Calling(server) => with_service(threads, server, Service::Orphan),
        Hold::Ready | Hold::Idle | Hold::Blocked | Hold::Helping(_) => threads,
    }
}

#[tactic(auto, unfolding(rules::specs::Threads::aborted))]
pub fn aborted(threads: [Thread; 128], n: u8) -> [Thread; 128]
    ensures { result ≡ aborted_of n threads }
{
    let hold = entry_or(&threads, usize::from(n), Thread::FREE).hold;
    let left = orphaned(threads, hold);
    with_hold(left, n, Hold::Ready)
}

// A thread with a link to this one becomes Ready.
pub fn cut_from(n: u8, thread: Thread) -> Thread
    ensures { result ≡ cut_from n thread }
{
    if is_linked_to(n, thread.hold) {
        Thread {
            hold: Hold::Ready,
            ..thread
        }
    } else {
        thread
    }
}

#[tactic(auto, unfolding(rules::specs::Threads::links_cut))]
pub fn links_cut(mut threads: [Thread; 128], n: u8) -> [Thread; 128]
    ensures { result ≡ links_cut n threads }
{
    // In place: `map` makes a new table, in four times the time.
    for k in 0..128 {
        threads[k] = cut_from(n, threads[k]);
    }
    threads
}

// All links into the thread are cut, the server that it was Calling is an orphan, and its record is free.
#[tactic(auto, unfolding(rules::specs::Threads::removed))]
pub fn removed(threads: [Thread; 128], n: u8) -> [Thread; 128]
    ensures { result ≡ removed_of n threads }
{
    let hold = entry_or(&threads, usize::from(n), Thread::FREE).hold;
    let cut = links_cut(threads, n);
    let left = orphaned(cut, hold);
    with_entry(left, n, Thread::FREE)
}
