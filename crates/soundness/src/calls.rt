// Document 01, "A sound machine": "A thread is Calling a server exactly when that server serves it."
ghost use Rattle.std.specs.Prelude.{◌≡◌, ◌&&◌};
ghost use Rattle.rules.specs.Sound.{call_is_served, served_is_calling};

use rules::{Hold, Service, Thread};
use tables::lookup::thread_at;

pub(crate) fn call_is_served(threads: [Thread; 128], n: u8, hold: Hold) -> bool
    ensures { result ≡ call_is_served threads n hold }
{
    match hold {
        Hold::Calling(s) => thread_at(threads, s).service == Service::Serving(n),
        Hold::Ready | Hold::Idle | Hold::Blocked | Hold::Helping(_) => true,
    }
}

pub(crate) fn served_is_calling(threads: [Thread; 128], n: u8, service: Service) -> bool
    ensures { result ≡ served_is_calling threads n service }
{
    match service {
        Service::Serving(m) => thread_at(threads, m).hold == Hold::Calling(n),
        Service::Nobody | Service::Orphan => true,
    }
}

pub(crate) fn call_good(threads: [Thread; 128], n: u8, t: Thread) -> bool
    ensures { result ≡ (call_is_served threads n t.hold && served_is_calling threads n t.service) }
{
    call_is_served(threads, n, t.hold) && served_is_calling(threads, n, t.service)
}
