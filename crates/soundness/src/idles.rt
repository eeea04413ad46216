// Document 01, "A sound machine": "Idle holds exactly for servers with service none; clients serve nobody."
ghost use Rattle.std.specs.Prelude.{◌≡◌};
ghost use Rattle.rules.specs.Sound.{idle_good};

use rules::{Hold, Role, Service, Thread};

pub(crate) fn idle_good(t: Thread) -> bool
    ensures { result ≡ idle_good t }
{
    let server = t.role == Role::Server;
    let nobody = t.service == Service::Nobody;
    (t.hold == Hold::Idle) == (server && nobody) && (server || nobody)
}
