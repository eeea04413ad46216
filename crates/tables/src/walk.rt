// Document 01, "The walk".
ghost use Rattle.std.specs.Prelude.{◌≡◌};
ghost use Rattle.rules.specs.Walk.{no_links, walk_from};

use crate::lookup::entry_or;
use rules::{Chain, Hold, Thread};

// Follows links from a thread until a thread without one. After `live` links the chain is a loop. Document 02, [6], has the livelock test
// last: so the loop ends by the chain's flag, and is no `for _ in 0..live`, whose test is first.
#[tactic(auto, using(crate::proofs::Walks::left))]
pub fn walk(threads: [Thread; 128], live: u8, from: u8) -> Chain
    ensures { result ≡ walk_from live threads from no_links }
{
    let mut at = from;
    let mut chain = Chain {
        // With no live thread no link may be followed: a loop before the first.
        looped: live == 0,
        end: 0,
        links: 0,
        count: 0,
        helper: 0,
        helping: 0,
        last: None,
    };
    while !chain.looped {
        // Source 001, "Improved Algorithm for Dependency Tracking":
        // "follows the donation links" to "a thread that has no outgoing donation
        // link". Helping links are followed likewise.
        let here = at;

        // Past the end of the table is no thread, and no link.
        let thread = entry_or(&threads, usize::from(here), Thread::FREE);
        let (server, helps) = match thread.hold {
            Hold::Calling(server) => (server, false),
            Hold::Helping(server) => (server, true),
            Hold::Ready | Hold::Idle | Hold::Blocked => return Chain { end: here, ..chain },
        };
        at = server;
        chain.last = Some(here);

        // "Direct Switching": "counts the number of consecutive donation links";
        // at "a helping link, the donation counter is reset to zero".
        chain.links += 1;
        if helps {
            chain.count = 0;
            chain.helper = here;
            chain.helping += 1;
        } else {
            chain.count += 1;
        }

        // "Livelock Detection": the paper counts helping links, document 01 all.
        chain.looped = chain.links == live;
    }
    Chain {
        count: 0,
        helper: 0,
        last: None,
        ..chain
    }
}
