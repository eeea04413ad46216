// L, the number of live threads, counted.
ghost use Rattle.std.specs.Prelude.{◌≡◌};
ghost use Rattle.rules.specs.State.{live_thread_count};

use rules::Thread;

// A function of its own, also where it is called: spread over its callers the loop takes more than it saves.
#[inline(never)]
pub fn count_live(threads: [Thread; 128]) -> u8
    ensures { result ≡ live_thread_count threads }
{
    // Not by `filter` and `count`, which are not compiled to vector instructions: three times the time.
    let mut count = 0;
    for thread in &threads {
        if thread.live {
            count += 1;
        }
    }
    count
}
