// "the chain of the current timeslice, thread by thread from the owner"; "The chain is one line of numbers with single spaces, or `-`".
ghost use Rattle.std.specs.Prelude.{◌≡◌, ◌++◌, cond};
ghost use Rattle.rules.specs.Holds.{linked};
ghost use Rattle.rules.specs.Key.{bytes, decimal};
ghost use Rattle.rules.specs.Reason.{threads_from, spaced, numbers_line, chain_line};
ghost use Rattle.text.specs.Put.{Put};
ghost use Rattle.dispatcher.specs.Shown.{shown};
ghost use Rattle.reason_sheet.specs.Later.{linked_thread, later};

use dispatcher::Machine;
use rules::{Hold, Running, Thread};
use tables::lives::count_live;
use tables::lookup::{thread_at, timeslice_at};
use text::{put_byte, put_bytes, put_decimal};

// The thread that a link leads to.
fn linked_thread(hold: Hold) -> Option<u8>
    ensures { result ≡ cond (linked hold) (Some (linked_thread hold)) None }
{
    match hold {
        Hold::Calling(server) | Hold::Helping(server) => Some(server),
        Hold::Ready | Hold::Idle | Hold::Blocked => None,
    }
}

// A space before the next thread.
fn put_next(out: &mut [u8], at: usize, n: u8) -> usize
    ensures { Put out.old out.new at result (bytes " " ++ decimal n) }
{
    let space = put_byte(out, at, b' ');
    put_decimal(out, space, n as u64)
}

// The threads after this one, over so many links, and the line feed.
fn put_later(out: &mut [u8], at: usize, threads: [Thread; 128], links: u8, from: u8) -> usize
    ensures { Put out.old out.new at result (spaced (later links threads from)) }
{
    let mut place = at;
    let mut n = from;
    for _ in 0..links {
        let Some(next) = linked_thread(thread_at(threads, n).hold) else {
            break;
        };
        n = next;
        place = put_next(out, place, n);
    }
    put_byte(out, place, b'\n')
}

fn put_chain(out: &mut [u8], at: usize, threads: [Thread; 128], links: u8, from: u8) -> usize
    ensures { Put out.old out.new at result (numbers_line (threads_from links threads from)) }
{
    let next = put_decimal(out, at, from as u64);
    put_later(out, next, threads, links, from)
}

pub fn put_chain_line(out: &mut [u8], machine: Machine) -> usize
    ensures { Put out.old out.new 0 result (chain_line (shown machine) machine.running) }
{
    let Running::Runs { timeslice, .. } = machine.running else {
        return put_bytes(out, 0, b"-\n");
    };
    let threads = machine.threads;
    let current = timeslice_at(machine.timeslices, timeslice);
    put_chain(out, 0, threads, count_live(threads), current.owner)
}
