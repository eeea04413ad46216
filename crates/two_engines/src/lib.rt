#![tactic(auto)]
// The two engines side by side, document 02, [1]: a machine of the dispatcher as the plain engine takes it, and the keys of both. That they
// agree is proved in proofs/Demand.antt.
ghost use Rattle.std.specs.Prelude.{◌≡◌, take};
ghost use Rattle.rules.specs.State.{forget};
ghost use Rattle.rules.specs.EventFile.{file_refusal};
ghost use Rattle.rules.specs.Key.{key as key_of, plain_key, but_last};
ghost use Rattle.dispatcher.specs.Shown.{shown};
ghost use Rattle.plain_engine.specs.Shown.{plain_shown};
ghost use Rattle.two_engines.specs.Front.{AtFront};

use dispatcher::Machine;
use key_sheet::write_key;
use plain_engine::PlainMachine;
use plain_sheet::write_plain_key;
use rules::Slice;

// "the plain engine takes it without the places"
pub fn without_places(machine: Machine) -> PlainMachine
    ensures { plain_shown result ≡ forget (shown machine) }
{
    PlainMachine {
        threads: machine.threads,
        slices: machine.timeslices.map(Slice::from),
        order: machine.turn_order(),
        live: machine.live_timeslices,
        running: machine.running,
    }
}

// How many bytes the key of a file has, and how many the plain machine's.
#[derive(Clone, Copy)]
pub struct Written {
    pub key: usize,
    pub plain: usize,
}

// Writes both keys of a file, each at the front of its buffer. They are equal, line by line, but for the last column.
pub fn write_both(
    file: &[u8],
    key: &mut [u8; key_sheet::ROOM],
    plain: &mut [u8; plain_sheet::ROOM],
) -> Written
    ensures at_front { (AtFront (key_of file.now) key.old key.new result.key)
        × (AtFront (plain_key file.now) plain.old plain.new result.plain) }
    ensures agree { take result.plain plain.new
        ≡ but_last (file_refusal file.now) (take result.key key.new) }
{
    let first = write_key(file, key);
    let second = write_plain_key(file, plain);
    Written {
        key: first,
        plain: second,
    }
}
