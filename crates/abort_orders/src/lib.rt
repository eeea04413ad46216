#![tactic(auto)]
// Document 02, [12]: abort orders from the second processor. What giving an order and taking the orders answer, and what they leave in the
// store and in the machine, is defined in specs/Orders.antt.
ghost use Rattle.std.specs.Prelude.{◌≡◌};
ghost use Rattle.rules.specs.RefusalNumbers.{number_in};
ghost use Rattle.abort_orders.specs.Orders.{empty_store, give_abort, give_withdraw};
ghost use Rattle.abort_orders.specs.Promises.{Takes};

mod applying;
mod finding;
mod giving;

use applying::apply_all;
use dispatcher::Machine;
use giving::give;
use rules::Refusal;

// "an order number of 4 bytes, and abort or withdraw", or no order.
// No order is a case beside the two and not a `None`: the stated definitions (specs/Orders.antt) speak of the three.
#[derive(Clone, Copy, Debug, PartialEq, Eq)]
pub enum Order {
    Nothing,
    Abort(u32),
    Withdraw(u32),
}

// "Keep one order for each thread".
#[derive(Clone, Copy)]
pub struct Store {
    pub orders: [Order; 128],
}

// What taking the orders hands back: "the machine, the cleared store and the count", or why it is refused.
#[derive(Clone, Copy)]
pub struct Taken {
    pub machine: Machine,
    pub store: Store,
    pub answer: Result<u8, Refusal>,
}

// A thread whose abort is held, with its order number: "from the smallest order number up, equal numbers by smaller thread first".
#[derive(Clone, Copy, Debug, PartialEq, Eq, PartialOrd, Ord)]
pub struct HeldAbort {
    pub number: u32,
    pub thread: u8,
}

impl Store {
    // No order is held.
    pub fn empty() -> Store
        ensures { result ≡ empty_store }
    {
        Store {
            orders: [Order::Nothing; 128],
        }
    }

    #[tactic(auto, unfolding(crate::specs::Orders::give_abort))]
    pub fn give_abort(&mut self, thread: u8, number: u32) -> Result<(), Refusal>
        ensures { record { store = self.new; refusal = number_in result } ≡ give_abort self.old thread number }
    {
        give(self, thread, number, Order::Abort(number))
    }

    #[tactic(auto, unfolding(crate::specs::Orders::give_withdraw))]
    pub fn give_withdraw(&mut self, thread: u8, number: u32) -> Result<(), Refusal>
        ensures { record { store = self.new; refusal = number_in result } ≡ give_withdraw self.old thread number }
    {
        give(self, thread, number, Order::Withdraw(number))
    }

    // "Taking the orders applies held aborts .., clears the store, and counts aborts refused with 4 or 10." The machine's soundness is
    // tested once, here.
    #[tactic(auto, using(crate::proofs::Answering::refused_with_1, crate::proofs::Answering::take_done))]
    pub fn take(self, mut machine: Machine) -> Taken
        ensures { Takes self machine result }
    {
        if !machine.is_sound() {
            return Taken {
                machine,
                store: self,
                answer: Err(Refusal::Unsound),
            };
        }
        let count = apply_all(self, &mut machine);
        Taken {
            machine,
            store: Store::empty(),
            answer: Ok(count),
        }
    }
}
