// "A later number supersedes what is held for that thread."
ghost use Rattle.std.specs.Prelude.{◌≡◌};
ghost use Rattle.rules.specs.RefusalNumbers.{number_in};
ghost use Rattle.abort_orders.specs.Orders.{not_above, order_refusal, given_after};

use crate::{Order, Store};
use rules::Refusal;

// "order number not above the one held for that thread"
fn is_not_above(number: u32, held: Order) -> bool
    ensures { result ≡ not_above number held }
{
    matches!(held, Order::Abort(n) | Order::Withdraw(n) if number <= n)
}

#[tactic(auto, unfolding(crate::specs::Orders::order_refusal))]
pub(crate) fn give(store: &mut Store, thread: u8, number: u32, order: Order) -> Result<(), Refusal>
    ensures { record { store = store.new; refusal = number_in result }
        ≡ given_after (order_refusal store.old thread number) store.old thread order }
{
    if 127 < thread {
        return Err(Refusal::AboveLimit);
    }
    if is_not_above(number, store.orders[usize::from(thread)]) {
        return Err(Refusal::NotAboveHeld);
    }
    store.orders[usize::from(thread)] = order;
    Ok(())
}
