#![tactic(auto)]
// Functions on the stored tables of threads and timeslices. Each public one is total: its contract is an equation for every table and every
// number, also for a number past the end of a table and for more live entries than a turn order has room for.
pub mod ends;
pub mod lives;
pub mod lookup;
pub mod numbers;
pub mod order;
pub mod records;
pub mod threads;
pub mod turns;
pub mod walk;
