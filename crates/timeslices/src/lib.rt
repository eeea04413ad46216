#![tactic(auto)]
// Functions on the stored timeslices, along the turn order that is read from the neighbours. Each public one is total: its contract is an
// equation for every table, every neighbours and every number.
pub mod heights;
pub mod rank;
pub mod release;
pub mod search;
