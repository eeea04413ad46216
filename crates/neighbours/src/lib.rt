#![tactic(auto)]
// Document 02, [8]: the turn order as neighbours. Two arrays, the sides, have for each timeslice the one before and the one after. Entry
// 128 is the list's own: after it comes the first and before it the last, so that no end is a case of its own. Each public function is
// total: its contract is an equation for all arrays and numbers.
pub mod forming;
pub mod joining;
pub mod reading;
pub mod sides;
pub mod standing;
