#![tactic(auto)]
// Document 02, [14]: the order of wakes does not matter. Theorems alone, about the definitions (proofs/EitherWay.antt, AnyOrder.antt and
// Sums.antt) and about the dispatcher's methods (proofs/Methods.antt); they stand above both, so that no edit of those pays for them.
