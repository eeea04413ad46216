#![tactic(auto)]
// Document 01's marked sequences and rows of our own, computed: proofs/MarkedSequences.antt and proofs/MarkedReasons.antt. They stand above
// `rules`, so that a must-fail edit of a definition pays for the theorems that refuse it, and not for every row.
