#![tactic(auto)]
// The bits of a number, for words and bytes that hold a mark for each of several things: definitions and laws alone.
