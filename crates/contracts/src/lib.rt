// What it is for a contract to leave one answer, and what can be seen of a slice that a call hands back. There is no code here.
// Every crate with public calls proves of each that its contract leaves one answer, in its proofs/OneAnswer.
// Promised: nothing by itself; the two definitions are what those theorems say.

#![tactic(auto)]
