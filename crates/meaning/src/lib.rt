// What the papers mean: packets, blocks, labels, Definitions 1 and 2 of document 000, the verdict, the fault listing,
// strips, form and refusals, and sizes, over any list of field sizes. There is no code here.
// specs/ is what a reader has to believe; specs/Lib.antt gives the order and the notation. proofs/ is what follows.
// Promised: a table and a policy have one verdict and one listing; "conforms" means consistent, sound and complete; a
// listing tells every fault once; each law is proved once for all fields. docs/THEOREMS.md has a line for each.

#![tactic(auto)]
