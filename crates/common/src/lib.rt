// What several crates share, for specs and proofs alone: folds, counts and sums with their laws, a filled list, tests joined, and
// the pillow, a mesh of two triangles back to back. There is no code here.
#![tactic(auto)]
