// Matrices of whole numbers. The definitions and laws of this layer; it has no functions.
#![tactic(auto)]
