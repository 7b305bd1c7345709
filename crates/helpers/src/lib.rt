// Marks that come and go with calls of private helpers: the smallest marks, by rounds, and that one search over the whole table finds them. No code.
#![tactic(auto)]
