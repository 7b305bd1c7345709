// Tables and lists in whose histories everything happens that demand 3 speaks of, and some that a weaker judge would let break it, by computation. No code.
#![tactic(auto)]
