// Where procedures stand and how large they are, in a table that the passes length, rows and names accept. No code.
#![tactic(auto)]
