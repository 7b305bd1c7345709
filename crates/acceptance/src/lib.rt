// What a table gives: refusals 2, 3, 4, 18 and 19 said of bytes and rows, 11 to 14 by walks, and what an accepted table gives at the end of every walk. No code.
#![tactic(auto)]
