#![tactic(auto)]

// Definitions and laws that know nothing of Move: passes that stop at the first fault, lists, little-endian numbers. No code.
