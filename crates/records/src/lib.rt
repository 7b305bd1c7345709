// The instructions that work on records and the store: Pack, Unpack, MoveTo, MoveFrom, BorrowGlobal and Exists.
#![tactic(auto)]

pub mod packing;
pub mod published;
