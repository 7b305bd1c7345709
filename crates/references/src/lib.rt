// The instructions that work through references: ReadRef, WriteRef and BorrowFld.
#![tactic(auto)]

pub mod targets;
