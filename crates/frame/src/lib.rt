// The instructions that work on frames: Pop, LoadConst, locals, Call, Ret, BranchCond and Op.
#![tactic(auto)]

pub mod control;
pub mod operations;
pub mod stack;
