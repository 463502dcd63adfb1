// The operands of a run.
#![tactic(auto)]

pub mod operand;
pub mod stack;
