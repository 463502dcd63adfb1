// The data-flow check of a code: every path to an instruction brings the same operand height and the same open marks.
#![tactic(auto)]

pub mod entry;
mod search;
pub mod shape;
pub mod table;
mod visit;

// At most this many operands, and this many open marks.
pub const MAX_HEIGHT: u32 = 64;

pub const MAX_MARKS: u32 = 16;

// A code has at most this many instructions.
pub const MAX_INSTRUCTIONS: usize = 1024;
