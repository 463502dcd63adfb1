// The instructions of a bundle, decoded from their records.
#![tactic(auto)]

pub mod constants;
pub mod decoding;
pub mod fields;
pub mod instructions;
pub mod kind;
pub mod local_id;
pub mod loop_flags;

pub use constants::{constant_allowed, read_constant};
pub use decoding::decode;
pub use kind::fields_of_kind;
