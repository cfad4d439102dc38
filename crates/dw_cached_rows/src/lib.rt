//! A cache of rows for walks that recur: which rows it has, and walks of x86-64's stacks with these
//! rows alone.
#![tactic(auto)]

mod cached_rows;
mod keep;
pub mod laws;
mod packed_compact;
mod packed_row;
mod realigned_row;
mod register_place;
mod register_walk;
mod stack_place;
mod walk;

pub use cached_rows::CachedRows;
pub use packed_row::{PackedRow, R12, R13, R14, R15, RBP, RBX, RSP, SLOTS};
pub use register_place::{FrameWithRegisters, RegisterPlace};
pub use stack_place::StackPlace;
pub use walk::WalkEnd;
