//! Finds the caller of a frame, and walks up the stack, with the rows of checked sections or
//! compiled tables: with a single section or table, or through the modules of a process.
#![tactic(auto)]

mod backtraces;
mod caller_contents;
mod frame_registers;
mod frames;
mod kept_registers;
pub mod laws;
mod missing_places;
mod modules;
mod one_row;
mod packed_registers;
mod register_file;
mod register_list;
mod rule_answers;
mod section_unwinder;
mod unwind_rows;
mod unwinder;
mod unwinding;
mod usual_step;
mod walk;

pub use backtraces::backtrace;
pub use caller_contents::NoPlace;
pub use frame_registers::FrameRegisters;
pub use frames::{Backtrace, BriefFrame, Frame, Stop};
pub use kept_registers::KeptRegisters;
pub use modules::{Module, as_linked};
pub use one_row::OneRow;
pub use packed_registers::PackedRegisters;
pub use register_file::{PLACES, RegisterFile};
pub use unwind_rows::UnwindRows;
pub use unwinder::Unwinder;
pub use unwinding::{Answer, Caller, FoundRegisters, MAX_FOUND, Unwound, unwind, unwind_in_place};
pub use usual_step::step_in_place;
pub use walk::{Walk, return_address};
