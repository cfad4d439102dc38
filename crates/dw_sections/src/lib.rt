//! Checks a `.debug_frame` and a `.debug_loclists` section together, and unwinds stacks with them.
#![tactic(auto)]

mod callers;
pub mod laws;
mod section;
mod whole_check;

pub use callers::{backtrace, unwind, unwind_with};
pub use section::Section;
pub use whole_check::{CheckFault, Checked, SECTION_LIMIT, TOO_LONG, check};
