//! Checks DWARF expressions on all paths at once (DWARF 5, sections 2.5 and 2.6): whichever way the
//! branches go, the stack never has too few or too many entries.
#![tactic(auto)]

mod branchless_check;
mod certificate;
mod checked;
mod effect;
mod in_state;
pub mod laws;
mod operation_check;
mod pass;
mod register;
mod state;
mod step;
mod target;
mod verify;

pub use certificate::Certificate;
pub use checked::CheckedExpression;
pub use operation_check::{MAX_HEIGHT, MAX_PIECES};
pub use register::check_register;
pub use state::{Kind, Mode, State};
pub use verify::{CertFault, certify, check_expression, recheck};
