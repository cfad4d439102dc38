//! Expressions of DWARF and their operations (DWARF 5, sections 2.5 and 7.7).
#![tactic(auto)]

mod decode;
mod expression;
pub mod laws;
mod list;
mod operation;

pub use decode::{BaseRegister, decode_base_register, decode_one};
pub use expression::Expression;
pub use list::operations;
pub use operation::Operation;
