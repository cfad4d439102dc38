//! Rows as compilers write them, in few bytes: the CFA is a register plus an offset, and registers are
//! saved at offsets from it. They are found by one pass over the programs of a CIE and an FDE (DWARF 5,
//! section 6.4), which takes little stack.
#![tactic(auto)]

mod cie_rules;
mod compact_program;
mod compact_rules;
mod one_pass;
mod steps;

pub use cie_rules::compact_rules_of_cie;
pub use compact_rules::{CompactRules, REGISTERS, UNDEFINED};
pub use one_pass::{CompactRow, compact_row};
