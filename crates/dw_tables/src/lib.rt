//! Compiled tables: all rows of a checked frame section in order of address, so that look-ups are
//! fast and need neither the section nor its programs (DWARF 5, section 6.4.1).
#![tactic(auto)]

mod chosen_sets;
mod entry_starts;
mod expression_copies;
mod fde_rows;
pub mod laws;
mod numbered_program;
mod rule_numbers;
mod rule_set_numbers;
mod rule_sets;
mod rule_steps;
mod stored_table;
mod table;
mod table_entries;
mod table_room;

pub use table::UnwindTable;
