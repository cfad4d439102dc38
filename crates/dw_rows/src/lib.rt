//! Checks frame sections, and finds the rows of their unwind tables (DWARF 5, section 6.4). It reads
//! `.debug_frame` itself, and takes the records of an `.eh_frame` section.
#![tactic(auto)]

mod checked_expressions;
mod checked_frame;
mod cie_search;
mod few_expressions;
mod index;
pub mod laws;
mod listed_frame;
mod lookup;
mod program_checks;
mod quick_check;
mod record_checks;
mod row_cursor;
mod row_iter;
mod rows_in;

pub use checked_expressions::CheckedExpressions;
pub use checked_frame::{CheckedFrame, check_frame, check_records};
pub use dw_rules::{Abi, CfaRule, MAX_REMEMBERED, RegisterRule, UnwindContext, UnwindTableRow};
pub use few_expressions::MAX_FEW;
pub use index::IndexEntry;
pub use listed_frame::{ListedFrame, UncheckedFrame, list_records};
pub use lookup::{lend_row, seek_row};
pub use program_checks::{check_cie, check_cie_program, check_fde, quick_or_full_check};
pub use quick_check::quick_row_count;
pub use record_checks::NOT_COUNTED;
pub use row_iter::Rows;
pub use rows_in::RowsIn;
