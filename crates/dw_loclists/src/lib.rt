//! The location lists of a `.debug_loclists` section (DWARF 5, sections 2.6.2, 7.7.3 and 7.29).
#![tactic(auto)]

mod entry;
mod expressions;
mod find;
pub mod laws;
mod list;
mod lists;
mod locations;
mod one_list;
mod stored_lists;
mod stored_section;
mod table;
mod walk;

pub use expressions::Expressions;
pub use lists::{CheckedLists, check_lists};
pub use locations::LocationsAt;
pub use one_list::{CheckedList, check_list};
pub use stored_section::LocationList;
