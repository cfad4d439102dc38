//! The modules of a process, with compiled tables that processes share.
#![tactic(auto)]

mod address_range;
mod both_sections;
mod eh_frame;
mod found_row;
pub mod laws;
mod loaded_module;
mod module_guesses;
mod module_map;
mod module_rows;
mod process;
mod ranges;
mod ready_module;
mod refusal;
mod row_cache;
mod shared_marks;
mod shared_table;

pub use address_range::AddressRange;
pub use both_sections::{BothSections, TableRooms};
pub use eh_frame::EhSection;
pub use found_row::FoundRow;
pub use loaded_module::LoadedModule;
pub use module_rows::ModuleRows;
pub use process::Process;
pub use refusal::{BothRefusal, Refusal};
pub use row_cache::{NoHints, ProcessSlot, RowCache, RowHint, RowHints};
pub use shared_marks::{FrameMarks, SharedMarks};
pub use shared_table::SharedTable;
