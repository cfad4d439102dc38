//! Reads `.eh_frame` sections (LSB Core, section 10.6), as records of DWARF.
#![tactic(auto)]

mod augmentation;
mod copies;
mod dialect;
mod first_fdes;
mod head;
mod items;
pub mod laws;
mod pointer;
mod record;
mod records;

pub use augmentation::Augmentation;
pub use copies::without_copies;
pub use items::eh_item_after;
pub use pointer::{Bases, PointerBase, PointerEncoding, PointerFormat};
pub use record::{EhCie, EhFde, EhRecord, eh_record, eh_record_after, usual_fde};
pub use records::{EhRecords, eh_records, eh_records_with_copies, has_cie};
