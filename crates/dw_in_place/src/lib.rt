//! Look-ups in `.eh_frame` in place, without preprocessing: the FDE of an address by the search
//! table of `.eh_frame_hdr`, and its row from that record and its CIE alone (LSB Core, section
//! 10.6).
#![tactic(auto)]

mod compact;
mod frame_in_place;
mod in_place;
pub mod laws;
mod leads;
mod look_up;
mod record_offset;
mod scan;
mod search_table;
mod section_in_place;

pub use compact::{
    CompactAnswer, compact_row_by_records_in, compact_row_for_address_in, compact_row_in_place,
};
pub use frame_in_place::FrameInPlace;
pub use leads::leads_to_all;
pub use look_up::{LookUpMemory, row_by_records_in, row_for_address_in, row_in_place};
pub use search_table::SearchTable;
pub use section_in_place::SectionInPlace;
