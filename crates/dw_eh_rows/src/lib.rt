//! The check of an `.eh_frame` section, and which rows it gives.
#![tactic(auto)]

mod check;
mod counts;
mod kept_records;
pub mod laws;
mod short_range;
mod signals;
mod tally;

pub use check::{check_eh_frame, list_eh_frame};
pub use counts::{SectionCounts, count_eh_frame, counts_of};
pub use kept_records::{KeptRecords, LeftOutRecord, check_eh_frame_leaving_out};
pub use signals::{SignalRange, cie_after, is_signal_address, signal_frames, signal_frames_of};
