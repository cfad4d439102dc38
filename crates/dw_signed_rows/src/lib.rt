//! Where return addresses are signed, by the programs of an `.eh_frame` section for aarch64.
#![tactic(auto)]

pub mod laws;
mod signature;
mod signed_program;
mod signed_range;
mod signed_ranges;
mod signed_rows;

pub use signed_range::SignedRange;
pub use signed_ranges::SignedRanges;
pub use signed_rows::is_signed_in;
