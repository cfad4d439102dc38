//! The records of a `.debug_frame` section and the instructions of their programs (DWARF 5,
//! sections 6.4 and 7.24).
#![tactic(auto)]

mod call_frame_instruction;
mod decode;
mod dialect;
mod entry;
mod header;
mod instructions;
pub mod laws;
mod program;
mod records;
mod sections;

pub use call_frame_instruction::{CallFrameInstruction, UnwindExpression};
pub use decode::instruction;
pub use dialect::Dialect;
pub use entry::{CommonInformationEntry, Entry, FrameDescriptionEntry};
pub use header::{CieHeader, read_version};
pub use instructions::Instructions;
pub use program::Program;
pub use records::Entries;
pub use sections::{cie_at, entries};
