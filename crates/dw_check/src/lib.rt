//! Produces the output of each `dwcheck` command, from the words of its command line and its files.
#![tactic(auto)]

mod caller_text;
mod evaluations;
mod files;
pub mod laws;
mod lines;
mod locations;
mod numbers;
mod outcomes;
mod output;
mod process;
mod reports;
mod runs;
mod sink;
mod source;
mod stop;
mod walk_text;
mod writer;

pub use dw_requests::{End, ListLookup, Request, Task, Usage, request};
pub use dw_sections::{CheckFault, Checked, Section, backtrace, check, unwind, unwind_with};
pub use dw_unwind::{Answer, Backtrace, Caller, Frame, Stop};
pub use reports::report;
pub use runs::run;
pub use sink::{Sink, Stopped, Through};
pub use source::{LoadFault, Reading, Reads, Source, load};
pub use stop::ReportFault;
