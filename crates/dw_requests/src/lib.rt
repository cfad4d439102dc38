//! What the words of a command line of `dwcheck` ask for.
#![tactic(auto)]

mod arguments;
mod command_line;
mod found_words;
mod named_modules;
mod requests;

pub use arguments::request;
pub use requests::{End, ListLookup, Request, Task, Usage};
