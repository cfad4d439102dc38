//! C's structs: what C passes to the library and what it gets, and what they mean. The calls
//! themselves are in `dwcheck_c`.
#![tactic(auto)]

pub mod answer;
pub mod callers;
pub mod context;
pub mod fault;
pub mod location;
pub mod memory;
pub mod row;
pub mod slots;
pub mod state;
pub mod status;
pub mod target;
pub mod value;
