//! State files of `dwcheck`: the registers, the memory and the ABI that their lines give, and
//! numbers and addresses as text.
#![tactic(auto)]

mod abi_registers;
mod addresses;
mod machine_state;
mod split;
mod state_fault;
mod state_line;

pub use addresses::{parse_address, parse_offset, parse_short};
pub use machine_state::{MachineState, read_state};
pub use state_fault::StateFault;
