//! Why a state file can't be read.

ghost use Rattle.std.specs.Prelude.{◌≡◌};
ghost use Rattle.dw_state.specs.declared.state_fault.StateFault.TheVariants as faults;

use std::alloc::AllocError;

/// Why a state file can't be read.
#[derive(Clone, Copy, Debug, PartialEq, Eq)]
pub enum StateFault {
    /// The line with this number, counted from 1, is malformed, contradicts earlier lines, or names
    /// one callee-saved register too many.
    Line(u64),
    /// Memory ran out.
    Memory,
}

impl From<AllocError> for StateFault {
    ghost from_gives = { λ _ e. e ≡ faults.Memory };

    fn from(_: AllocError) -> Self {
        StateFault::Memory
    }
}
