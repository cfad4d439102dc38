//! The limit on the bytes that a compiled table may take, and the reasons why no table is made.

ghost use Rattle.std.specs.Prelude.{◌≡◌, ◌+◌, IfOk, IfErr};
ghost use Rattle.dw_tables.specs.declared.table_room.Unmade.TheVariants.{Memory};
ghost use Rattle.dw_tables.specs.CompiledTable.{LacksRoom};

use std::alloc::{AllocError, AllocFailed};

/// Why a compiled table wasn't made.
#[derive(Clone, Copy, Debug, PartialEq, Eq)]
pub(crate) enum Unmade {
    /// Memory couldn't be allocated, there would be too many rule sets (`MOST_BYTES`), or a count
    /// doesn't fit in 32 bits.
    Memory,
    /// The table would take more bytes than it may.
    Room,
}

impl From<AllocError> for Unmade {
    ghost from_gives = { λ _ why. why ≡ Memory };

    fn from(_: AllocError) -> Self {
        Unmade::Memory
    }
}

impl<T: Drop> From<AllocFailed<T>> for Unmade {
    ghost from_gives = { λ _ why. why ≡ Memory };

    fn from(_: AllocFailed<T>) -> Self {
        Unmade::Memory
    }
}

/// How many of `room` bytes are left once `taken` more are used. If `room` is less than `taken`,
/// the result is `Unmade::Room`.
pub(crate) fn less_room(room: usize, taken: usize) -> Result<usize, Unmade>
    ensures left { IfOk result (λ left. left + taken ≡ room) }
    ensures short { IfErr result (λ why. LacksRoom why room taken) }
{
    match room.checked_sub(taken) {
        Some(left) => Ok(left),
        None => Err(Unmade::Room),
    }
}
