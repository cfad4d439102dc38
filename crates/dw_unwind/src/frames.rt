//! The results of a walk up the stack.

use crate::unwinding::{Answer, Caller};

/// A frame of a walk up the stack.
#[derive(Clone, Debug, Drop, PartialEq, Eq)]
pub struct Frame {
    /// The frame's address. For frame 0 it is the address that was passed to the walk. For each
    /// later frame it is the return address of the frame before it.
    pub address: u64,
    /// The frame's caller. Frame 0 is looked up at its own address, and each later frame at its
    /// address minus 1, since a call may be the last instruction that an FDE covers (DWARF 5,
    /// section 6.4.4). The caller is none if and only if no FDE covers the address that is looked
    /// up, or a later frame is at address 0, so that there is no address to look up.
    pub caller: Option<Caller>,
}

/// A frame of a walk without the registers of its caller.
#[derive(Clone, Copy, Debug, PartialEq, Eq)]
pub struct BriefFrame {
    /// The frame's address, as in `Frame`.
    pub address: u64,
    /// The frame's canonical frame address, none if and only if the frame's caller is none, as in
    /// `Frame`.
    pub cfa: Option<Answer>,
}

/// Why a walk ends.
#[derive(Clone, Copy, Debug, PartialEq, Eq)]
pub enum Stop {
    /// The limit on frames was reached, whether or not another frame follows. Only a `Backtrace`
    /// has this reason: a `Walk` has no limit.
    Limit,
    /// No FDE covers the address that is looked up for the last frame, or the last frame is a
    /// caller at address 0, so that there is no address to look up.
    NotCovered,
    /// The last frame's return address is undefined: the walk is complete (DWARF 5, section 6.4.4).
    ReturnUndefined,
    /// The last frame's return address, or the CFA that it needs, requires a register or memory
    /// that isn't known, or a read that goes past the greatest address.
    ReturnUnreadable,
    /// The expression of the last frame's return address, or of the CFA that it needs, divides by
    /// zero.
    ReturnDivisionByZero,
}

/// The frames of a walk up the stack, the innermost first, and why they end.
///
/// ```rust
/// let walk = backtrace(alloc, &checked, &abi, 0x1010, &registers, &memory, 64)?;
/// for frame in walk.frames.as_slice() {
///     println!(rt; "{:#x}", frame.address)?;
/// }
/// if walk.stop == Stop::ReturnUndefined {
///     println!(rt; "that is all of them")?;
/// }
/// ```
#[derive(Clone, Debug, Drop, PartialEq, Eq)]
pub struct Backtrace {
    /// The frames, at most as many as the limit.
    pub frames: Vec<Frame>,
    /// Why there are no more frames.
    pub stop: Stop,
}
