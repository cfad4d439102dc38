//! Walks up the stack, and returns the frames as a list.

ghost use Rattle.std.specs.Prelude.{◌≡◌, ◌<◌, ℕ, All, IfErr, IfOk, IsOk};
ghost use Rattle.dw_bytes.specs.Answers.{memory as out_of_memory};
ghost use Rattle.dw_rules.specs.AbiViews.{roles_of};
ghost use Rattle.dw_unwind.specs.CallerFits.{FrameFits};
ghost use Rattle.dw_unwind.specs.Walks.{Walks, first_place};
ghost use Rattle.dw_unwind.specs.WalkViews.{frames_in};

use crate::frames::{Backtrace, Stop};
use crate::unwinder::Unwinder;
use crate::walk::Walk;
use dw_bytes::Fault;
use dw_eval::{Memory, Registers};
use dw_rules::Abi;
use std::alloc::Global;

/// Walks up the stack with an unwinder, which is a checked section, a compiled table, or the
/// modules of a process: from the first frame, whose address, registers and memory are passed, to
/// its caller, the caller's caller and so on. Returns at most `limit` frames, and why there are no
/// more (DWARF 5, sections 6.4.1 and 6.4.4).
///
/// Frame 0 is looked up at its own address, each later frame at its address minus 1. After frame 0,
/// a register has a value only if unwinding found a value for it. Each frame costs what `unwind`
/// costs, and takes some 6 KB, since a caller has room for all registers that a row and an ABI can
/// name. `Walk` gives the same frames one by one and allocates nothing. The only fault is `Memory`
/// (out of memory), with offset 0.
pub fn backtrace<U: Unwinder + Drop, R: Registers, M: Memory>(
    alloc: Global,
    unwinder: U,
    abi: &Abi,
    address: u64,
    registers: &R,
    memory: &M,
    limit: u32,
) -> Result<Backtrace, Fault>
    ensures walks { IfOk result (λ walk.
        Walks (U.unwinds unwinder (roles_of abi.now) (M.bytes memory.now))
        (first_place address (R.contents registers.now)) limit
        (frames_in walk.frames.items) walk.stop) }
    ensures lacks { IfErr result (λ fault. fault ≡ out_of_memory) }
    ensures none { limit ≡ 0 → IsOk result }

    // All numbers are below 2^w, w being the size of an address in bits, or the greatest size in a
    // module, if the first frame's address is.
    ensures fits { IfOk result (λ walk. (bound : ℕ) → U.is_bound unwinder bound
        → address < bound → All (FrameFits bound) (frames_in walk.frames.items)) }
{
    let mut walk = Walk::new(unwinder, abi, address, registers, memory);
    let mut frames = Vec::new(alloc);
    while (frames.len() as u64) < u64::from(limit) {
        if let Err(stop) = walk.advance() {
            return Ok(Backtrace { frames, stop });
        }
        frames.push(walk.frame())?;
    }
    Ok(Backtrace {
        frames,
        stop: Stop::Limit,
    })
}
