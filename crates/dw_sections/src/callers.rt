//! Unwinds one frame or a whole stack with the frame section of a `Checked`, a pair of sections
//! that were checked together.

ghost use Rattle.std.specs.Prelude.{◌≡◌, ◌<◌, ◌^◌, All, IfErr, IfOk, IfSome, IsOk, option_map};
ghost use Rattle.dw_bytes.specs.Answers.{memory as out_of_memory};
ghost use Rattle.dw_eval.specs.Numbers.{width_of};
ghost use Rattle.dw_rules.specs.Abi.{no_abi};
ghost use Rattle.dw_rules.specs.AbiViews.{roles_of};
ghost use Rattle.dw_unwind.specs.Caller.{Unwinds, machine};
ghost use Rattle.dw_unwind.specs.CallerFits.{CallerFits, FrameFits};
ghost use Rattle.dw_unwind.specs.CallerViews.{caller_in};
ghost use Rattle.dw_unwind.specs.Walks.{Walks, first_place, over_section};
ghost use Rattle.dw_unwind.specs.WalkViews.{frames_in};

use crate::whole_check::Checked;
use dw_bytes::Fault;
use dw_eval::{Memory, Registers};
use dw_rules::Abi;
use dw_unwind::{Backtrace, Caller};
use std::alloc::Global;

/// The caller of the frame at an address, given the frame's registers and memory, or none if no FDE
/// covers the address (DWARF 5, section 6.4.1). A register to which no instruction has given a rule
/// is undefined.
///
/// This is `unwind_with` under an ABI that gives no rules.
pub fn unwind<R: Registers, M: Memory>(
    checked: &Checked<'_>,
    address: u64,
    registers: &R,
    memory: &M,
) -> Option<Caller>
    ensures unwinds { Unwinds (machine checked.now.frame.target (R.contents registers.now)
        (M.bytes memory.now)) no_abi checked.now.frame address (option_map caller_in result) }

    // All numbers in the result are below 2^w, where w is the size of an address in bits.
    ensures fits { IfSome (option_map caller_in result)
        (CallerFits (2 ^ width_of checked.now.frame.target.address_size)) }
{
    unwind_with(checked, &Abi::none(), address, registers, memory)
}

/// The caller of the frame at an address, given the frame's registers and memory, or none if no FDE
/// covers the address (DWARF 5, section 6.4.1). For a register to which no instruction has given a
/// rule, `abi` supplies the rule.
///
/// This is `dw_unwind::unwind` with the checked frame section. One binary search finds the FDE,
/// another its CIE, and the FDE's program is run once, up to the row of the address.
pub fn unwind_with<R: Registers, M: Memory>(
    checked: &Checked<'_>,
    abi: &Abi,
    address: u64,
    registers: &R,
    memory: &M,
) -> Option<Caller>
    ensures unwinds { Unwinds (machine checked.now.frame.target (R.contents registers.now)
        (M.bytes memory.now)) (roles_of abi.now) checked.now.frame address
        (option_map caller_in result) }

    // All numbers in the result are below 2^w, where w is the size of an address in bits.
    ensures fits { IfSome (option_map caller_in result)
        (CallerFits (2 ^ width_of checked.now.frame.target.address_size)) }
{
    dw_unwind::unwind(checked.frame(), abi, address, registers, memory)
}

/// Walks up the stack from a frame, given its address, registers and memory: the frame, its caller,
/// that caller's caller and so on. Returns at most `limit` frames, and why there are no more (DWARF
/// 5, sections 6.4.1 and 6.4.4).
///
/// This is `dw_unwind::backtrace` with the checked frame section.
pub fn backtrace<R: Registers, M: Memory>(
    alloc: Global,
    checked: &Checked<'_>,
    abi: &Abi,
    address: u64,
    registers: &R,
    memory: &M,
    limit: u32,
) -> Result<Backtrace, Fault>
    ensures walks { IfOk result (λ walk.
        Walks (over_section checked.now.frame (roles_of abi.now) (M.bytes memory.now))
        (first_place address (R.contents registers.now)) limit
        (frames_in walk.frames.items) walk.stop) }
    ensures lacks { IfErr result (λ fault. fault ≡ out_of_memory) }
    ensures none { limit ≡ 0 → IsOk result }

    // All numbers in the result are below 2^w, where w is the size of an address in bits, if the
    // first frame's address is.
    ensures fits { IfOk result (λ walk.
        address < 2 ^ width_of checked.now.frame.target.address_size
        → All (FrameFits (2 ^ width_of checked.now.frame.target.address_size))
        (frames_in walk.frames.items)) }
{
    dw_unwind::backtrace(
        alloc,
        checked.frame(),
        abi,
        address,
        registers,
        memory,
        limit,
    )
}
