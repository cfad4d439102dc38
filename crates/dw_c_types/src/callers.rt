//! C's structs for the caller of a frame and for a register of that caller, and functions that find
//! a caller and write it to these structs.

ghost use Rattle.std.specs.Prelude.{◌≡◌, ◌≤◌, ◌^◌, IfSome, map, option_map};
ghost use Rattle.dw_eval.specs.Numbers.{width_of};
ghost use Rattle.dw_rules.specs.AbiViews.{roles_of};
ghost use Rattle.dw_unwind.specs.CallerFits.{CallerFits};
ghost use Rattle.dw_unwind.specs.CallerViews.{answer_in};
ghost use Rattle.dw_unwind.specs.UnwoundViews.{caller_with};
ghost use Rattle.dw_c_types.specs.Callers.{ShowsCaller, cregister_of};
ghost use Rattle.dw_c_types.specs.ProcessWalks.{over_process};
ghost use Rattle.dw_c_types.specs.Slots.{put_into};

use crate::answer::{CAnswer, c_answer_of};
use crate::slots::put;
use dw_eval::{Memory, Registers};
use dw_process::Process;
use dw_rules::Abi;
use dw_unwind::{Answer, MAX_FOUND, PackedRegisters, Unwound, unwind_in_place};

/// A register of a caller: its number, and what is known of its content. `kind` and `value` have
/// the same meaning as in `CAnswer`.
#[repr(C)]
#[derive(Clone, Copy, Debug)]
pub struct CRegister {
    pub value: u64,
    pub kind: u32,
    pub number: u32,
}

/// A caller: its canonical frame address (CFA), its return address, and the number of registers
/// for which the row or the ABI gives a rule.
#[repr(C)]
#[derive(Clone, Copy, Debug)]
pub struct CCaller {
    pub cfa: CAnswer,
    pub return_address: CAnswer,
    pub count: u64,
}

/// Converts a register's number and what is known of its content to C's struct.
fn c_register_of(number: u16, answer: Answer) -> CRegister
    ensures { result ≡ cregister_of (number, answer_in answer) }
{
    let shown = c_answer_of(answer);
    CRegister {
        value: shown.value,
        kind: shown.kind,
        number: u32::from(number),
    }
}

/// Writes registers to `slots`, as many as fit.
fn write_registers(found: &PackedRegisters, slots: &mut [CRegister])
    ensures { slots.new ≡ put_into (map cregister_of found.now) slots.old }
{
    for index in 0..found.len() {
        if let Some((number, answer)) = found.get(index) {
            put(slots, index, c_register_of(number, answer));
        }
    }
}

/// Writes a caller to `out`, and its registers, which are in `found`, to `slots`, as many as fit.
pub fn write_caller(
    unwound: Unwound,
    found: &PackedRegisters,
    out: &mut CCaller,
    slots: &mut [CRegister],
)
    ensures caller { ShowsCaller (caller_with found.now unwound) out.new slots.old slots.new }
    ensures few { out.new.count ≤ MAX_FOUND }
{
    write_registers(found, slots);
    *out = CCaller {
        cfa: c_answer_of(unwound.cfa),
        return_address: c_answer_of(unwound.return_address),
        count: found.len() as u64,
    };
}

/// The caller of the frame at `address`, computed with the row of the module whose range contains
/// `address`. Its registers replace what is in `into`. `None` if no module has a row for it.
pub fn caller_through<R: Registers, M: Memory>(
    process: &Process,
    abi: &Abi,
    address: u64,
    registers: &R,
    memory: &M,
    into: &mut PackedRegisters,
) -> Option<Unwound>
    ensures unwinds { over_process (roles_of abi.now) (M.bytes memory.now) process.now
        (R.contents registers.now) address (option_map (caller_with into.new) result) }
    ensures fits { IfSome (option_map (caller_with into.new) result)
        (CallerFits (2 ^ width_of process.now.target.address_size)) }
{
    unwind_in_place(&process, abi, address, registers, memory, into)
}
