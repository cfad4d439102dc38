//! The caller of a frame: its CFA, its registers, and its return address.

ghost use Rattle.std.specs.Prelude.{◌≡◌, ◌^◌, ℕ, IfSome, option_map};
ghost use Rattle.dw_eval.specs.Numbers.{width_of};
ghost use Rattle.dw_rules.specs.Abi.{rule_under, rules_under};
ghost use Rattle.dw_rules.specs.AbiViews.{roles_of};
ghost use Rattle.dw_unwind.specs.Caller.{AreRegisters, IsRegister};
ghost use Rattle.dw_unwind.specs.CallerFits.{CallerFits};
ghost use Rattle.dw_unwind.specs.CallerViews.{answer_in, caller_in, machine_in};
ghost use Rattle.dw_unwind.specs.UnwoundViews.{caller_with};
ghost use Rattle.dw_unwind.specs.Walks.{over_rows};

use crate::packed_registers::PackedRegisters;
use crate::register_list::RegisterList;
use crate::rule_answers::Present;
use crate::unwind_rows::UnwindRows;
use crate::unwinder::Unwinder;
use arrayvec::ArrayVec;
use dw_eval::{Memory, Registers};
use dw_rules::{Abi, MAX_RULES, UnwindRow};

/// What unwinding finds for a caller's register, CFA or return address.
#[derive(Clone, Copy, Debug, PartialEq, Eq)]
pub enum Answer {
    /// The value, which is below 2^w, w being the size of an address in bits.
    Value(u64),
    /// The register isn't available: its rule is `undefined`, or the row has no rule for it and the
    /// ABI doesn't name it.
    Undefined,
    /// A register or memory that the answer depends on, possibly through the CFA, isn't known, or a
    /// read goes past the greatest address.
    Unreadable,
    /// An expression that the answer depends on, possibly the CFA's, divides by zero.
    DivisionByZero,
}

/// The default value fills the unused slots of a list.
impl Default for Answer {
    fn default() -> Self
        ensures { result ≡ Answer.Undefined }
    {
        Answer::Undefined
    }
}

/// The greatest number of registers that can have a rule, from a row and an ABI together.
pub const MAX_FOUND: usize = 2 * MAX_RULES;

/// Registers with their answers, in ascending order of register numbers.
pub type FoundRegisters = ArrayVec<(u16, Answer), MAX_FOUND>;

/// What unwinding finds for the caller of a frame (DWARF 5, section 6.4.1).
#[derive(Clone, Debug, Drop, PartialEq, Eq)]
pub struct Caller {
    /// The canonical frame address.
    pub cfa: Answer,
    /// Each register that has a rule other than `Default`, or that the ABI names, in ascending
    /// order of register numbers.
    pub registers: FoundRegisters,
    /// The return address: the answer for the CIE's return_address_register.
    pub return_address: Answer,
}

/// What an unwinding gives besides the registers of the caller.
#[derive(Clone, Copy, Debug)]
pub struct Unwound {
    /// The canonical frame address.
    pub cfa: Answer,
    /// The return address.
    pub return_address: Answer,
}

/// The return address: the answer for the register `number`. It is taken from `found`, the list of
/// the caller's registers, if the list can tell without a search. Otherwise it is computed by the
/// register's rule.
#[inline(always)]
fn return_address<R: Registers, M: Memory, L: RegisterList>(
    present: &Present<'_, R, M>,
    row: &UnwindRow<'_, '_>,
    abi: &Abi,
    cfa: Answer,
    number: u16,
    found: &L,
) -> Answer
    requires { AreRegisters (machine_in R.contents M.bytes present.now) (answer_in cfa)
        (rules_under (roles_of abi.now) row.now.rules) (L.registers found.now) }
    ensures { IsRegister (machine_in R.contents M.bytes present.now) (answer_in cfa) number
        (rule_under (roles_of abi.now) row.now.rules number) (answer_in result) }
{
    dw_rules::laws::rules_under_abis();
    match found.answer(number) {
        Some(answer) => answer,
        None => present.register(cfa, number, row.register_with(abi, number)),
    }
}

/// Finds the caller of the frame at `address` by the row of a section or a table, as `unwind` does,
/// but writes the caller's registers to `into`, replacing what is there. If there is no caller, the
/// contents of `into` are unspecified.
#[inline(always)]
pub(crate) fn unwind_into<T: UnwindRows, R: Registers, M: Memory, L: RegisterList>(
    rows: &T,
    abi: &Abi,
    address: u64,
    registers: &R,
    memory: &M,
    into: &mut L,
) -> Option<Unwound>
    ensures unwinds { over_rows (T.target_of rows.now) (T.finds rows.now) (roles_of abi.now)
        (M.bytes memory.now) (R.contents registers.now) address
        (option_map (caller_with (L.registers into.new)) result) }
    ensures fits { IfSome (option_map (caller_with (L.registers into.new)) result)
        (CallerFits (2 ^ width_of (T.target_of rows.now).address_size)) }
{
    // These laws are needed to show that all numbers of the caller are below 2^w.
    dw_rules::laws::rules_under_abis();
    dw_eval::laws::numbers_of_evaluations_fit();
    let mut slot = rows.slot();
    let Some((row, number)) = rows.find_row(address, &mut slot) else {
        return None;
    };
    let present = Present {
        target: rows.rows_target(),
        registers,
        memory,
    };
    let cfa = present.cfa(row.cfa());
    present.registers_into(cfa, row.rules_with(abi), into);
    Some(Unwound {
        cfa,
        return_address: return_address(&present, &row, abi, cfa, number, into),
    })
}

/// The caller of the frame at an address, computed from the frame's registers and memory with an
/// unwinder: a checked section, a compiled table, or the modules of a process. None if it has no
/// row at the address (DWARF 5, section 6.4.1). A register for which the row has no rule has the
/// ABI's rule.
///
/// Contents and sums are taken modulo 2^w, w being the size of an address in bits. A saved value is
/// an address-sized word in memory. If the CFA has no value, the answer of a rule that needs the
/// CFA is the CFA's answer. The cost is the look-up and one evaluation for each expression of the
/// row.
///
/// ```rust
/// let Some(table) = UnwindTable::compile(alloc, &frame, 1 << 20)? else {
///     return Ok(()); // its rows take more than that
/// };
/// let caller = unwind(&table, &abi, address, &registers, &memory);
/// let modules = [Module::new(program, 0x5555_5555_4000), Module::new(library, 0x7fff_f7dc_3000)];
/// let caller = unwind(&modules[..], &abi, address, &registers, &memory);
/// ```
pub fn unwind<U: Unwinder + Drop, R: Registers, M: Memory>(
    unwinder: U,
    abi: &Abi,
    address: u64,
    registers: &R,
    memory: &M,
) -> Option<Caller>
    ensures unwinds { U.unwinds unwinder (roles_of abi.now) (M.bytes memory.now)
        (R.contents registers.now) address (option_map caller_in result) }

    // All numbers of the caller are below 2^w, w being the size of an address in bits, or the
    // greatest size in a module.
    ensures fits { (bound : ℕ) → U.is_bound unwinder bound
        → IfSome (option_map caller_in result) (CallerFits bound) }
{
    let mut caller = Caller {
        cfa: Answer::Undefined,
        registers: FoundRegisters::new(),
        return_address: Answer::Undefined,
    };
    let unwound = unwinder.unwind_into(abi, address, registers, memory, &mut caller.registers)?;
    caller.cfa = unwound.cfa;
    caller.return_address = unwound.return_address;
    Some(caller)
}

/// Finds the caller of the frame at `address` with any unwinder, and writes the caller's registers
/// to `into`, replacing what is there. So no `Caller` of 6 KB is copied. If there is no caller,
/// what is in `into` is unspecified.
pub fn unwind_in_place<U: Unwinder, R: Registers, M: Memory>(
    unwinder: &U,
    abi: &Abi,
    address: u64,
    registers: &R,
    memory: &M,
    into: &mut PackedRegisters,
) -> Option<Unwound>
    ensures unwinds { U.unwinds unwinder.now (roles_of abi.now) (M.bytes memory.now)
        (R.contents registers.now) address (option_map (caller_with into.new) result) }
    ensures fits { (bound : ℕ) → U.is_bound unwinder.now bound
        → IfSome (option_map (caller_with into.new) result) (CallerFits bound) }
{
    unwinder.unwind_into(abi, address, registers, memory, into)
}
