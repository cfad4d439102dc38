//! The usual step of a walk: the contents of the callee-saved registers stay where they are, and
//! the registers that the row saves in memory are read.

ghost use Rattle.std.specs.Prelude.{◌≡◌, ◌<◌, ℕ, ℤ, All, IfSome, List, MatchOption, Option, Some, map};
ghost use Rattle.std.specs.Bool.{OnTrue};
ghost use Rattle.dw_rules.specs.Abi.{abi_of, rule_under};
ghost use Rattle.dw_rules.specs.Rules.{IsTable, RuleOver, rule_in};
ghost use Rattle.dw_rules.specs.SavedRules.{Saved, as_saved};
ghost use Rattle.dw_rules.specs.Views.{cfa_rule_of};
ghost use Rattle.dw_stack.specs.Located.{LocatedExpression};
ghost use Rattle.dw_unwind.specs.Caller.{IsCfa, IsRegister, machine, value};
ghost use Rattle.dw_unwind.specs.CallerViews.{answer_in, machine_in};
ghost use Rattle.dw_unwind.specs.Contents.{HasContents, Overlays, UnwindsTo, abi_rules, contents_in};
ghost use Rattle.dw_unwind.specs.UsualSteps.{IsLeftOf};
ghost use Rattle.dw_unwind.specs.Walks.{over_rows};

use crate::caller_contents::{content_of, pointed, saved};
use crate::kept_registers::KeptRegisters;
use crate::register_file::{PLACES, RegisterFile};
use crate::rule_answers::Present;
use crate::unwind_rows::UnwindRows;
use crate::unwinding::{Answer, Unwound};
use dw_bytes::{AddressSize, Order, Target};
use dw_eval::{Memory, Registers, Width};
use dw_rows::CfaRule;
use dw_rules::PlainRules;

/// The registers of a frame of which none is known.
#[derive(Drop)]
struct NoRegisters;

impl Registers for NoRegisters {
    ghost use Rattle.std.specs.Prelude.{None};

    ghost contents = { λ _ r. None };

    #[inline(always)]
    fn register(&self, _number: u16) -> Option<u64> {
        None
    }
}

/// The target of nearly all programs.
const LITTLE_64: Target = Target {
    order: Order::Little,
    address_size: AddressSize::Eight,
};

/// The CFA, if its rule is a register and an offset, and the register's content is known.
#[inline(always)]
fn plain_cfa(rule: CfaRule<'_>, file: &RegisterFile) -> Option<u64>
    ensures { (memory : ℕ → Option ℕ) → IfSome result (λ cfa. IsCfa
        (machine LITTLE_64 (contents_in file.now) memory) (Some (cfa_rule_of rule.entry))
        (value cfa)) }
{
    let CfaRule::RegisterAndOffset { register, offset } = rule else {
        return None;
    };
    let width = Width {
        size: AddressSize::Eight,
    };
    Some(width.offset(file.register(register)?, offset))
}

/// The offset from the CFA at which the register `number` is saved, if it is.
#[inline(always)]
fn offset_of(rules: PlainRules<'_>, number: u16) -> Option<i64>
    ensures { IfSome result (λ n. rule_in {E = LocatedExpression}
        (map as_saved rules.entry) number ≡ RuleOver.offset n) }
{
    for (register, offset) in rules {
        if register == number {
            return Some(offset);
        }
    }
    None
}

/// The offset from the CFA at which the register `number`, that of the return address, is saved,
/// and the rules to follow once its content has been read. Its rule is left out if it is the last
/// one, as usual; otherwise all rules are left. None if it isn't saved.
#[inline(always)]
fn return_rule<'t>(rules: PlainRules<'t>, number: u16) -> Option<(i64, PlainRules<'t>)>
    requires places { All (λ register. register.0 < PLACES) rules }
    requires table { IsTable {E = LocatedExpression} 0 (map as_saved rules) }
    ensures rule { IfSome result (λ split. IsLeftOf rules.entry number split.0 split.1) }
    ensures places { IfSome result (λ split. All (λ register. register.0 < PLACES) split.1) }
    ensures place { IfSome result (λ _. number < PLACES) }
{
    let ((last, last_offset), others) = rules.split_last()?;
    if last == number {
        return Some((last_offset, others));
    }
    if usize::from(number) >= PLACES {
        return None;
    }
    let offset = offset_of(rules.again(), number)?;
    Some((offset, rules))
}

/// Gives each register in `rules` the content that is saved for it.
#[inline(always)]
fn saved_into<R: Registers, M: Memory>(
    present: &Present<'_, R, M>,
    cfa: Answer,
    rules: PlainRules<'_>,
    into: &mut RegisterFile,
)
    requires { All (λ register. register.0 < PLACES) rules }
    ensures { Overlays (machine_in R.contents M.bytes present.now) (answer_in cfa)
        (map as_saved rules.entry) (contents_in into.old) (contents_in into.new) }
{
    for (number, offset) in rules {
        into.set(number, content_of(saved(present, cfa, offset)));
    }
}

/// Makes the contents of a frame's registers those that the registers which the ABI names have in
/// the caller if the row has no rules. The frame's CFA is `cfa`. Callee-saved registers keep their
/// contents, which have 64 bits.
#[inline(always)]
fn abi_in_place<M: Memory>(
    memory: &M,
    cfa: u64,
    kept: &KeptRegisters<'_>,
    stack_pointer: Option<u16>,
    file: &mut RegisterFile,
)
    requires { IfSome stack_pointer (λ number. number < PLACES) }
    ensures { HasContents (machine LITTLE_64 (contents_in file.old) (M.bytes memory.now))
        (value cfa) (abi_rules (abi_of kept.now stack_pointer)) (contents_in file.new) }
{
    file.fits();
    file.keep(kept);
    match stack_pointer {
        Some(number) => {
            let present = Present {
                target: LITTLE_64,
                registers: &NoRegisters,
                memory,
            };
            file.set(number, content_of(pointed(&present, Answer::Value(cfa))));
        }
        None => {}
    }
}

/// Makes the contents of a frame's registers those of its caller's registers. The frame's CFA is
/// `cfa`. The register `number` is saved in memory by one of the row's rules, and its content,
/// which was read before, is `content`. The row's other rules are `left`, or are among them.
#[inline(always)]
fn rules_in_place<M: Memory>(
    memory: &M,
    cfa: u64,
    kept: &KeptRegisters<'_>,
    stack_pointer: Option<u16>,
    left: PlainRules<'_>,
    number: u16,
    content: u64,
    file: &mut RegisterFile,
)
    requires places { All (λ register. register.0 < PLACES) left }
    requires place { number < PLACES }
    requires pointer { IfSome stack_pointer (λ number. number < PLACES) }
    ensures { (rules : List Saved) (n : ℤ) → IsTable {E = LocatedExpression} 0 (map as_saved rules)
        → IsLeftOf rules number n left.entry
        → IsRegister (machine LITTLE_64 (contents_in file.old) (M.bytes memory.now)) (value cfa)
        number (RuleOver.offset n) (value content)
        → HasContents (machine LITTLE_64 (contents_in file.old) (M.bytes memory.now)) (value cfa)
        (rule_under (abi_of kept.now stack_pointer) (map as_saved rules)) (contents_in file.new) }
{
    abi_in_place(memory, cfa, kept, stack_pointer, file);
    let present = Present {
        target: LITTLE_64,
        registers: &NoRegisters,
        memory,
    };
    saved_into(&present, Answer::Value(cfa), left, file);
    file.set(number, Some(content));
}

/// Whether the target is that of nearly all programs.
#[inline(always)]
fn is_little_64(target: Target) -> bool
    ensures { OnTrue result (target ≡ LITTLE_64) }
{
    target == LITTLE_64
}

/// Whether the stack pointer has a place, if there is one.
#[inline(always)]
fn has_place(stack_pointer: Option<u16>) -> bool
    ensures { OnTrue result (IfSome stack_pointer (λ number. number < PLACES)) }
{
    match stack_pointer {
        Some(number) => usize::from(number) < PLACES,
        None => true,
    }
}

/// The number that is saved at the CFA plus `offset`, if its memory is known.
#[inline(always)]
fn saved_number<M: Memory>(memory: &M, cfa: u64, offset: i64) -> Option<u64>
    ensures { (registers : ℕ → Option ℕ) (number : ℕ) → IfSome result (λ found. IsRegister
        (machine LITTLE_64 registers (M.bytes memory.now)) (value cfa) number
        (RuleOver.offset offset) (value found)) }
{
    let present = Present {
        target: LITTLE_64,
        registers: &NoRegisters,
        memory,
    };
    match saved(&present, Answer::Value(cfa), offset) {
        Answer::Value(found) => Some(found),
        _ => None,
    }
}

/// Makes the contents of a frame's registers those of its caller's registers, as
/// `Unwinder::contents_into` finds them, if this is a usual step: numbers have 8 bytes, the least
/// significant one first; the CFA is a register and an offset; and each rule says that a register
/// is saved relative to the CFA, the return address among them, which is known. Nearly all rows
/// that compilers write for x86-64 are like this. If the step isn't a usual one, or there is no
/// caller, the result is none and no content has changed. The row is looked up with `slot`, which
/// may be one that an earlier look-up wrote.
#[inline(always)]
pub fn step_in_place<T: UnwindRows, M: Memory>(
    rows: &T,
    slot: &mut T::Slot,
    kept: &KeptRegisters<'_>,
    stack_pointer: Option<u16>,
    address: u64,
    memory: &M,
    file: &mut RegisterFile,
) -> Option<Unwound>
    ensures steps { MatchOption result (file.new ≡ file.old) (λ unwound. UnwindsTo
        (over_rows (T.target_of rows.now) (T.finds rows.now) (abi_of kept.now stack_pointer)
        (M.bytes memory.now)) (contents_in file.old) (Some address) (Some unwound)
        (contents_in file.new)) }
    ensures known { IfSome result (λ unwound. (next : ℕ)
        × (answer_in unwound.return_address ≡ value next)) }
{
    dw_rules::laws::rules_under_abis();
    if !is_little_64(rows.rows_target()) || !has_place(stack_pointer) {
        return None;
    }
    let (row, number) = rows.find_row(address, slot)?;
    let cfa = plain_cfa(row.cfa(), file)?;
    let rules = row.plain_rules(PLACES as u16)?;
    let (offset, left) = return_rule(rules, number)?;
    let return_address = saved_number(memory, cfa, offset)?;
    rules_in_place(
        memory,
        cfa,
        kept,
        stack_pointer,
        left,
        number,
        return_address,
        file,
    );
    file.ends();
    Some(Unwound {
        cfa: Answer::Value(cfa),
        return_address: Answer::Value(return_address),
    })
}
