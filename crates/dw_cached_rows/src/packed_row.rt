//! A row in 24 bytes.

ghost use Rattle.std.specs.Prelude.{◌≡◌, ◌≢◌, ◌<◌, ◌+◌, ◌^◌, ◌∷◌, ◌++◌, ◌*ℤ◌, [], IfSome, map, negsuc, pos};
ghost use Rattle.std.specs.Bool.{OnTrue};
ghost use Rattle.dw_rules.specs.Rules.{RuleOver, cfa_expression, offset, register_and_offset};
ghost use Rattle.dw_rules.specs.SavedRules.{as_saved};
ghost use Rattle.dw_rules.specs.Views.{cfa_rule_of};
ghost use Rattle.dw_stack.specs.Located.{LocatedExpression};
ghost use Rattle.dw_cached_rows.specs.CachedRows.{nothing};
ghost use Rattle.dw_cached_rows.specs.PackedRows.{IsPltExpression, IsPltRowOf, IsRowOf, plt_offset, saved_rule, saving_rules};

use dw_bytes::{AddressSize, Order, Target};
use dw_rows::{CfaRule, RegisterRule};
use dw_rules::{PlainRules, UnwindRow};

/// DWARF's numbers of x86-64's callee-saved registers, of its stack pointer and of the return
/// address (System V ABI, figure 3.36).
pub const RBX: u16 = 3;

pub const RBP: u16 = 6;

pub const RSP: u16 = 7;

pub const R12: u16 = 12;

pub const R13: u16 = 13;

pub const R14: u16 = 14;

pub const R15: u16 = 15;

pub const RETURN_ADDRESS: u16 = 16;

/// What is added to the form of a row whose return address is undefined.
pub const LAST: u8 = 128;

/// The form of a row whose stack was realigned. No register with such a number is packed.
pub const REALIGNED: u8 = 64;

/// How many modules the rows of a cache may be of.
pub const SLOTS: u8 = 64;

/// The row of an address, if it is as compilers for x86-64 write nearly all rows: the CFA is a
/// register plus an offset; the return address is saved just below it; and callee-saved registers
/// are saved at multiples of 8 bytes from it, or have no rule. Or the return address is undefined,
/// and no register is saved. Or the row is that of an entry of a procedure linkage table, whose CFA
/// is rsp plus an offset at the one address. Or the stack was realigned: the CFA is what memory holds
/// at a word by rbp, and registers are saved by rbp. Any bytes are an entry.
#[repr(C)]
#[derive(Clone, Copy, Drop)]
pub struct PackedRow {
    /// The address that is looked up, plus 1. 0 if there is no row.
    pub(crate) key: u64,
    /// The offset of the CFA from its register. Where the stack was realigned, how many words of 8 bytes
    /// above rbp the CFA is saved.
    pub(crate) cfa_offset: i32,
    /// The number of the CFA's register, plus `LAST` if the return address is undefined. 0 if the
    /// row of the address can't be packed.
    pub(crate) form: u8,
    /// Which module the row is of, modulo `SLOTS`.
    pub(crate) slot: u8,
    /// Where each register is saved, in words of 8 bytes, from the CFA, or, where the stack was
    /// realigned, from the word after the one at rbp. 0 if it has no rule.
    pub(crate) rbx: i8,
    pub(crate) rbp: i8,
    pub(crate) r12: i8,
    pub(crate) r13: i8,
    pub(crate) r14: i8,
    pub(crate) r15: i8,
    /// In an entry of a procedure linkage table, from which byte on the linker's code has pushed a
    /// number. 0 for any other row.
    pub(crate) plt_limit: u32,
}

const _: () = prove!(size_of::<PackedRow>() == 24);

impl PackedRow {
    /// An entry without a row, and without an address.
    pub(crate) fn none() -> Self
        ensures { result ≡ nothing }
    {
        PackedRow {
            key: 0,
            cfa_offset: 0,
            form: 0,
            slot: 0,
            rbx: 0,
            rbp: 0,
            r12: 0,
            r13: 0,
            r14: 0,
            r15: 0,
            plt_limit: 0,
        }
    }
}

/// An offset in words of 8 bytes. None if it is 0, isn't a multiple of 8, or is too large.
pub(crate) fn words_of(offset: i64) -> Option<i8>
    ensures { IfSome result (λ words. (words ≢ pos 0) × (offset ≡ words *ℤ pos 8)) }
{
    if offset == 0 || offset % 8 != 0 {
        return None;
    }
    i8::try_from(offset / 8).ok()
}

/// Takes the rule of a register off the front of the rules, if the register has one. None if its
/// offset can't be packed.
fn take_saved(rules: &mut PlainRules<'_>, number: u16) -> Option<i8>
    ensures { IfSome result (λ words. map (as_saved {E = LocatedExpression}) rules.old
        ≡ saved_rule number words ++ map as_saved rules.new) }
{
    let mut after = rules.again();
    let Some((register, offset)) = after.next() else {
        return Some(0);
    };
    if register != number {
        return Some(0);
    }
    let words = words_of(offset)?;
    *rules = after;
    Some(words)
}

/// Whether the only rule says that the return address is saved just below the CFA.
fn is_return_alone(rules: &PlainRules<'_>) -> bool
    ensures { OnTrue result (map (as_saved {E = LocatedExpression}) rules.now
        ≡ (RETURN_ADDRESS, offset (negsuc 7)) ∷ []) }
{
    let mut rules = rules.again();
    let Some((register, offset)) = rules.next() else {
        return false;
    };
    register == RETURN_ADDRESS && offset == -8 && rules.next().is_none()
}

/// Whether the only rule says that the return address is undefined.
fn is_undefined_alone(row: &UnwindRow<'_, '_>) -> bool
    ensures { OnTrue result (row.now.rules ≡ (RETURN_ADDRESS, RuleOver.undefined) ∷ []) }
{
    let mut rules = row.rules();
    let Some((register, rule)) = rules.next() else {
        return false;
    };
    let RegisterRule::Undefined = rule else {
        return false;
    };
    register == RETURN_ADDRESS && rules.next().is_none()
}

/// The row of no address whose CFA is this.
pub(crate) fn row_with_cfa(cfa: CfaRule<'_>) -> Option<PackedRow>
    ensures cfa { IfSome result (λ row. cfa_rule_of cfa.entry
        ≡ register_and_offset row.form row.cfa_offset) }
    ensures form { IfSome result (λ row. (row.form ≢ 0) × (row.form < REALIGNED)) }
    ensures plain { IfSome result (λ row. row.plt_limit ≡ 0) }
{
    let CfaRule::RegisterAndOffset { register, offset } = cfa else {
        return None;
    };
    let form = u8::try_from(register).ok()?;
    if form == 0 || form >= REALIGNED {
        return None;
    }
    let mut row = PackedRow::none();
    row.cfa_offset = i32::try_from(offset).ok()?;
    row.form = form;
    Some(row)
}

/// The row with the registers that these rules save.
fn with_saved(mut row: PackedRow, mut rules: PlainRules<'_>) -> Option<PackedRow>
    ensures rules { IfSome result (λ packed.
        map (as_saved {E = LocatedExpression}) rules.entry ≡ saving_rules packed) }
    ensures same { IfSome result (λ packed. (packed.form ≡ row.form)
        × (packed.cfa_offset ≡ row.cfa_offset)) }
    ensures limit { IfSome result (λ packed. packed.plt_limit ≡ row.plt_limit) }
{
    row.rbx = take_saved(&mut rules, RBX)?;
    row.rbp = take_saved(&mut rules, RBP)?;
    row.r12 = take_saved(&mut rules, R12)?;
    row.r13 = take_saved(&mut rules, R13)?;
    row.r14 = take_saved(&mut rules, R14)?;
    row.r15 = take_saved(&mut rules, R15)?;
    if is_return_alone(&rules) {
        Some(row)
    } else {
        None
    }
}

/// Packs a row, for no address and no module yet. None if it can't be packed.
pub(crate) fn pack(row: &UnwindRow<'_, '_>) -> Option<PackedRow>
    ensures row { IfSome result (λ packed. IsRowOf packed row.now) }
    ensures plain { IfSome result (λ packed. packed.plt_limit ≡ 0) }
{
    let mut packed = row_with_cfa(row.cfa())?;
    if let Some(rules) = row.plain_rules(RETURN_ADDRESS + 1) {
        return with_saved(packed, rules);
    }
    if !is_undefined_alone(row) {
        return None;
    }
    packed.form += LAST;
    Some(packed)
}

/// The CFA's expression in an entry of a procedure linkage table, as ld writes it (DWARF 5, section
/// 2.5.1): DW_OP_breg7 8, DW_OP_breg16 0, DW_OP_lit15, DW_OP_and, DW_OP_lit11, DW_OP_ge, DW_OP_lit3,
/// DW_OP_shl, DW_OP_plus.
const PLT_11: [u8; 11] = [
    0x77, 0x08, 0x80, 0x00, 0x3f, 0x1a, 0x3b, 0x2a, 0x33, 0x24, 0x22,
];

/// The same with DW_OP_lit9, for entries that begin with endbr64.
const PLT_9: [u8; 11] = [
    0x77, 0x08, 0x80, 0x00, 0x3f, 0x1a, 0x39, 0x2a, 0x33, 0x24, 0x22,
];

/// The same with DW_OP_lit5, for entries that begin with the push.
const PLT_5: [u8; 11] = [
    0x77, 0x08, 0x80, 0x00, 0x3f, 0x1a, 0x35, 0x2a, 0x33, 0x24, 0x22,
];

/// The target of x86-64's expressions.
pub(crate) const LITTLE_64: Target = Target {
    order: Order::Little,
    address_size: AddressSize::Eight,
};

/// From which byte of an entry of a procedure linkage table on the CFA is rsp plus 16. None if the CFA
/// isn't that of such an entry.
fn plt_limit(cfa: CfaRule<'_>) -> Option<u32>
    ensures { IfSome result (λ limit. (limit ≢ 0) × (limit < 16) × (x : LocatedExpression)
        × (cfa_rule_of cfa.entry ≡ cfa_expression x) × IsPltExpression limit x) }
{
    let CfaRule::Expression { expression, .. } = cfa else {
        return None;
    };
    let expression = expression.expression();
    if expression.target() != LITTLE_64 {
        return None;
    }
    let bytes = expression.bytes();
    if bytes == PLT_11.as_slice() {
        return Some(11);
    }
    if bytes == PLT_9.as_slice() {
        return Some(9);
    }
    if bytes == PLT_5.as_slice() {
        return Some(5);
    }
    None
}

/// What is added to rsp in an entry of a procedure linkage table, where rip has this content.
fn plt_offset(limit: u32, rip: u64) -> i32
    ensures { result ≡ plt_offset limit rip }
{
    if u64::from(limit) <= rip % 16 { 16 } else { 8 }
}

/// Packs the row of an entry of a procedure linkage table, for an address and for no module yet. None
/// if it isn't one, or if the CFA is another one where rip has the next address.
pub(crate) fn pack_in_plt(row: &UnwindRow<'_, '_>, address: u64) -> Option<PackedRow>
    requires { address + 1 < 2 ^ 64 }
    ensures { IfSome result (λ packed. IsPltRowOf packed address row.now) }
{
    let limit = plt_limit(row.cfa())?;
    let offset = plt_offset(limit, address);
    if plt_offset(limit, address + 1) != offset {
        return None;
    }
    let rules = row.plain_rules(RETURN_ADDRESS + 1)?;
    let mut packed = PackedRow::none();
    packed.form = RSP as u8;
    packed.cfa_offset = offset;
    packed.plt_limit = limit;
    with_saved(packed, rules)
}
