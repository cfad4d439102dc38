//! `CallFrameInstruction`: call frame instructions with their operands.

ghost use Rattle.std.specs.Prelude.{◌+◌, ◌<◌, ◌^◌, length};
ghost use Rattle.dw_ops.specs.Views.{bytes_of};

use dw_ops::Expression;

/// The expression in a call frame instruction, and where the expression lies in the section.
#[derive(Clone, Copy, Debug)]
pub struct UnwindExpression<'a> {
    /// The offset of the expression's first byte in the section. Offsets in the expression count
    /// from that byte.
    pub offset: u32,
    /// The expression's bytes, and the byte order and address size of the section.
    pub expression: Expression<'a>,
    pub ghost inside: { offset + length (bytes_of expression) < 2 ^ 32 },
}

/// A call frame instruction with its operands as they are encoded (DWARF 5, sections 6.4.2 and
/// 7.24), or an instruction of aarch64. A `delta` isn't yet multiplied by the CIE's code alignment
/// factor, nor is a `factored_offset` by its data alignment factor. An `offset` is in bytes. A
/// register number is a column number of the unwind table.
#[derive(Clone, Copy, Debug)]
pub enum CallFrameInstruction<'a> {
    /// `DW_CFA_advance_loc`: the location advances by a delta of six bits.
    AdvanceLoc {
        delta: u8,
    },
    /// `DW_CFA_offset`: a register, whose number has six bits, is saved at an offset from the CFA.
    Offset {
        register: u16,
        factored_offset: u64,
    },
    /// `DW_CFA_restore`: a register, whose number has six bits, gets back the rule that the CIE's
    /// initial instructions gave it.
    Restore {
        register: u16,
    },
    /// `DW_CFA_nop`: does nothing.
    Nop,
    /// `DW_CFA_set_loc`: the location becomes an address.
    SetLoc {
        address: u64,
    },
    /// `DW_CFA_advance_loc1`: the location advances by a delta of one byte.
    AdvanceLoc1 {
        delta: u8,
    },
    /// `DW_CFA_advance_loc2`: the location advances by a delta of two bytes.
    AdvanceLoc2 {
        delta: u16,
    },
    /// `DW_CFA_advance_loc4`: the location advances by a delta of four bytes.
    AdvanceLoc4 {
        delta: u32,
    },
    /// `DW_CFA_offset_extended`: a register is saved at an offset from the CFA.
    OffsetExtended {
        register: u16,
        factored_offset: u64,
    },
    /// `DW_CFA_restore_extended`: a register gets back the rule that the CIE's initial instructions
    /// gave it.
    RestoreExtended {
        register: u16,
    },
    /// `DW_CFA_undefined`: a register has no value that can be recovered.
    Undefined {
        register: u16,
    },
    /// `DW_CFA_same_value`: a register still has the caller's value.
    SameValue {
        register: u16,
    },
    /// `DW_CFA_register`: a register's value is in another register.
    Register {
        register: u16,
        source: u16,
    },
    /// `DW_CFA_remember_state`: pushes the rules onto a stack.
    RememberState,
    /// `DW_CFA_restore_state`: pops the rules from the top of the stack that remember_state pushes
    /// onto.
    RestoreState,
    /// `DW_CFA_def_cfa`: the CFA is a register plus an offset.
    DefCfa {
        register: u16,
        offset: u64,
    },
    /// `DW_CFA_def_cfa_register`: the CFA rule gets another register.
    DefCfaRegister {
        register: u16,
    },
    /// `DW_CFA_def_cfa_offset`: the CFA rule gets another offset.
    DefCfaOffset {
        offset: u64,
    },
    /// `DW_CFA_def_cfa_expression`: the CFA is what an expression evaluates to.
    DefCfaExpression {
        expression: UnwindExpression<'a>,
    },
    /// `DW_CFA_expression`: a register is saved at the address that an expression evaluates to.
    Expression {
        register: u16,
        expression: UnwindExpression<'a>,
    },
    /// `DW_CFA_offset_extended_sf`: a register is saved at a signed offset from the CFA.
    OffsetExtendedSf {
        register: u16,
        factored_offset: i64,
    },
    /// `DW_CFA_def_cfa_sf`: the CFA is a register plus a signed offset.
    DefCfaSf {
        register: u16,
        factored_offset: i64,
    },
    /// `DW_CFA_def_cfa_offset_sf`: the CFA rule gets another offset, a signed one.
    DefCfaOffsetSf {
        factored_offset: i64,
    },
    /// `DW_CFA_val_offset`: a register's value is the CFA plus an offset.
    ValOffset {
        register: u16,
        factored_offset: u64,
    },
    /// `DW_CFA_val_offset_sf`: a register's value is the CFA plus a signed offset.
    ValOffsetSf {
        register: u16,
        factored_offset: i64,
    },
    /// `DW_CFA_val_expression`: a register's value is what an expression evaluates to.
    ValExpression {
        register: u16,
        expression: UnwindExpression<'a>,
    },
    /// `DW_CFA_AARCH64_negate_ra_state` and `DW_CFA_AARCH64_negate_ra_state_with_pc`, which only
    /// programs of `.eh_frame` for aarch64 have: from here on the return address is signed if it
    /// wasn't, and isn't if it was (DWARF for the Arm 64-bit Architecture, section 4.4.1). It changes
    /// no rule.
    NegateRaState,
}
