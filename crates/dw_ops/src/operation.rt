//! `Operation`: the operations of DWARF expressions.

/// An operation with its operands as they are encoded (DWARF 5, sections 2.5 and 7.7.1). Each
/// opcode of the standard's table that docs/PROFILE.md doesn't exclude has its own variant, except
/// that lit, reg and breg have one variant each for their 32 opcodes, with a number from 0 to 31.
#[derive(Clone, Copy, Debug, PartialEq, Eq)]
pub enum Operation<'a> {
    /// `DW_OP_addr`: pushes the address.
    Addr { address: u64 },
    /// `DW_OP_deref`: replaces the top, an address, by the word at that address.
    Deref,
    /// `DW_OP_const1u`: pushes the value.
    Const1u { value: u8 },
    /// `DW_OP_const1s`: pushes the value.
    Const1s { value: i8 },
    /// `DW_OP_const2u`: pushes the value.
    Const2u { value: u16 },
    /// `DW_OP_const2s`: pushes the value.
    Const2s { value: i16 },
    /// `DW_OP_const4u`: pushes the value.
    Const4u { value: u32 },
    /// `DW_OP_const4s`: pushes the value.
    Const4s { value: i32 },
    /// `DW_OP_const8u`: pushes the value.
    Const8u { value: u64 },
    /// `DW_OP_const8s`: pushes the value.
    Const8s { value: i64 },
    /// `DW_OP_constu`: pushes the value.
    Constu { value: u64 },
    /// `DW_OP_consts`: pushes the value.
    Consts { value: i64 },
    /// `DW_OP_dup`: pushes the top again.
    Dup,
    /// `DW_OP_drop`: pops the top.
    Drop,
    /// `DW_OP_over`: pushes the second entry.
    Over,
    /// `DW_OP_pick`: pushes the entry `index` below the top; 0 is the top.
    Pick { index: u8 },
    /// `DW_OP_swap`: exchanges the top and the second entry.
    Swap,
    /// `DW_OP_rot`: the top becomes the third entry, the second entry the top, and the third the
    /// second.
    Rot,
    /// `DW_OP_abs`: the absolute value of the top, signed.
    Abs,
    /// `DW_OP_and`: bitwise and.
    And,
    /// `DW_OP_div`: the second entry divided by the top, signed and truncated.
    Div,
    /// `DW_OP_minus`: the second entry minus the top.
    Minus,
    /// `DW_OP_mod`: the second entry modulo the top, unsigned.
    Mod,
    /// `DW_OP_mul`: the product.
    Mul,
    /// `DW_OP_neg`: 0 minus the top.
    Neg,
    /// `DW_OP_not`: the top with all bits inverted.
    Not,
    /// `DW_OP_or`: bitwise or.
    Or,
    /// `DW_OP_plus`: the sum.
    Plus,
    /// `DW_OP_plus_uconst`: the top plus the value.
    PlusUconst { value: u64 },
    /// `DW_OP_shl`: the second entry shifted left by the top.
    Shl,
    /// `DW_OP_shr`: the second entry shifted right by the top, filled with zeros.
    Shr,
    /// `DW_OP_shra`: the second entry shifted right by the top, filled with its sign bit.
    Shra,
    /// `DW_OP_xor`: bitwise exclusive or.
    Xor,
    /// `DW_OP_bra`: pops the top, and branches if it isn't 0. The offset counts from the byte after
    /// the operation.
    Bra { offset: i16 },
    /// `DW_OP_eq`: 1 if the second entry is equal to the top, else 0.
    Eq,
    /// `DW_OP_ge`: 1 if the second entry is at least the top, signed, else 0.
    Ge,
    /// `DW_OP_gt`: 1 if the second entry is above the top, signed, else 0.
    Gt,
    /// `DW_OP_le`: 1 if the second entry is at most the top, signed, else 0.
    Le,
    /// `DW_OP_lt`: 1 if the second entry is below the top, signed, else 0.
    Lt,
    /// `DW_OP_ne`: 1 if the second entry isn't equal to the top, else 0.
    Ne,
    /// `DW_OP_skip`: branches. The offset counts from the byte after the operation.
    Skip { offset: i16 },
    /// `DW_OP_lit0` to `DW_OP_lit31`: pushes the value, 0 to 31.
    Lit { value: u8 },
    /// `DW_OP_reg0` to `DW_OP_reg31`: the location is the register, 0 to 31.
    Reg { register: u8 },
    /// `DW_OP_breg0` to `DW_OP_breg31`: pushes the register's value plus the offset; the register
    /// is 0 to 31.
    Breg { register: u8, offset: i64 },
    /// `DW_OP_regx`: the location is the register.
    Regx { register: u16 },
    /// `DW_OP_fbreg`: pushes the frame base plus the offset.
    Fbreg { offset: i64 },
    /// `DW_OP_bregx`: pushes the register's value plus the offset.
    Bregx { register: u16, offset: i64 },
    /// `DW_OP_piece`: the operations before this one describe the location of a piece of `size`
    /// bytes.
    Piece { size: u32 },
    /// `DW_OP_deref_size`: replaces the top, an address, by the `size` bytes at that address,
    /// zero-extended.
    DerefSize { size: u8 },
    /// `DW_OP_nop`: does nothing.
    Nop,
    /// `DW_OP_push_object_address`: pushes the object's address.
    PushObjectAddress,
    /// `DW_OP_call_frame_cfa`: pushes the CFA.
    CallFrameCfa,
    /// `DW_OP_bit_piece`: the operations before this one describe the location of a piece of `size`
    /// bits, which begins `offset` bits into that location.
    BitPiece { size: u32, offset: u32 },
    /// `DW_OP_implicit_value`: the object isn't in memory; its value is `bytes`.
    ImplicitValue { bytes: &'a [u8] },
    /// `DW_OP_stack_value`: the object isn't in memory; its value is the top.
    StackValue,
}

/// `Nop`, which fills the unused slots of the `SmallVec` that `operations` returns.
impl Default for Operation<'_> {
    ghost use Rattle.std.specs.Prelude.{◌≡◌};
    ghost use Rattle.dw_ops.specs.declared.operation.Operation.TheVariants.{Nop};

    ghost is_default = { λ operation. operation ≡ Nop };

    fn default() -> Self {
        Operation::Nop
    }
}
