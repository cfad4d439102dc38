//! Rules as the code stores them. A rule refers to an expression by the expression's offset in the
//! section.

/// How to find the caller's value of a register (DWARF 5, section 6.4.1). Offsets count from the
/// CFA.
#[derive(Clone, Copy)]
pub enum StoredRule {
    /// No rule is in force. Either no instruction has set one, or a DW_CFA_restore or a
    /// DW_CFA_restore_state has gone back to a point where the register had none. The register is
    /// undefined unless an ABI says otherwise.
    Default,
    /// The caller's value can't be recovered.
    Undefined,
    /// The register still has the caller's value.
    SameValue,
    /// The caller's value is saved in memory, at the CFA plus this offset.
    Offset(i64),
    /// The caller's value is the CFA plus this offset.
    ValOffset(i64),
    /// The caller's value is in the register with this number.
    Register(u16),
    /// The caller's value is saved in memory, at the address that the expression at this offset of
    /// the section evaluates to.
    Expression(u32),
    /// The caller's value is what the expression at this offset of the section evaluates to.
    ValExpression(u32),
}

/// How the CFA is found (DWARF 5, section 6.4.1).
#[derive(Clone, Copy, Debug)]
pub enum StoredCfa {
    /// The CFA is the value of `register` plus `offset`.
    RegisterAndOffset { register: u16, offset: i64 },
    /// The CFA is what the expression at this offset of the section evaluates to.
    Expression(u32),
}
