//! What the checker tracks at each operation: the stack height, what has been named, and whether
//! there was a piece.

ghost use Rattle.std.specs.Prelude.{◌≡◌, ◌↔◌, IsTrue, true, false};
ghost use Rattle.dw_stack.specs.States.{start_of, stands_alone, has_result, next_mode, at_offset};

use crate::effect::Role;

/// What an expression is for. The kind decides what is on the stack at the start, which operations
/// are allowed, and what the result is.
#[derive(Clone, Copy, Debug, PartialEq, Eq)]
pub enum Kind {
    /// A CFA rule (DWARF 5, section 6.4.2.2). The stack is empty at the start; the result is the
    /// top of the stack.
    FrameCfa,
    /// A register rule (DWARF 5, section 6.4.2.3). The CFA is on the stack at the start; the result
    /// is the top of the stack.
    FrameRegister,
    /// A location description (DWARF 5, section 2.6). The stack is empty at the start.
    Location,
}

/// What a path has named as the object's location or value since its most recent piece operation,
/// or since the start if it has none.
#[derive(Clone, Copy, Debug, PartialEq, Eq)]
pub enum Mode {
    /// Nothing; there may be entries on the stack.
    Stack,
    /// A register.
    Register,
    /// A value (`DW_OP_stack_value` or `DW_OP_implicit_value`).
    Value,
    /// Nothing, because the operation just before is a piece. The stack is empty.
    AfterPiece,
}

/// The state before an operation, on every path that reaches it.
#[derive(Clone, Copy, Debug, PartialEq, Eq)]
pub struct State {
    /// The operation's offset, in bytes from the expression's first byte.
    pub offset: u32,
    /// The number of entries on the stack, including the CFA with which a register rule starts.
    pub height: u8,
    /// What the path has named since its most recent piece operation.
    pub mode: Mode,
    /// Whether the path already has a piece operation.
    pub pieced: bool,
}

/// The state that fills the unused slots of a `SmallVec`.
impl Default for State {
    fn default() -> Self
        ensures { result ≡ at_offset 0 (start_of Kind.Location) }
    {
        State {
            offset: 0,
            height: 0,
            mode: Mode::Stack,
            pieced: false,
        }
    }
}

/// A `State` without its offset.
#[derive(Clone, Copy, PartialEq, Eq)]
pub struct StackState {
    pub height: u8,
    pub mode: Mode,
    pub pieced: bool,
}

impl StackState {
    /// Adds an offset to the state.
    #[inline(always)]
    pub fn at(self, offset: u32) -> State
        ensures { result ≡ at_offset offset self }
    {
        State {
            offset,
            height: self.height,
            mode: self.mode,
            pieced: self.pieced,
        }
    }

    /// Whether two states are equal.
    #[inline(always)]
    pub fn is(self, other: StackState) -> bool
        ensures { IsTrue result ↔ (self ≡ other) }
    {
        self == other
    }
}

/// The state at the start of an expression of kind `kind`.
pub fn start_state(kind: Kind) -> StackState
    ensures { result ≡ start_of kind }
{
    let height = match kind {
        Kind::FrameRegister => 1,
        _ => 0,
    };
    StackState {
        height,
        mode: Mode::Stack,
        pieced: false,
    }
}

/// Whether an operation with role `role` is allowed in state `state`.
#[inline(always)]
pub fn may_stand_at_state(role: Role, state: StackState) -> bool
    ensures { result ≡ stands_alone role state.mode state.height }
{
    match role {
        Role::Piece => match state.mode {
            Mode::AfterPiece => true,
            Mode::Stack => state.height <= 1,
            _ => state.height == 0,
        },
        Role::Register | Role::Bytes => match state.mode {
            Mode::Register | Mode::Value => false,
            _ => state.height == 0,
        },
        Role::Plain | Role::Top => match state.mode {
            Mode::Register | Mode::Value => false,
            _ => true,
        },
    }
}

/// The state after an operation with role `role`. `height` is the stack height after the operation,
/// before a piece clears the stack; `pieced` tells whether there was a piece before the operation.
#[inline(always)]
pub fn next_state(role: Role, height: u8, pieced: bool) -> StackState
    ensures { result ≡ next_mode role height pieced }
{
    let (height, mode, pieced) = match role {
        Role::Plain => (height, Mode::Stack, pieced),
        Role::Register => (height, Mode::Register, pieced),
        Role::Bytes | Role::Top => (height, Mode::Value, pieced),
        Role::Piece => (0, Mode::AfterPiece, true),
    };
    StackState {
        height,
        mode,
        pieced,
    }
}

/// Whether an expression of kind `kind` that ends in state `state` has a result. `is_empty` tells
/// whether it has no operations.
pub fn has_result(kind: Kind, is_empty: bool, state: StackState) -> bool
    ensures { result ≡ has_result kind state.mode is_empty state.pieced state.height }
{
    match kind {
        Kind::Location => match state.mode {
            Mode::AfterPiece => true,
            Mode::Stack => is_empty || (!state.pieced && state.height >= 1),
            _ => !state.pieced,
        },
        _ => match state.mode {
            Mode::Stack => state.height >= 1,
            _ => false,
        },
    }
}
