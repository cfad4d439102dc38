//! The reasons why an operation can fail.

/// Why an operation fails.
#[derive(Clone, Copy)]
pub enum EvaluationError {
    /// The operation needs a register, memory or a value of the context that isn't known, or reads
    /// past the greatest address.
    Unreadable,
    /// The operation divides by zero.
    DivisionByZero,
}
