//! `CheckedExpression`: an expression that passed the check on all paths.

ghost use Rattle.std.specs.Prelude.{◌<◌, ◌^◌, length};
ghost use Rattle.dw_ops.specs.Views.{bytes_of, target_of};
ghost use Rattle.dw_stack.specs.Expressions.{IsChecked};

use crate::operation_check::MAX_HEIGHT;
use crate::state::Kind;
use dw_bytes::Target;
use dw_ops::Expression;

/// An expression that passed the check on all paths (`check_expression`, `certify`, `recheck`),
/// with its kind, its depth and the number of its operations. It owns no memory: the bytes are
/// borrowed.
///
/// ```rust
/// // DW_OP_lit2, DW_OP_lit3, DW_OP_plus
/// let sum = Expression::new(&[0x32, 0x33, 0x22], target);
/// let checked = check_expression(alloc, sum, Kind::Location)?;
/// assert_eq!(rt; (checked.operation_count(), checked.depth()), (3, 2));
///
/// // DW_OP_dup on an empty stack
/// let dup = Expression::new(&[0x12], target);
/// let fault = check_expression(alloc, dup, Kind::Location).err();
/// assert_eq!(rt; fault, Some(Fault { kind: FaultKind::Underflow, at: 0 }));
/// ```
#[derive(Clone, Copy, Debug)]
pub struct CheckedExpression<'a> {
    bytes: &'a [u8],
    target: Target,
    kind: Kind,
    depth: u8,
    count: u32,
    pub ghost short: { length bytes.now < 2 ^ 32 },
    pub ghost checked: { ∥ IsChecked
        (record {
          kind = kind;
          target = target;
          bytes = bytes.now;
          depth = depth;
          count = count;
        }) ∥₁ },
}

impl<'a> CheckedExpression<'a> {
    ghost use Rattle.std.specs.Prelude.{◌≡◌, ◌≤◌};
    ghost use Rattle.dw_stack.specs.Expressions.{IsGoodExpression, IsDepthOf, RunsWellWithin, operations_in};
    ghost use Rattle.dw_stack.specs.Certificates.{checked_of};

    /// Makes a checked expression without checking it again, for a caller who stored `depth` and
    /// `count`. The caller must prove that the expression passes the check as `kind`, and that both
    /// numbers are right.
    pub fn new(expression: Expression<'a>, kind: Kind, depth: u8, count: u32) -> Self
        requires { IsChecked (record {
          kind = kind;
          target = target_of expression;
          bytes = bytes_of expression;
          depth = depth;
          count = count;
        }) }
        ensures { checked_of result ≡ record {
          kind = kind;
          target = target_of expression.entry;
          bytes = bytes_of expression.entry;
          depth = depth;
          count = count;
        } }
    {
        CheckedExpression {
            bytes: expression.bytes(),
            target: expression.target(),
            kind,
            depth,
            count,
        }
    }

    /// The expression that was checked. It passed the check on every path, as an expression of its
    /// kind.
    pub fn expression(&self) -> Expression<'a>
        ensures bytes { bytes_of result ≡ (checked_of self.now).bytes }
        ensures target { target_of result ≡ (checked_of self.now).target }
        ensures good { IsGoodExpression (checked_of self.now).kind (target_of result)
            (bytes_of result) }
    {
        Expression::new(self.bytes, self.target)
    }

    /// The kind that the expression was checked as.
    pub fn kind(&self) -> Kind
        ensures { result ≡ (checked_of self.now).kind }
    {
        self.kind
    }

    /// The greatest stack height on any path, including the start; at most `MAX_HEIGHT`. No run of
    /// the expression ever has more entries on its stack.
    pub fn depth(&self) -> u8
        ensures value { result ≡ (checked_of self.now).depth }
        ensures depth { IsDepthOf (checked_of self.now).kind (checked_of self.now).target
            (checked_of self.now).bytes result }
        ensures limit { result ≤ MAX_HEIGHT }
        ensures runs { RunsWellWithin (checked_of self.now).kind (checked_of self.now).target
            (checked_of self.now).bytes result }
    {
        self.depth
    }

    /// The number of operations in the expression. No run takes more steps (see `runs` in the
    /// contract of `depth`).
    pub fn operation_count(&self) -> u32
        ensures value { result ≡ (checked_of self.now).count }
        ensures count { result ≡ length
            (operations_in (checked_of self.now).target (checked_of self.now).bytes) }
    {
        self.count
    }
}
