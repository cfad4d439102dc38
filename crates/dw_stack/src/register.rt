//! A shortcut for locations that are a single register.

ghost use Rattle.std.specs.Prelude.{◌≡◌, IfSome, None};
ghost use Rattle.dw_ops.specs.Views.{bytes_of, target_of};
ghost use Rattle.dw_stack.specs.declared.state.Kind.TheVariants.{Location};
ghost use Rattle.dw_stack.specs.Expressions.{IsChecked, IsOf};
ghost use Rattle.dw_stack.specs.FirstFault.{expression_fault};
ghost use Rattle.dw_stack.specs.Certificates.{checked_of};

use crate::checked::CheckedExpression;
use crate::state::Kind;
use dw_ops::Expression;

/// Checks a location that is one byte, DW_OP_reg0 to DW_OP_reg31. `None` for any other expression,
/// valid or not: call `check_expression` then. This is a shortcut, because 97% of the expressions
/// in real location lists are such a byte.
#[inline(always)]
pub fn check_register<'a>(expression: Expression<'a>) -> Option<CheckedExpression<'a>>
    ensures checked { IfSome result (λ c. IsChecked (checked_of c)) }
    ensures same { IfSome result (λ c. IsOf Location (target_of expression.entry)
        (bytes_of expression.entry) (checked_of c)) }
    ensures good { IfSome result (λ _. expression_fault Location (target_of expression.entry)
        (bytes_of expression.entry) ≡ None) }
{
    let bytes = expression.bytes();
    if bytes.len() != 1 || bytes[0] < 0x50 || bytes[0] > 0x6f {
        return None;
    }
    Some(CheckedExpression::new(expression, Kind::Location, 0, 1))
}
