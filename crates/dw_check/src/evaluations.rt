//! Evaluates expressions and writes their outcomes.

ghost use Rattle.std.specs.Prelude.{◌≡◌, ◌<◌, ◌^◌, ℕ, List, false, length};
ghost use Rattle.dw_stack.specs.Certificates.{checked_of};
ghost use Rattle.dw_stack.specs.Expressions.{IsGoodExpression};
ghost use Rattle.dw_eval.specs.Fits.{OutcomeFits};
ghost use Rattle.dw_eval.specs.Views.{outcome_of};
ghost use Rattle.dw_check.specs.Text.{digits_of};
ghost use Rattle.dw_check.specs.Outcomes.{evaluation_text};
ghost use Rattle.dw_check.specs.Evaluations.{Evaluates};
ghost use Rattle.dw_state.specs.StateFile.{StateFact, IsGivenBy};
ghost use Rattle.dw_state.specs.StateViews.{known_state_of};
ghost use Rattle.dw_check.specs.WriteResults.{IsSame, WritesWhole, is_write};

use crate::outcomes::push_evaluation;
use crate::sink::Sink;
use crate::stop::ReportFault;
use crate::writer::{Writer, send_line};
use dw_eval::{Context, Evaluation, evaluate};
use dw_stack::CheckedExpression;
use dw_state::MachineState;

/// Writes the outcome of an evaluation, and then a line with the evaluation's number of steps and
/// with `depth`, the greatest stack depth on any path through the expression.
fn write_evaluation<S: Sink>(
    out: &mut Writer<'_, S>,
    evaluation: &Evaluation<'_>,
    depth: u8,
) -> Result<(), ReportFault>
    requires fits { (len : ℕ) × OutcomeFits (16 ^ digits_of out.old.size) len
        (outcome_of evaluation.now.outcome) }
    requires runs { S.has_stopped out.old.sink.now ≡ false }
    ensures same { IsSame out.old out.new }
    ensures written { WritesWhole (S.taken out.old.sink.now) (S.taken out.new.sink.now) result
        (evaluation_text out.old.size
        (outcome_of evaluation.now.outcome) evaluation.now.steps depth) }
    ensures stops { S.has_stopped out.new.sink.now ≡ is_write result }
{
    out.line.clear();
    push_evaluation(
        out.line,
        out.size,
        &evaluation.outcome,
        evaluation.steps,
        depth,
    )?;
    send_line(out)
}

/// Evaluates a checked expression with the registers, the memory, the CFA, the frame base and the
/// object's address in `state`, and writes its outcome.
pub(crate) fn write_outcome<S: Sink>(
    out: &mut Writer<'_, S>,
    checked: &CheckedExpression<'_>,
    state: &MachineState,
) -> Result<(), ReportFault>
    requires short { length (checked_of checked.now).bytes < 2 ^ 32 }
    requires good { IsGoodExpression (checked_of checked.now).kind (checked_of checked.now).target
        (checked_of checked.now).bytes }
    requires size { out.old.size ≡ (checked_of checked.now).target.address_size }
    requires runs { S.has_stopped out.old.sink.now ≡ false }
    ensures same { IsSame out.old out.new }
    ensures written { (facts : List StateFact) → IsGivenBy (known_state_of state.now) facts
        → (text : List ℕ)
        × Evaluates (checked_of checked.now).kind (checked_of checked.now).target
        (checked_of checked.now).bytes facts text
        × WritesWhole (S.taken out.old.sink.now) (S.taken out.new.sink.now) result text }
    ensures stops { S.has_stopped out.new.sink.now ≡ is_write result }
{
    let context = Context {
        cfa: state.cfa,
        frame_base: state.frame_base,
        object: state.object,
    };
    let evaluation = evaluate(checked, &context, state, state);
    write_evaluation(out, &evaluation, checked.depth())
}
