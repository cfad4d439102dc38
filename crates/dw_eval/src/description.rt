//! Runs location expressions.

ghost use Rattle.std.specs.Prelude.{◌≡◌, ◌<◌, ◌∷◌, [], length, None};
ghost use Rattle.dw_ops.specs.Views.{bytes_of};
ghost use Rattle.dw_eval.specs.UnderWay.{CanRun, IsUnderWay, RunsTo};
ghost use Rattle.dw_eval.specs.Steps.{configuration_of};
ghost use Rattle.dw_eval.specs.Views.{piece_in};
ghost use Rattle.dw_eval.specs.Environments.{world_in};

use crate::context::{Memory, Registers};
use crate::environment::Environment;
use crate::execution::{outcome_without_answer, read_operation};
use crate::location::{Evaluation, Outcome, Piece};
use crate::run::{Run, Step};
use arrayvec::ArrayVec;
use dw_ops::Expression;
use dw_stack::Kind;

/// Continues a location expression after its first piece, `first`. `from` is the offset to continue
/// at, and `before` is the number of steps already taken.
fn run_location_on<'a, R: Registers, M: Memory, const PLACES: usize>(
    expression: &Expression<'a>,
    environment: &Environment<'_, R, M>,
    run: &mut Run<'a, PLACES>,
    first: Piece<'a>,
    from: u32,
    before: u32,
) -> Evaluation<'a>
    requires can { CanRun PLACES Kind.Location
        (world_in R.contents M.bytes environment.now) expression.now }
    requires some { 0 < length (bytes_of expression.now) }
    requires under_way { IsUnderWay (world_in R.contents M.bytes environment.now)
        (bytes_of expression.now) [] (configuration_of from run.old (piece_in first ∷ [])) before }
    ensures { RunsTo Kind.Location
        (world_in R.contents M.bytes environment.now) expression.now result }
{
    let end = expression.bytes().len() as u32;
    let mut pieces = ArrayVec::new();
    pieces.push(first);
    let mut at = from;
    let mut steps = before;
    while at < end {
        let (operation, next) = read_operation(expression, at);
        steps += 1;
        match run.apply(environment, &operation, next) {
            Ok(step) => match step {
                Step::To(to) => at = to,
                Step::Ends(piece, to) => {
                    pieces.push(piece);
                    at = to;
                }
            },
            Err(why) => {
                return Evaluation {
                    outcome: outcome_without_answer(why, at),
                    steps,
                };
            }
        }
    }
    Evaluation {
        outcome: Outcome::Pieces(pieces),
        steps,
    }
}

/// Runs a location expression from its start. `run` has to be new (`Run::new`). The array of pieces
/// is made only when the first piece ends: most location expressions have no pieces, and making the
/// array takes longer than running them.
pub fn run_location<'a, R: Registers, M: Memory, const PLACES: usize>(
    expression: &Expression<'a>,
    environment: &Environment<'_, R, M>,
    run: &mut Run<'a, PLACES>,
) -> Evaluation<'a>
    requires can { CanRun PLACES Kind.Location
        (world_in R.contents M.bytes environment.now) expression.now }
    requires stack { run.old.stack ≡ [] }
    requires pending { run.old.pending ≡ None }
    ensures { RunsTo Kind.Location
        (world_in R.contents M.bytes environment.now) expression.now result }
{
    let end = expression.bytes().len() as u32;
    let mut at = 0;
    let mut steps = 0;
    while at < end {
        steps += 1;
        match run.step(environment, expression, at) {
            Ok(step) => match step {
                Step::To(to) => at = to,
                Step::Ends(piece, to) => {
                    return run_location_on(expression, environment, run, piece, to, steps);
                }
            },
            Err(why) => {
                return Evaluation {
                    outcome: outcome_without_answer(why, at),
                    steps,
                };
            }
        }
    }
    Evaluation {
        outcome: Outcome::Single(run.result(end == 0)),
        steps,
    }
}
