//! The run of a location expression, step by step.

use crate::branch_target::{location_named, piece_size_named};
use crate::context::{Memory, Registers};
use crate::environment::Environment;
use crate::evaluation_error::EvaluationError;
use crate::execution::{execute, read_operation};
use crate::location::{Location, Piece, PieceSize};
use crate::stack::Stack;
use crate::without_operands::{execute_base_register, execute_without_operands};
use dw_ops::{Expression, Operation, decode_base_register};

/// The state of a location expression's run, except for its offset and its pieces.
#[derive(Drop)]
pub struct Run<'a, const PLACES: usize> {
    pub stack: Stack<PLACES>,
    /// The location that was just named, if any: a piece operation, or the end of the expression,
    /// uses it next.
    pub pending: Option<Location<'a>>,
}

/// What a step does besides changing the `Run`.
#[derive(Clone, Copy)]
pub enum Step<'a> {
    /// The step leads to this offset.
    To(u32),
    /// The step ends this piece, and leads to this offset.
    Ends(Piece<'a>, u32),
}

impl<'a, const PLACES: usize> Run<'a, PLACES> {
    ghost use Rattle.std.specs.Prelude.{◌≡◌, ◌<◌, ◌≤◌, [], length, None, Err, MatchResult};
    ghost use Rattle.std.specs.Option.{option_map};
    ghost use Rattle.dw_ops.specs.Views.{bytes_of, operation_of};
    ghost use Rattle.dw_stack.specs.declared.state.Kind.{Kind};
    ghost use Rattle.dw_stack.specs.Effects.{effect_of};
    ghost use Rattle.dw_stack.specs.Machine.{location_of, CanDo, GivesResult};
    ghost use Rattle.dw_eval.specs.Fits.{AllFit};
    ghost use Rattle.dw_eval.specs.Values.{answer};
    ghost use Rattle.dw_eval.specs.StackChanges.{error_of};
    ghost use Rattle.dw_eval.specs.Environments.{world_in};
    ghost use Rattle.dw_eval.specs.Views.{location_description_of, extent_of_size, piece_in};
    ghost use Rattle.dw_eval.specs.Results.{result_of, single};
    ghost use Rattle.dw_eval.specs.Steps.{configuration_of, Applies, CanExecute, CanStepAt, FailsAt, MovesAt};

    /// A run at its start: the stack is empty, and no location is pending.
    pub fn new() -> Self
        ensures stack { result.stack ≡ [] }
        ensures pending { result.pending ≡ None }
    {
        Run {
            stack: Stack::new(),
            pending: None,
        }
    }

    /// The location that a piece would have if it ended here: the pending location, else the
    /// address on the stack, else the empty location.
    #[inline(always)]
    fn location(&self) -> Location<'a>
        requires { self.now.pending ≡ None → length self.now.stack ≤ 1 }
        ensures { location_description_of result ≡ location_of self.now.stack
            (option_map location_description_of self.now.pending) }
    {
        match self.pending {
            Some(location) => location,
            None => {
                if self.stack.is_empty() {
                    Location::Empty
                } else {
                    Location::Address(self.stack.entry(0))
                }
            }
        }
    }

    /// Ends a piece of size `size` at the current location. Clears the stack and the pending
    /// location.
    #[inline(always)]
    fn end_piece(&mut self, size: PieceSize) -> Piece<'a>
        requires { self.old.pending ≡ None → length self.old.stack ≤ 1 }
        ensures stack { self.new.stack ≡ [] }
        ensures pending { self.new.pending ≡ None }
        ensures piece { piece_in result
            ≡ record {
              location = location_of self.old.stack
                  (option_map location_description_of self.old.pending);
              size = extent_of_size size;
            } }
    {
        let location = self.location();
        self.pending = None;
        self.stack.clear();
        Piece { location, size }
    }

    /// Applies an operation to the run. Returns the step that the operation makes, or why it fails.
    /// `next` is the offset after the operation.
    #[inline(always)]
    pub fn apply<R: Registers, M: Memory>(
        &mut self,
        environment: &Environment<'_, R, M>,
        operation: &Operation<'a>,
        next: u32,
    ) -> Result<Step<'a>, EvaluationError>
        requires can { CanExecute PLACES (operation_of operation.now) next self.old.stack }
        requires alone { CanDo (effect_of (operation_of operation.now)).role (length self.old.stack)
            (option_map location_description_of self.old.pending) }
        requires below { AllFit (world_in R.contents M.bytes environment.now) self.old.stack }
        ensures { MatchResult result
            (λ to. Applies (world_in R.contents M.bytes environment.now)
            (operation_of operation.now) next self.old to self.new)
            (λ why. answer (world_in R.contents M.bytes environment.now)
            (operation_of operation.now) self.old.stack ≡ Err (error_of why)) }
    {
        match piece_size_named(operation) {
            Some(size) => Ok(Step::Ends(self.end_piece(size), next)),
            None => {
                let named = location_named(operation, &self.stack);
                let to = execute(environment, operation, next, &mut self.stack)?;
                self.pending = named;
                Ok(Step::To(to))
            }
        }
    }

    /// Applies the operation at the offset `at`. An operation that `execute_without_operands` or
    /// `execute_base_register` handles neither uses nor names a location: `pending` is `None`
    /// before and after it, so `pending` isn't written.
    #[inline(always)]
    pub fn step<R: Registers, M: Memory>(
        &mut self,
        environment: &Environment<'_, R, M>,
        expression: &Expression<'a>,
        at: u32,
    ) -> Result<Step<'a>, EvaluationError>
        requires inside { at < length (bytes_of expression.now) }
        requires can { CanStepAt expression.now at self.old }
        requires below { AllFit (world_in R.contents M.bytes environment.now) self.old.stack }
        ensures { MatchResult result
            (λ to. MovesAt
            (world_in R.contents M.bytes environment.now) expression.now at self.old to self.new)
            (λ why. FailsAt
            (world_in R.contents M.bytes environment.now) expression.now at self.old.stack
            (error_of why)) }
    {
        let code = expression.bytes()[at as usize];
        if execute_without_operands(environment, code, &mut self.stack)? {
            return Ok(Step::To(at + 1));
        }
        if let Some(found) = decode_base_register(expression, at) {
            execute_base_register(environment, found, &mut self.stack)?;
            return Ok(Step::To(found.next));
        }
        let (operation, next) = read_operation(expression, at);
        self.apply(environment, &operation, next)
    }

    /// Where the object is, at the end of a location expression without pieces. `is_empty` says
    /// whether the expression has no operations.
    pub fn result(&self, is_empty: bool) -> Location<'a>
        requires { GivesResult Kind.Location is_empty (configuration_of 0 self.now []) }
        ensures { single (location_description_of result) ≡ result_of Kind.Location is_empty
            (configuration_of 0 self.now []) }
    {
        match self.pending {
            _ if is_empty => Location::Empty,
            Some(location) => location,
            None => Location::Address(self.stack.entry(0)),
        }
    }
}
