//! Laws of evaluations: functions that do nothing, each with the law as its contract.

ghost use Rattle.std.specs.Prelude.{◌≡◌, ◌^◌, ◌≤◌, ℕ, List, [], ◌∷◌, length, Some, None};
ghost use Rattle.dw_ops.specs.Operations.{Operation};
ghost use Rattle.dw_stack.specs.declared.effect.Role.TheVariants as role;
ghost use Rattle.dw_stack.specs.declared.state.Kind.{Kind};
ghost use Rattle.dw_stack.specs.Paths.{Placed};
ghost use Rattle.dw_stack.specs.Machine.{AtAddress, location_of, CanDo, Configuration, Run};
ghost use Rattle.dw_stack.specs.Effects.{effect_of};
ghost use Rattle.dw_stack.specs.Expressions.{Checked, IsChecked, IsGoodExpression};
ghost use Rattle.dw_eval.specs.World.{World, width};
ghost use Rattle.dw_eval.specs.Meaning.{meaning_of};
ghost use Rattle.dw_eval.specs.Needs.{UsesTopAlone};
ghost use Rattle.dw_eval.specs.Fits.{NumbersFit};
ghost use Rattle.dw_eval.specs.Results.{Outcome, IsOfKind, first_stack, start_configuration, IsEvaluation};

/// An operation uses only the topmost stack entries, as many as it needs. Whatever entries lie
/// below those, the operation pushes the same values, names the same location and jumps the same
/// way, and leaves the entries below unchanged (a piece clears the stack afterward). A piece
/// operation needs no entry; if the location of its piece is an address, that address is the only
/// entry.
pub fn operations_use_the_top_alone()
    ensures top { (e : World) (op : Operation) (below top : List ℕ)
        → length top ≡ (effect_of op).needs → UsesTopAlone e op below top }
    ensures piece { (s : List ℕ) (a : ℕ) → CanDo role.Piece (length s) None
        → location_of s None ≡ AtAddress a → s ≡ a ∷ [] }
{}

/// Any two evaluations of an expression that passes the check, with the same registers, memory and
/// context, have the same outcome and the same number of steps.
pub fn evaluations_are_determined()
    ensures { (c : Checked) (e : World) (o p : Outcome) (n k : ℕ)
        → IsGoodExpression c.kind c.target c.bytes → IsEvaluation c e o n → IsEvaluation c e p k
        → (o ≡ p) × (n ≡ k) }
{}

/// Each checked expression has an evaluation, whatever the registers, memory and context are, with
/// no more steps than operations.
pub fn each_has_an_evaluation()
    ensures { (c : Checked) (e : World) → IsChecked c
        → (o : Outcome) × (n : ℕ) × IsEvaluation c e o n × (n ≤ c.count) }
{}

/// All numbers of a run are below 2^w at every step, w being the size of an address in bits: the
/// stack entries, the value or address that was named, and the values and addresses of the pieces.
pub fn numbers_of_evaluations_fit()
    ensures { (e : World) (kind : Kind) (ops : List Placed) (len n : ℕ) (s : List ℕ)
        (c : Configuration) → first_stack e kind ≡ Some s
        → Run (meaning_of e) ops len n (start_configuration s) c → NumbersFit (2 ^ width e) c }
{}

/// The expression of a CFA rule or a register's rule gives a value, or fails. A location expression
/// gives a location or pieces, or fails.
pub fn outcomes_are_of_their_kind()
    ensures { (c : Checked) (e : World) (o : Outcome) (n : ℕ) → IsEvaluation c e o n
        → IsOfKind c.kind o }
{}
