//! `Certificate`: a checked expression with the state before each of its operations.

ghost use Rattle.dw_stack.specs.Expressions.{AreStatesOf};

use crate::checked::CheckedExpression;
use crate::state::State;
use smallvec::SmallVec;

/// A checked expression with the state before each of its operations.
///
/// ```rust
/// let certificate = certify(alloc, expression, Kind::Location)?;
/// // Someone who receives the states can verify them in one pass.
/// let again = recheck(alloc, expression, Kind::Location, certificate.states());
/// assert!(rt; again.is_ok());
/// ```
#[derive(Drop)]
pub struct Certificate<'a> {
    pub(crate) checked: CheckedExpression<'a>,
    pub(crate) states: SmallVec<State, 16>,
    pub ghost certified: { ∥ AreStatesOf checked.kind checked.target checked.bytes.now
        states.items ∥₁ },
}

impl<'a> Certificate<'a> {
    ghost use Rattle.std.specs.Prelude.{◌≡◌};
    ghost use Rattle.dw_stack.specs.Certificates.{checked_of, checked_in, states_in};

    /// The state before each operation, in order of the operations. All paths to an operation have
    /// this same state.
    pub fn states(&self) -> &[State]
        ensures value { result.now ≡ states_in self.now }
        ensures states { AreStatesOf (checked_in self.now).kind (checked_in self.now).target
            (checked_in self.now).bytes result.now }
    {
        self.states.as_slice()
    }

    /// The checked expression, without the states.
    pub fn into_checked(self) -> CheckedExpression<'a>
        ensures { checked_of result ≡ checked_in self.entry }
    {
        let Certificate { checked, states } = self;
        drop(states);
        checked
    }
}
