//! The checked expressions of a section, in a list that grows while the section's programs are
//! checked.

ghost use Rattle.std.specs.Prelude.{◌≡◌, [], ◌∷◌, ◌++◌, Some, OnOk, IfErr, IfOk};
ghost use Rattle.dw_bytes.specs.Answers.{Answers, memory};
ghost use Rattle.dw_frame.specs.Views.{instruction_of, expression_of};
ghost use Rattle.dw_stack.specs.Located.{located_as, located_fault};
ghost use Rattle.dw_rules.specs.Expressions.{expression_in, list_of};

use crate::few_expressions::FewExpressions;
use dw_bytes::{Fault, FaultKind, OUT_OF_MEMORY};
use dw_frame::{CallFrameInstruction, UnwindExpression};
use dw_stack::{CheckedExpression, Kind, check_expression};
use std::alloc::{AllocError, Global};
use std::marker::Model;

/// An expression of at most this many bytes has at most 16 operations, and so `check_expression`
/// allocates nothing for it.
const SHORT: usize = 16;

/// Where checked expressions are, each with the offset of its first byte in the section.
#[derive(Drop)]
pub enum Kept<'a> {
    /// In the value itself, if there are any: then nothing is allocated.
    Few(Option<FewExpressions<'a>>),
    /// In an allocation that grows.
    Many(Vec<(u32, CheckedExpression<'a>)>),
}

/// The expressions that have passed their check, in the order in which they were checked. Each has
/// the offset of its first byte in the section.
///
/// ```rust
/// let mut checked = CheckedExpressions::few(alloc);
/// check_cie_program(&mut context.state, &mut checked, &cie)?; // allocates nothing
/// ```
#[derive(Drop)]
pub struct CheckedExpressions<'a> {
    alloc: Global,
    kept: Kept<'a>,
}

impl<'a> Model for CheckedExpressions<'a> {
    ghost use Rattle.std.specs.Prelude.{List};
    ghost use Rattle.dw_stack.specs.Located.{LocatedExpression};
    ghost use Rattle.dw_rows.specs.KeptExpressions.{kept_in};

    ghost Value = { List LocatedExpression };

    ghost view = { λ j. kept_in j.kept };
}

impl<'a> CheckedExpressions<'a> {
    ghost use Rattle.std.specs.Prelude.{length};
    ghost use Rattle.dw_stack.specs.Located.{all_located, located_of};

    /// An empty list.
    pub fn new(alloc: Global) -> Self
        ensures { result ≡ [] }
    {
        CheckedExpressions {
            alloc,
            kept: Kept::Many(Vec::new(alloc)),
        }
    }

    /// An empty list in which checks allocate nothing. For the expression after the first `MAX_FEW`,
    /// and for one of more than 16 bytes, they report `Memory`. That nothing is allocated is tested,
    /// since no clause can say it.
    pub fn few(alloc: Global) -> Self
        ensures { result ≡ [] }
    {
        CheckedExpressions {
            alloc,
            kept: Kept::Few(None),
        }
    }

    /// Removes all expressions.
    pub fn clear(&mut self)
        ensures { self.new ≡ [] }
    {
        match &mut self.kept {
            Kept::Few(few) => *few = None,
            Kept::Many(many) => many.clear(),
        }
    }

    /// All expressions, in the order in which they were checked, each with the offset of its first
    /// byte in the section.
    pub fn as_slice(&self) -> &[(u32, CheckedExpression<'a>)]
        ensures { all_located result.now ≡ self.now }
    {
        match &self.kept {
            Kept::Few(None) => &[],
            Kept::Few(Some(few)) => few.as_slice(),
            Kept::Many(many) => many.as_slice(),
        }
    }

    /// How many expressions there are.
    pub fn count(&self) -> usize
        ensures { result ≡ length self.now }
    {
        self.as_slice().len()
    }

    /// Copies all expressions, in the order in which they were checked, to an allocation of their
    /// size.
    pub fn to_vec(&self) -> Result<Vec<(u32, CheckedExpression<'a>)>, AllocError>
        ensures { IfOk result (λ copy. all_located copy.items ≡ self.now) }
    {
        Vec::from_slice(self.alloc, self.as_slice())
    }

    /// Checks the expression of an instruction, if the instruction has one, and appends the
    /// expression to the list. After an error nothing is said of the list: `clear` it before it is
    /// used again.
    #[inline(always)]
    pub fn check(&mut self, instruction: &CallFrameInstruction<'a>) -> Result<(), Fault>
        ensures answer { Answers (located_fault (expression_in (instruction_of instruction.now)))
            result }
        ensures kept { OnOk result
            (self.new ≡ self.old ++ list_of (expression_in (instruction_of instruction.now))) }
    {
        match instruction {
            CallFrameInstruction::DefCfaExpression { expression } => {
                self.check_as(Kind::FrameCfa, *expression)
            }
            CallFrameInstruction::Expression { expression, .. } => {
                self.check_as(Kind::FrameRegister, *expression)
            }
            CallFrameInstruction::ValExpression { expression, .. } => {
                self.check_as(Kind::FrameRegister, *expression)
            }
            _ => Ok(()),
        }
    }

    /// Whether the check of this expression might allocate memory that may not be allocated.
    #[inline(always)]
    fn lacks_room(&self, found: &UnwindExpression<'a>) -> bool {
        match &self.kept {
            Kept::Few(_) => found.expression.bytes().len() > SHORT,
            Kept::Many(_) => false,
        }
    }

    /// Appends a checked expression.
    fn push(&mut self, item: (u32, CheckedExpression<'a>)) -> Result<(), Fault>
        ensures pushed { OnOk result (self.new ≡ self.old ++ located_of item.entry ∷ []) }
        ensures refused { IfErr result (λ fault. fault ≡ memory) }
    {
        match &mut self.kept {
            Kept::Few(None) => self.kept = Kept::Few(Some(FewExpressions::of(item))),
            Kept::Few(Some(few)) => {
                if !few.push(item) {
                    return Err(OUT_OF_MEMORY);
                }
            }
            Kept::Many(many) => {
                if many.push(item).is_err() {
                    return Err(OUT_OF_MEMORY);
                }
            }
        }
        Ok(())
    }

    /// Checks an expression under the kind `kind`, and appends it to the list. A fault has its
    /// offset in the section.
    fn check_as(&mut self, kind: Kind, found: UnwindExpression<'a>) -> Result<(), Fault>
        ensures answer { Answers
            (located_fault (Some (located_as kind (expression_of found.entry)))) result }
        ensures kept { OnOk result
            (self.new ≡ self.old ++ located_as kind (expression_of found.entry) ∷ []) }
    {
        if self.lacks_room(&found) {
            return Err(OUT_OF_MEMORY);
        }
        match check_expression(self.alloc, found.expression, kind) {
            Ok(checked) => {
                self.push((found.offset, checked))?;
                Ok(())
            }
            Err(fault) if fault.kind == FaultKind::Memory => Err(OUT_OF_MEMORY),
            Err(fault) => Err(Fault {
                kind: fault.kind,
                at: found.offset + fault.at,
            }),
        }
    }
}
