//! Checked expressions, stored together with a copy of their bytes.

ghost use Rattle.std.specs.Prelude.{◌≡◌, ◌+◌, ◌++◌, ◌∷◌, [], IfOk, None, Some, MatchOption};
ghost use Rattle.dw_frame.specs.Bounds.{Ascends};
ghost use Rattle.dw_stack.specs.Located.{located_of};
ghost use Rattle.dw_rules.specs.Expressions.{expression_at};
ghost use Rattle.dw_rules.specs.ExpressionOrder.{expression_offset};

use dw_bytes::Target;
use dw_ops::Expression;
use dw_stack::{CheckedExpression, Kind};
use std::alloc::{AllocError, Global};
use std::marker::Model;

/// A checked expression, except for its bytes: those are in the array `bytes` of an
/// `ExpressionList`.
#[derive(Clone, Copy, Debug)]
pub struct OwnedExpression {
    /// The offset in the section at which the expression begins.
    pub offset: u32,
    /// The index of the expression's first byte in the array that has the bytes of all expressions.
    pub start: u32,
    /// How many bytes the expression has.
    pub length: u32,
    /// The number of operations of the expression.
    pub count: u32,
    /// The most entries that the stack has while the expression runs.
    pub depth: u8,
    /// What the expression is for.
    pub kind: Kind,
    /// The target that the expression was read with.
    pub target: Target,
}

/// Checked expressions with a copy of their bytes. The model is the list of the expressions.
#[derive(Debug, Drop)]
pub struct ExpressionList {
    /// The bytes of all expressions, one after another.
    bytes: Vec<u8>,
    kept: Vec<OwnedExpression>,
}

impl Model for ExpressionList {
    ghost use Rattle.std.specs.Prelude.{List};
    ghost use Rattle.dw_stack.specs.Located.{LocatedExpression};

    ghost Value = { List LocatedExpression };

    ghost use Rattle.dw_rules.specs.OwnedExpressions.{all_owned, AreAllBytes};

    ghost view = { λ l. all_owned l.bytes.items l.kept.items };

    ghost invariant = { λ l. AreAllBytes l.bytes.items l.kept.items };
}

impl ExpressionList {
    /// An empty list.
    pub fn new(alloc: Global) -> Self
        ensures { result ≡ [] }
    {
        ExpressionList {
            bytes: Vec::new(alloc),
            kept: Vec::new(alloc),
        }
    }

    /// Appends an expression, and copies its bytes.
    pub fn push(&mut self, offset: u32, checked: &CheckedExpression<'_>) -> Result<(), AllocError>
        ensures { IfOk result (λ _. self.new ≡ self.old ++ located_of (offset, checked.now) ∷ []) }
    {
        let bytes = checked.expression().bytes();
        let Ok(start) = u32::try_from(self.bytes.len()) else {
            return Err(AllocError);
        };
        let Ok(length) = u32::try_from(bytes.len()) else {
            return Err(AllocError);
        };
        let kept = OwnedExpression {
            offset,
            start,
            length,
            count: checked.operation_count(),
            depth: checked.depth(),
            kind: checked.kind(),
            target: checked.expression().target(),
        };
        self.bytes.extend_from_slice(bytes)?;
        if self.kept.push(kept).is_err() {
            self.bytes.truncate(start as usize);
            return Err(AllocError);
        }
        Ok(())
    }

    /// Copies the list into new arrays, so that no capacity is spare. The contract doesn't say so:
    /// it speaks only of the elements.
    pub fn cut(&mut self, alloc: Global) -> Result<(), AllocError>
        ensures { self.new ≡ self.old }
    {
        let bytes = Vec::from_slice(alloc, self.bytes.as_slice())?;
        let kept = Vec::from_slice(alloc, self.kept.as_slice())?;
        self.bytes = bytes;
        self.kept = kept;
        Ok(())
    }

    /// The expression that begins at an offset of the section, found by binary search, or `None` if
    /// none begins there.
    pub fn at(&self, offset: u32) -> Option<CheckedExpression<'_>>
        requires { Ascends expression_offset self.now }
        ensures { MatchOption result (expression_at self.now offset ≡ None)
            (λ checked. expression_at self.now offset ≡ Some (located_of (offset, checked))) }
    {
        match self.kept.binary_search_by_key(&offset, |kept| kept.offset) {
            Ok(place) => {
                let kept = self.kept[place];
                let start = kept.start as usize;
                let bytes = &self.bytes[start..start + kept.length as usize];
                Some(CheckedExpression::new(
                    Expression::new(bytes, kept.target),
                    kept.kind,
                    kept.depth,
                    kept.count,
                ))
            }
            Err(_) => None,
        }
    }
}

/// The checked expressions of a section with a copy of their bytes. The model is the list of the
/// expressions: first the expressions of the CIEs in order of offset, then the expressions of the
/// FDEs in order of offset.
#[derive(Debug, Drop)]
pub struct OwnedExpressions {
    cies: ExpressionList,
    fdes: ExpressionList,
}

impl Model for OwnedExpressions {
    ghost use Rattle.std.specs.Prelude.{List, ◌++◌};
    ghost use Rattle.dw_stack.specs.Located.{LocatedExpression};

    ghost Value = { List LocatedExpression };

    ghost use Rattle.dw_frame.specs.Bounds.{Ascends};
    ghost use Rattle.dw_rules.specs.ExpressionOrder.{expression_offset};

    ghost view = { λ o. o.cies ++ o.fdes };

    ghost invariant = { λ o. Ascends expression_offset o.cies × Ascends expression_offset o.fdes };
}

impl OwnedExpressions {
    /// The expressions of the CIEs, and those of the FDEs, each in order of offset.
    pub fn new(cies: ExpressionList, fdes: ExpressionList) -> Self
        requires cies { Ascends expression_offset cies }
        requires fdes { Ascends expression_offset fdes }
        ensures { result ≡ cies ++ fdes }
    {
        OwnedExpressions { cies, fdes }
    }

    /// The expression that begins at an offset of the section, or `None` if none begins there. The
    /// CIEs' expressions are searched first, since there are few of them. Both searches are binary.
    pub fn at(&self, offset: u32) -> Option<CheckedExpression<'_>>
        ensures { MatchOption result (expression_at self.now offset ≡ None)
            (λ checked. expression_at self.now offset ≡ Some (located_of (offset, checked))) }
    {
        if let Some(checked) = self.cies.at(offset) {
            return Some(checked);
        }
        self.fdes.at(offset)
    }
}
