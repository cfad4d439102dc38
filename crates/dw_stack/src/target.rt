//! The offsets of operations, and the operations that branches lead to.

ghost use Rattle.std.specs.Prelude.{◌≡◌, ◌≢◌, ◌+◌, ◌<◌, ◌≤◌, ℕ, length, IfOk, IfErr};
ghost use Rattle.dw_bytes.specs.declared.fault.FaultKind.{FaultKind};
ghost use Rattle.dw_stack.specs.Paths.{IsLaidOut, place, branch_target};
ghost use Rattle.dw_stack.specs.OperationCheck.{TargetPlace, TargetObjects};
ghost use Rattle.dw_stack.specs.Views.{placed_in};

use dw_bytes::FaultKind;
use dw_ops::Operation;

/// The offset of operation `i`, or `end` if there is no such operation.
#[tactic(auto, using(crate::proofs::Lists::places))]
#[inline(always)]
pub fn place_of_operation(operations: &[(u32, Operation<'_>)], end: u32, i: usize) -> u32
    ensures { result ≡ place (placed_in operations.now) end i }
{
    if i < operations.len() {
        operations[i].0
    } else {
        end
    }
}

/// The offset that a branch leads to: `jump` bytes after `next`, the offset of the next operation.
/// `None` for a backward branch.
#[inline(always)]
fn jump_target(next: u32, jump: i16) -> Option<u64>
    ensures { result ≡ branch_target next jump }
{
    if jump < 0 {
        return None;
    }
    Some(u64::from(next) + jump as u64)
}

/// The index of the operation after `from` that begins at offset `target`, or the number of all
/// operations if `target` is `end`; otherwise `TargetNotStart`. Uses binary search.
#[tactic(auto, using(crate::proofs::Lists::places))]
fn place_at_target(
    operations: &[(u32, Operation<'_>)],
    end: u32,
    from: usize,
    target: u64,
) -> Result<usize, FaultKind>
    requires laid { IsLaidOut (placed_in operations.now) end }
    requires from { from < length operations.now }
    requires ahead { place (placed_in operations.now) end (from + 1) ≤ target }
    ensures ok { IfOk result (λ j. (from < j) × (j ≤ length operations.now)
        × (place (placed_in operations.now) end j ≡ target)) }
    ensures err { IfErr result (λ e. (e ≡ FaultKind.TargetNotStart)
        × ((j : ℕ) → j ≤ length operations.now → place (placed_in operations.now) end j ≢ target)) }
{
    let mut low = from + 1;
    let mut high = operations.len();
    while low < high {
        let middle = low + (high - low) / 2;
        if u64::from(operations[middle].0) < target {
            low = middle + 1;
        } else {
            high = middle;
        }
    }
    if u64::from(place_of_operation(operations, end, low)) == target {
        Ok(low)
    } else {
        Err(FaultKind::TargetNotStart)
    }
}

/// The index of the operation that operation `from` branches to by `jump` bytes, or the number of
/// all operations if it branches to `end`. `Backward` if `jump` is negative, `TargetNotStart` if no
/// operation begins at the target.
#[tactic(auto, using(crate::proofs::Lists::places))]
#[inline(always)]
pub fn place_of_jump(
    operations: &[(u32, Operation<'_>)],
    end: u32,
    from: usize,
    jump: i16,
) -> Result<usize, FaultKind>
    requires laid { IsLaidOut (placed_in operations.now) end }
    requires from { from < length operations.now }
    ensures ok { IfOk result (TargetPlace (placed_in operations.now) end from jump) }
    ensures err { IfErr result (TargetObjects (placed_in operations.now) end from jump) }
{
    match jump_target(place_of_operation(operations, end, from + 1), jump) {
        None => Err(FaultKind::Backward),
        Some(target) => place_at_target(operations, end, from, target),
    }
}
