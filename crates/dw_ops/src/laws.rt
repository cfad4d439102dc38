//! Laws about operations. The functions do nothing: the contract of each is a law.

ghost use Rattle.std.specs.Prelude.{◌≡◌, ◌<◌, ◌↔◌, ℕ, List, [], ◌∷◌, ◌++◌, length, map, Ok, Err};
ghost use Rattle.dw_bytes.specs.declared.target.Target.{Target};
ghost use Rattle.dw_bytes.specs.declared.fault.Fault.{Fault};
ghost use Rattle.dw_bytes.specs.Reading.{ReadPosition, IsExact};
ghost use Rattle.dw_ops.specs.Operations.{Operation};
ghost use Rattle.dw_ops.specs.Opcodes.{EncodesOperation, AreOperations, operation_at, operations_of};

/// No operation's encoding is a proper prefix of another encoding, and the same bytes encode only
/// one operation.
pub fn operations_are_unambiguous()
    ensures { (target : Target) (at : ℕ) (a b x y : List ℕ) (i j : Operation)
        → EncodesOperation target at a i → EncodesOperation target at b j → a ++ x ≡ b ++ y
        → (a ≡ b) × (i ≡ j) }
{}

/// An operation is read exactly if the next bytes encode it.
pub fn operations_are_exact()
    ensures { (r : ReadPosition) → IsExact operation_at (EncodesOperation r.target r.position) r }
{}

/// Bytes are read to the end without a fault exactly if they are the encodings of operations, one
/// after another. Reading then gives these operations with their offsets.
pub fn expressions_are_operations()
    ensures { (r : ReadPosition) (items : List (ℕ × Operation))
        → (operations_of r ≡ map Ok items) ↔ AreOperations r.target r.position r.rest items }
{}

/// Reading all operations gives the first operation and then what is read after it. Reading stops
/// at the end of the bytes, or at the first fault, which is then the last item.
pub fn operations_come_in_order()
    ensures operation { (r : ReadPosition) (i : Operation) (after : ReadPosition)
        → operation_at r ≡ Ok (i, after)
        → operations_of r ≡ Ok (r.position, i) ∷ operations_of after }
    ensures fault { (r : ReadPosition) (fault : Fault) → 0 < length r.rest
        → operation_at r ≡ Err fault → operations_of r ≡ Err fault ∷ [] }
    ensures nothing { (r : ReadPosition) → length r.rest ≡ 0 → operations_of r ≡ [] }
{}

/// An operation has at least one byte.
pub fn no_operation_is_empty()
    ensures { (target : Target) (at : ℕ) (bytes : List ℕ) (i : Operation)
        → EncodesOperation target at bytes i → 0 < length bytes }
{}
