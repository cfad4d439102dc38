//! The trait `UnwindRows`, for types that can look up the row of an address.

ghost use Rattle.std.specs.Prelude.{◌≡◌, ℕ, IfSome, Option};
ghost use Rattle.dw_bytes.specs.declared.target.Target.{Target as OfTarget};
ghost use Rattle.dw_rules.specs.Rules.{Row};
ghost use Rattle.dw_rows.specs.RowLookups.{IsFoundAt, IsRowUnder};
ghost use Rattle.dw_tables.specs.UnwindTables.{row_at};

use dw_bytes::Target;
use dw_rows::CheckedFrame;
use dw_rules::{UnwindRow, UnwindTableRow};
use dw_tables::UnwindTable;

/// A source of rows: something that can look up the row of an address. A borrowed checked section
/// runs an FDE's program, a compiled table searches arrays, and a process of `dw_process` searches
/// for a module and then the module's table. Unwinding and stack walks work over all of them.
pub trait UnwindRows {
    /// Working memory of a look-up. A section writes the row there; a process reads and writes
    /// where the row may be; a table needs none, since it lends its own row. Any slot will do,
    /// whatever an earlier look-up left in it.
    type Slot: Drop;

    /// The target that the section was read with.
    ghost target_of: { Self → OfTarget };

    /// Which results a look-up of an address may have: a row and its return address register, or
    /// none.
    ghost finds: { Self → ℕ → Option (Row × ℕ) → Type 0 };

    /// The target that the section was read with.
    fn rows_target(&self) -> Target
        ensures { result ≡ target_of self.now };

    /// Makes a slot that no look-up has used.
    fn slot(&self) -> Self::Slot;

    /// The row of an address and the return address register that its CIE names, or `None` if no
    /// FDE covers the address.
    fn find_row<'p>(
        &'p self,
        address: u64,
        slot: &'p mut Self::Slot,
    ) -> Option<(UnwindRow<'p, 'p>, u16)>
        ensures found { finds self.now address result }
        ensures under { IfSome result (λ found. IsRowUnder (target_of self.now) found.0) };
}

impl UnwindRows for UnwindTable {
    type Slot = ();

    ghost target_of = { λ t. t.target };

    ghost finds = { λ t address found. found ≡ row_at t address };

    #[inline(always)]
    fn rows_target(&self) -> Target {
        self.target()
    }

    #[inline(always)]
    fn slot(&self) -> () {}

    #[inline(always)]
    fn find_row<'p>(&'p self, address: u64, _slot: &'p mut ()) -> Option<(UnwindRow<'p, 'p>, u16)> {
        self.row_and_return_register(address)
    }
}

impl<'f> UnwindRows for &'f UnwindTable {
    type Slot = ();

    ghost target_of = { λ t. t.now.target };

    ghost finds = { λ t address found. found ≡ row_at t.now address };

    #[inline(always)]
    fn rows_target(&self) -> Target {
        self.target()
    }

    #[inline(always)]
    fn slot(&self) -> () {}

    #[inline(always)]
    fn find_row<'p>(&'p self, address: u64, _slot: &'p mut ()) -> Option<(UnwindRow<'p, 'p>, u16)> {
        self.row_and_return_register(address)
    }
}

impl<'f, 'a> UnwindRows for &'f CheckedFrame<'a> {
    type Slot = UnwindTableRow<'f, 'a>;

    ghost target_of = { λ s. s.now.target };

    ghost finds = { λ s. IsFoundAt s.now };

    #[inline(always)]
    fn rows_target(&self) -> Target {
        self.target()
    }

    #[inline(always)]
    fn slot(&self) -> UnwindTableRow<'f, 'a> {
        UnwindTableRow::empty()
    }

    #[inline(always)]
    fn find_row<'p>(
        &'p self,
        address: u64,
        slot: &'p mut UnwindTableRow<'f, 'a>,
    ) -> Option<(UnwindRow<'p, 'p>, u16)> {
        // For the proof: by the contract of `section` the section has no fault, so all its
        // expressions have its target.
        let _ = self.section();
        match self.row_for_address_into(address, slot) {
            Some((cie, _)) => Some((slot.lend(), cie.return_address_register)),
            None => None,
        }
    }
}
