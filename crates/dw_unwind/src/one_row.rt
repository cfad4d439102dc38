//! One row that has been looked up, as a source of rows.

ghost use Rattle.dw_rows.specs.RowLookups.{IsRowUnder};

use crate::unwind_rows::UnwindRows;
use dw_bytes::Target;
use dw_rules::UnwindRow;
use std::marker::Model;

/// A row that has been looked up in some other way, such as in place, as a source of rows. It is
/// the row of each address, so use it for the address that was looked up.
///
/// ```rust
/// let Some((row, fde)) = row_for_address_in(&section, &table, address, &mut look_up)? else {
///     return Ok(()); // no FDE covers it
/// };
/// let rows = OneRow::new(section.target, row, fde.cie.cie.return_address_register);
/// let caller = unwind(&rows, &abi, address, &registers, &memory);
/// ```
#[derive(Drop)]
pub struct OneRow<'r> {
    target: Target,
    row: UnwindRow<'r, 'r>,
    return_register: u16,
}

impl<'r> Model for OneRow<'r> {
    ghost use Rattle.dw_rows.specs.RowLookups.{IsRowUnder};
    ghost use Rattle.dw_unwind.specs.OneRows.{LookedUpRow};

    ghost Value = { LookedUpRow };

    ghost view = { λ r. record {
      target = r.target;
      row = r.row;
      return_register = r.return_register;
    } };

    ghost invariant = { λ r. IsRowUnder r.target r.row };
}

impl<'r> OneRow<'r> {
    ghost use Rattle.std.specs.Prelude.{◌≡◌};

    /// A row of a section that was read with this target, and the return address register that its
    /// CIE names. The row's expressions must have the target.
    pub fn new(target: Target, row: UnwindRow<'r, 'r>, return_register: u16) -> Self
        requires { IsRowUnder target row }
        ensures { result ≡ record { target = target; row = row.entry; return_register = return_register } }
    {
        OneRow {
            target,
            row,
            return_register,
        }
    }
}

/// Gives the row for each address.
impl<'r> UnwindRows for OneRow<'r> {
    type Slot = ();

    ghost use Rattle.std.specs.Prelude.{◌≡◌, Some};

    ghost target_of = { λ r. r.target };

    ghost finds = { λ r address found. found ≡ Some (r.row, r.return_register) };

    #[inline(always)]
    fn rows_target(&self) -> Target {
        self.target
    }

    #[inline(always)]
    fn slot(&self) -> () {}

    #[inline(always)]
    fn find_row<'p>(
        &'p self,
        _address: u64,
        _slot: &'p mut (),
    ) -> Option<(UnwindRow<'p, 'p>, u16)> {
        Some((self.row.lend(), self.return_register))
    }
}
