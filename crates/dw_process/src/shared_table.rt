//! A compiled table that several processes share.

ghost use Rattle.std.specs.Prelude.{◌≡◌, IfSome, is_some};
ghost use Rattle.dw_tables.specs.UnwindTables.{row_at};
ghost use Rattle.dw_rows.specs.RowLookups.{IsRowUnder};

use dw_bytes::Target;
use dw_rules::UnwindRow;
use dw_tables::UnwindTable;
use std::alloc::Global;
use std::marker::Model;
use std::sync::Arc;

/// One of the owners that share a compiled table. The table is freed with its last owner. Owners
/// may be on different threads.
#[derive(Drop)]
pub struct SharedTable {
    table: Arc<UnwindTable>,
}

impl Model for SharedTable {
    ghost use Rattle.dw_tables.specs.UnwindTables.{RowTable};

    ghost Value = { RowTable };

    ghost view = { λ t. t.table.value };
}

impl SharedTable {
    /// The first owner of `table`; none if there isn't enough memory.
    pub fn new(alloc: Global, table: UnwindTable) -> Option<Self>
        ensures { IfSome result (λ owner. owner ≡ table) }
    {
        match Arc::new(alloc, table) {
            Ok(table) => Some(SharedTable { table }),
            Err(_) => None,
        }
    }

    /// Makes another owner of the same table; none if the table already has 2^63 - 1 owners.
    pub fn share(&self) -> Option<Self>
        ensures { IfSome result (λ owner. owner ≡ self.now) }
    {
        match Arc::try_clone(&self.table) {
            Ok(table) => Some(SharedTable { table }),
            Err(_) => None,
        }
    }

    /// The target that the table's section was read with.
    pub fn target(&self) -> Target
        ensures { result ≡ self.now.target }
    {
        self.table.target()
    }

    /// Whether the table has a row at an address.
    pub fn has_row(&self, address: u64) -> bool
        ensures { result ≡ is_some (row_at self.now address) }
    {
        self.table.row_and_return_register(address).is_some()
    }

    /// The table's row at an address, with its return address register, if it is a usual one: see
    /// the table's call of this name.
    #[inline(always)]
    pub fn usual_row_and_return_register(&self, address: u64) -> Option<(UnwindRow<'_, '_>, u16)>
        ensures row { IfSome result (λ found. row_at self.now address ≡ Some found) }
        ensures under { IfSome result (λ found. IsRowUnder self.now.target found.0) }
    {
        self.table.usual_row_and_return_register(address)
    }

    /// The table's row at an address, with its return address register; none if the table has no
    /// row there. `hint` is that of the table's call of this name.
    #[inline(always)]
    pub fn row_and_return_register_near(
        &self,
        address: u64,
        hint: &mut u32,
    ) -> Option<(UnwindRow<'_, '_>, u16)>
        ensures row { result ≡ row_at self.now address }
        ensures under { IfSome result (λ found. IsRowUnder self.now.target found.0) }
    {
        self.table.row_and_return_register_near(address, hint)
    }
}
