//! A module of a process, at its place in the process's memory.

ghost use Rattle.std.specs.Prelude.{◌≡◌, IfSome};
ghost use Rattle.dw_rows.specs.RowLookups.{IsRowUnder};
ghost use Rattle.dw_tables.specs.UnwindTables.{row_at};
ghost use Rattle.dw_process.specs.Processes.{has_marks_at, is_linked_signal, is_linked_signed, linked_row};

use crate::address_range::AddressRange;
use crate::shared_marks::SharedMarks;
use crate::shared_table::SharedTable;
use dw_rules::UnwindRow;

/// A module of a process, which is the executable or a library: its compiled table, or two, and
/// where it is loaded.
#[derive(Drop)]
pub struct LoadedModule {
    /// The number that `Process::add` gave to the module.
    pub id: u64,
    /// A number of the caller's own. It has no meaning here.
    pub cookie: u64,
    /// What is added to an address as linked, modulo 2^w, w being the size of an address in bits,
    /// to get the address as loaded.
    pub load_address: u64,
    /// The addresses, as loaded, that the module may have rows for.
    pub range: AddressRange,
    /// The module's rows: those of its section, or if it has both, those of `.debug_frame`.
    pub rows: SharedTable,
    /// The rows of `.eh_frame`, if the module has both sections. They are those of the addresses for
    /// which `rows` has none.
    pub fallback: Option<SharedTable>,
    /// Which addresses, as linked, are those of signal frames, and at which return addresses are
    /// signed. If the module has both sections, this says nothing of addresses for which `rows` has
    /// a row.
    pub marks: SharedMarks,
}

/// The row of an address as linked in the second table of a module. `guess` says where it may be,
/// and afterwards `hint` says where it is. Few modules have two tables: this is a call of its own,
/// so that walks in the others save no registers for it.
#[cold]
#[inline(never)]
fn fallback_row_near<'p>(
    fallback: &'p SharedTable,
    address: u64,
    guess: u32,
    hint: &mut u32,
) -> Option<(UnwindRow<'p, 'p>, u16)>
    ensures row { result ≡ row_at fallback.now address }
    ensures under { IfSome result (λ found. IsRowUnder fallback.now.target found.0) }
{
    *hint = guess;
    fallback.row_and_return_register_near(address, hint)
}

impl LoadedModule {
    /// The row of an address as linked and its return address register; none if the module has no
    /// row there. `hint` says where the row may be in its table, and afterwards where it is. Any
    /// number will do. In a module with two tables each is tried where the hint says.
    #[inline(always)]
    pub(crate) fn row_near(&self, address: u64, hint: &mut u32) -> Option<(UnwindRow<'_, '_>, u16)>
        requires { IfSome self.now.fallback (λ table. table.target ≡ self.now.rows.target) }
        ensures row { result ≡ linked_row self.now address }
        ensures under { IfSome result (λ found. IsRowUnder self.now.rows.target found.0) }
    {
        let guess = *hint;
        match self.rows.row_and_return_register_near(address, hint) {
            Some(found) => Some(found),
            None => match &self.fallback {
                Some(fallback) => fallback_row_near(fallback, address, guess, hint),
                None => None,
            },
        }
    }

    /// Whether the marks say something of an address as linked: if the module has two tables, the
    /// first one has no row there.
    fn has_marks_at(&self, address: u64) -> bool
        ensures { result ≡ has_marks_at self.now address }
    {
        match &self.fallback {
            Some(_) => !self.rows.has_row(address),
            None => true,
        }
    }

    /// Whether an address as linked is one of a signal frame.
    #[inline(always)]
    pub(crate) fn is_signal_frame(&self, address: u64) -> bool
        ensures { result ≡ is_linked_signal self.now address }
    {
        self.marks.is_signal_frame(address) && self.has_marks_at(address)
    }

    /// Whether the return address is signed at an address as linked.
    #[inline(always)]
    pub(crate) fn is_signed(&self, address: u64) -> bool
        ensures { result ≡ is_linked_signed self.now address }
    {
        self.marks.is_signed(address) && self.has_marks_at(address)
    }
}
