//! The module of a process that has an address, for a step of a walk.

ghost use Rattle.std.specs.Prelude.{◌≡◌, IfSome, Some};
ghost use Rattle.dw_rows.specs.RowLookups.{IsRowUnder};
ghost use Rattle.dw_process.specs.Processes.{is_signal_in_module, is_signed_in_module, row_of_module};

use crate::loaded_module::LoadedModule;
use crate::row_cache::ProcessSlot;
use dw_bytes::Target;
use dw_rules::UnwindRow;
use dw_unwind::{UnwindRows, as_linked};
use std::marker::Model;

/// The module of a process whose range contains an address. A step of a walk asks for the row of
/// its address, whether the address is one of a signal frame, and whether the return address is
/// signed there. With this it looks the module up only once (`Process::module_near`).
#[derive(Drop)]
pub struct ModuleRows<'p> {
    /// The target of the module's tables, and of its process.
    target: Target,
    module: &'p LoadedModule,
}

impl<'p> Model for ModuleRows<'p> {
    ghost use Rattle.std.specs.Prelude.{◌≡◌, IfSome};
    ghost use Rattle.dw_process.specs.declared.loaded_module.LoadedModule.{LoadedModule};

    ghost Value = { LoadedModule };

    ghost view = { λ m. m.module.now };

    ghost invariant = { λ m. (m.module.now.rows.target ≡ m.target)
        × IfSome m.module.now.fallback (λ table. table.target ≡ m.target) };
}

impl<'p> ModuleRows<'p> {
    /// The rows of a module whose tables have this target.
    #[inline(always)]
    pub(crate) fn new(target: Target, module: &'p LoadedModule) -> Self
        requires rows { module.now.rows.target ≡ target }
        requires fallback { IfSome module.now.fallback (λ table. table.target ≡ target) }
        ensures { result ≡ module.now }
    {
        ModuleRows { target, module }
    }

    /// The row of an address as loaded and its return address register; none if the module has no
    /// row there. The slot's hint says where the row may be, and afterwards where it is.
    #[inline(always)]
    pub fn row_near(&self, address: u64, slot: &mut ProcessSlot) -> Option<(UnwindRow<'p, 'p>, u16)>
        ensures row { result ≡ row_of_module self.now address }
        ensures under { IfSome result (λ found. IsRowUnder self.now.rows.target found.0) }
    {
        let linked = as_linked(self.target, self.module.load_address, address);
        self.module.row_near(linked, &mut slot.hint.entry_count)
    }

    /// Whether an address as loaded is one of a signal frame (`Process::is_signal_frame`).
    #[inline(always)]
    pub fn is_signal_frame(&self, address: u64) -> bool
        ensures { result ≡ is_signal_in_module (Some self.now) address }
    {
        let linked = as_linked(self.target, self.module.load_address, address);
        self.module.is_signal_frame(linked)
    }

    /// Whether the return address is signed at an address as loaded (`Process::is_signed`).
    #[inline(always)]
    pub fn is_signed(&self, address: u64) -> bool
        ensures { result ≡ is_signed_in_module (Some self.now) address }
    {
        let linked = as_linked(self.target, self.module.load_address, address);
        self.module.is_signed(linked)
    }
}

/// Looks rows up in the module. Of a slot only the hint of where the row may be is used.
impl<'p> UnwindRows for ModuleRows<'p> {
    type Slot = ProcessSlot;

    ghost use Rattle.std.specs.Prelude.{◌≡◌};
    ghost use Rattle.dw_process.specs.Processes.{row_of_module};

    ghost target_of = { λ m. m.rows.target };

    ghost finds = { λ m address found. found ≡ row_of_module m address };

    #[inline(always)]
    fn rows_target(&self) -> Target {
        self.target
    }

    #[inline(always)]
    fn slot(&self) -> ProcessSlot {
        ProcessSlot::new()
    }

    #[inline(always)]
    fn find_row<'f>(
        &'f self,
        address: u64,
        slot: &'f mut ProcessSlot,
    ) -> Option<(UnwindRow<'f, 'f>, u16)> {
        self.row_near(address, slot)
    }
}
