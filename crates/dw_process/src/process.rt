//! The modules of a process, which are added, removed and looked up at run time.

ghost use Rattle.std.specs.List.{list_any, position};
ghost use Rattle.std.specs.Option.{option_map};
ghost use Rattle.std.specs.Prelude.{◌==◌, ◌≡◌, ◌<◌, ◌^◌, All, IfErr, IfNone, IfOk, IfSome, Some, length};
ghost use Rattle.dw_process.specs.BothSections.{AreAddedWith, AreRefusedWith};
ghost use Rattle.dw_process.specs.ModuleMaps.{AreInOrder, IsPlaceFor, IsProper, module_at};
ghost use Rattle.dw_process.specs.Processes.{AreDistinct, IsAdded, IsAddedWith, IsFoundIn, IsInserted, IsStored, found_at, is_signal_in, is_signed_in, module_of, no_modules, removed};
ghost use Rattle.dw_process.specs.Marks.{marks_of};
ghost use Rattle.dw_process.specs.Refusals.{IsRefused, IsRefusedWith};

use crate::address_range::AddressRange;
use crate::both_sections::TableRooms;
use crate::found_row::FoundRow;
use crate::loaded_module::LoadedModule;
use crate::module_map::ModuleMap;
use crate::module_rows::ModuleRows;
use crate::ready_module::{CompiledFrame, ReadyModule, prepare, prepare_both, prepare_compiled};
use crate::refusal::{BothRefusal, Refusal};
use crate::row_cache::ProcessSlot;
use crate::shared_marks::{FrameMarks, SharedMarks};
use dw_bytes::{OUT_OF_MEMORY, Target};
use dw_rows::{CheckedFrame, check_frame};
use dw_rules::UnwindRow;
use dw_signed_rows::SignedRanges;
use dw_unwind::{UnwindRows, as_linked};
use std::alloc::Global;
use std::marker::Model;

/// The modules of a process: its executable and its libraries. Each module has a compiled table, or
/// two, one for each of its sections; a load address; and a range of addresses as loaded, which no
/// other module shares. The module of an address is the one whose range contains it, and is found in
/// O(log n) steps among n modules.
///
/// A `Process` borrows nothing: a module's section may be dropped once the module is added. `share`
/// makes another `Process` with the same tables and doesn't copy them. A `&Process` is an
/// `Unwinder`, so it can be passed to `Walk::new`, `unwind` and `backtrace`.
#[derive(Drop)]
pub struct Process {
    target: Target,
    next_id: u64,
    pub(crate) modules: ModuleMap,
}

impl Model for Process {
    ghost use Rattle.dw_process.specs.Processes.{AreModulesOf, ProcessState};

    ghost Value = { ProcessState };

    ghost view = { λ p. record { target = p.target; next_id = p.next_id; modules = p.modules } };

    ghost invariant = { λ p. AreModulesOf p.target p.next_id p.modules };
}

/// The index of the module with this id; none if there is no such module.
fn place_of(modules: &[LoadedModule], id: u64) -> Option<usize>
    ensures place { result ≡ position (λ m. m.id == id) modules.now }
    ensures inside { IfSome result (λ index. index < length modules.now) }
{
    modules.iter().position(|loaded| loaded.id == id)
}

impl Process {
    /// A process without modules. Its modules' sections are encoded for `target`.
    pub fn new(alloc: Global, target: Target) -> Self
        ensures { result ≡ no_modules target }
    {
        Process {
            target,
            next_id: 1,
            modules: ModuleMap::new(alloc),
        }
    }

    /// The byte order and the address size of the modules' sections.
    pub fn target(&self) -> Target
        ensures { result ≡ self.now.target }
    {
        self.target
    }

    /// The modules in order of address. No address is in the ranges of two modules. No two modules
    /// have the same id, and each id is below the one that the next module gets.
    pub fn modules(&self) -> &[LoadedModule]
        ensures modules { result.now ≡ self.now.modules }
        ensures order { AreInOrder self.now.modules }
        ensures ids { AreDistinct self.now.modules }
        ensures given { All (λ m. m.id < self.now.next_id) self.now.modules }
        ensures targets { All (λ m. m.rows.target ≡ self.now.target) self.now.modules }
        ensures fallback_targets { All (λ m. IfSome m.fallback
            (λ table. table.target ≡ self.now.target)) self.now.modules }
    {
        self.modules.as_slice()
    }

    /// The module whose range contains the address; none if there is no such module.
    #[inline(always)]
    pub fn module_at(&self, address: u64) -> Option<&LoadedModule>
        ensures { option_map (λ m. m.now) result ≡ module_at self.now.modules address }
    {
        self.modules.at(address)
    }

    /// The module whose range contains the address, for a step of a walk; none if there is no such
    /// module. `slot` says which module it may be: one of the last two that were found, or that of
    /// a hint. If none of them is right, a guess by blocks of addresses follows, then a search. Any
    /// slot will do.
    #[inline(always)]
    pub fn module_near(&self, address: u64, slot: &mut ProcessSlot) -> Option<ModuleRows<'_>>
        ensures module { result ≡ module_at self.now.modules address }
        ensures target { IfSome result (λ m. m.rows.target ≡ self.now.target) }
    {
        match self.modules.at_near(address, slot) {
            Some(module) => Some(ModuleRows::new(self.target, module)),
            None => None,
        }
    }

    /// Checks a `.debug_frame` section of fewer than 2^32 bytes, encoded for the process's target,
    /// compiles it, and adds it as a module, loaded at `load_address`. Returns the module's id,
    /// which no other module of this process has had. `cookie` is a number of the caller's own.
    ///
    /// The module answers for the addresses in `range`, and for no others. If no range is given, it
    /// answers for the addresses from the first to the last one that the section covers. The range
    /// may not share an address with the range of another module.
    ///
    /// `room` bounds what the compiled table stores, copied expressions included
    /// (`UnwindTable::compile` says how the bytes are counted). Checking and compiling may need
    /// more memory than that while they run. After an error the process is unchanged.
    pub fn add(
        &mut self,
        alloc: Global,
        section: &[u8],
        load_address: u64,
        range: Option<AddressRange>,
        cookie: u64,
        room: usize,
    ) -> Result<u64, Refusal>
        requires { length section.now < 2 ^ 32 }
        ensures added { IfOk result
            (λ id. IsAdded section.now load_address range cookie room self.old id self.new) }
        ensures refused { IfErr result
            (IsRefused self.old.target section.now load_address range room self.old.modules) }
        ensures same { IfErr result (λ _. self.new ≡ self.old) }
    {
        let frame = check_frame(alloc, section, self.target)?;
        let marks = FrameMarks {
            signals: Vec::new(alloc),
            signed: SignedRanges::none(alloc),
        };
        match self.add_checked(alloc, &frame, marks, load_address, range, cookie, room) {
            Ok(id) => Ok(id),
            Err(why) => Err(why),
        }
    }

    /// Adds a module with the rows of a checked section, and with these marks. The other arguments
    /// are those of `add`.
    pub(crate) fn add_checked(
        &mut self,
        alloc: Global,
        frame: &CheckedFrame<'_>,
        marks: FrameMarks,
        load_address: u64,
        range: Option<AddressRange>,
        cookie: u64,
        room: usize,
    ) -> Result<u64, Refusal>
        requires { frame.now.target ≡ self.old.target }
        ensures added { IfOk result
            (λ id. IsAddedWith frame.now (marks_of marks) load_address range cookie room self.old id
            self.new) }
        ensures refused { IfErr result
            (IsRefusedWith frame.now load_address range room self.old.modules) }
        ensures same { IfErr result (λ _. self.new ≡ self.old) }
    {
        let ready = prepare(alloc, &self.modules, frame, load_address, range, room)?;
        match self.insert_ready(alloc, ready, marks, load_address, cookie) {
            Some(id) => Ok(id),
            None => Err(Refusal::Section(OUT_OF_MEMORY)),
        }
    }

    /// Adds a module with the rows of a compiled section, and with these marks. The other arguments
    /// are those of `add`.
    pub(crate) fn add_compiled(
        &mut self,
        alloc: Global,
        compiled: CompiledFrame<'_>,
        marks: FrameMarks,
        load_address: u64,
        range: Option<AddressRange>,
        cookie: u64,
    ) -> Result<u64, Refusal>
        requires target { compiled.frame.target ≡ self.old.target }
        requires stored { IsStored compiled.frame compiled.room compiled.table }
        ensures added { IfOk result
            (λ id. IsAddedWith compiled.entry.frame (marks_of marks) load_address range cookie
            compiled.entry.room self.old id self.new) }
        ensures refused { IfErr result
            (IsRefusedWith compiled.entry.frame load_address range compiled.entry.room self.old.modules) }
        ensures same { IfErr result (λ _. self.new ≡ self.old) }
    {
        let ready = match prepare_compiled(alloc, &self.modules, compiled, load_address, range) {
            Ok(ready) => ready,
            Err(why) => return Err(why),
        };
        match self.insert_ready(alloc, ready, marks, load_address, cookie) {
            Some(id) => Ok(id),
            None => Err(Refusal::Section(OUT_OF_MEMORY)),
        }
    }

    /// Adds a module with the rows of two checked sections, and with these marks, which are those of
    /// `eh_frame`. The other arguments are those of `add_both`.
    pub(crate) fn add_both_checked(
        &mut self,
        alloc: Global,
        debug_frame: &CheckedFrame<'_>,
        eh_frame: &CheckedFrame<'_>,
        marks: FrameMarks,
        load_address: u64,
        range: Option<AddressRange>,
        cookie: u64,
        rooms: TableRooms,
    ) -> Result<u64, BothRefusal>
        requires debug_frame { debug_frame.now.target ≡ self.old.target }
        requires eh_frame { eh_frame.now.target ≡ self.old.target }
        ensures added { IfOk result
            (λ id. AreAddedWith debug_frame.now eh_frame.now (marks_of marks) load_address range
            cookie rooms self.old id self.new) }
        ensures refused { IfErr result
            (AreRefusedWith debug_frame.now eh_frame.now load_address range rooms
            self.old.modules) }
        ensures same { IfErr result (λ _. self.new ≡ self.old) }
    {
        let ready = prepare_both(
            alloc,
            &self.modules,
            debug_frame,
            eh_frame,
            load_address,
            range,
            rooms,
        )?;
        match self.insert_ready(alloc, ready, marks, load_address, cookie) {
            Some(id) => Ok(id),
            None => Err(BothRefusal::Memory),
        }
    }

    /// Adds a module that is ready, with these marks. Returns its id; none if memory ran out, or if
    /// no further id is left.
    fn insert_ready(
        &mut self,
        alloc: Global,
        ready: ReadyModule,
        marks: FrameMarks,
        load_address: u64,
        cookie: u64,
    ) -> Option<u64>
        requires proper { IsProper ready.range }
        requires place { IsPlaceFor ready.range self.old.modules ready.place }
        requires rows { ready.rows.target ≡ self.old.target }
        requires fallback { IfSome ready.fallback (λ table. table.target ≡ self.old.target) }
        ensures inserted { IfSome result
            (λ id. IsInserted (module_of ready (marks_of marks) load_address cookie id)
            (marks_of marks) load_address cookie self.old id self.new) }
        ensures same { IfNone result (self.new ≡ self.old) }
    {
        let marks = SharedMarks::new(alloc, marks)?;
        let id = self.next_id;
        let next_id = id.checked_add(1)?;
        let added = LoadedModule {
            id,
            cookie,
            load_address,
            range: ready.range,
            rows: ready.rows,
            fallback: ready.fallback,
            marks,
        };
        match self.modules.insert(ready.place, added) {
            Ok(()) => {
                self.next_id = next_id;
                Some(id)
            }
            Err(_) => None,
        }
    }

    /// Removes the module with this id. Returns whether there was one.
    #[tactic(auto, using(crate::proofs::Removing::removes))]
    pub fn remove(&mut self, id: u64) -> bool
        ensures removed { self.new ≡ removed id self.old }
        ensures found { result ≡ list_any (λ m. m.id == id) self.old.modules }
    {
        match place_of(self.modules.as_slice(), id) {
            Some(index) => {
                self.modules.remove(index);
                true
            }
            None => false,
        }
    }

    /// The row of an address as loaded (in the running process), from the module whose range
    /// contains the address; none if there is no such module, or if it has no row for the address.
    /// Allocates nothing.
    #[inline(always)]
    pub fn row_for_address(&self, address: u64) -> Option<FoundRow<'_>>
        ensures row { result ≡ found_at self.now address }
        ensures found { IfSome result (IsFoundIn self.now address) }
    {
        let mut slot = ProcessSlot::new();
        let Some(found) = self.modules.at_near(address, &mut slot) else {
            return None;
        };
        let linked = as_linked(self.target, found.load_address, address);
        match found.row_near(linked, &mut slot.hint.entry_count) {
            Some((row, return_register)) => Some(FoundRow {
                id: found.id,
                cookie: found.cookie,
                load_address: found.load_address,
                target: self.target,
                row,
                return_register,
            }),
            None => None,
        }
    }

    /// What `row_for_address` returns, for nearly all rows that compilers write for x86-64: the
    /// guess of the module is right, and the module's table has a usual row
    /// (`UnwindTable::usual_row_and_return_register`). After none, ask `row_for_address`: there may
    /// be a row. All that this calls is inlined, so a caller that asks here first saves no
    /// registers for a call.
    #[inline(always)]
    pub fn usual_row_for_address(&self, address: u64) -> Option<FoundRow<'_>>
        ensures row { IfSome result (λ found. found_at self.now address ≡ Some found) }
        ensures found { IfSome result (IsFoundIn self.now address) }
    {
        let Some(found) = self.modules.guessed(address) else {
            return None;
        };
        let linked = as_linked(self.target, found.load_address, address);
        // A module's first table is asked before its second one.
        let (row, return_register) = found.rows.usual_row_and_return_register(linked)?;
        Some(FoundRow {
            id: found.id,
            cookie: found.cookie,
            load_address: found.load_address,
            target: self.target,
            row,
            return_register,
        })
    }

    /// Whether an address as loaded is one of a signal frame: a frame that a signal handler returns
    /// to. Its caller was interrupted and made no call, so the caller's row is that of its own
    /// address, and not that of the address before. Only `.eh_frame` says so.
    pub fn is_signal_frame(&self, address: u64) -> bool
        ensures { result ≡ is_signal_in self.now address }
    {
        match self.module_near(address, &mut ProcessSlot::new()) {
            Some(module) => module.is_signal_frame(address),
            None => false,
        }
    }

    /// Whether the return address of a frame is signed at an address as loaded (aarch64's pointer
    /// authentication). Only `.eh_frame` for aarch64 says so. O(log n) among n modules, and among n
    /// stretches of code in which the module's functions sign theirs.
    pub fn is_signed(&self, address: u64) -> bool
        ensures { result ≡ is_signed_in self.now address }
    {
        match self.module_near(address, &mut ProcessSlot::new()) {
            Some(module) => module.is_signed(address),
            None => false,
        }
    }

    /// Makes another process with the same modules, which have the same ids. Both processes share
    /// the compiled tables, which are freed with the last process that has them. Each process may
    /// be used by a different thread. None if there isn't enough memory, or if a table already has
    /// 2^63 - 1 owners.
    pub fn share(&self, alloc: Global) -> Option<Process>
        ensures { IfSome result (λ other. other ≡ self.now) }
    {
        let modules = self.modules.share(alloc)?;
        Some(Process {
            target: self.target,
            next_id: self.next_id,
            modules,
        })
    }
}

/// Looks rows up in the module whose range contains the address. A slot says where the row may be.
impl UnwindRows for Process {
    type Slot = ProcessSlot;

    ghost use Rattle.std.specs.Prelude.{◌≡◌};
    ghost use Rattle.dw_process.specs.Processes.{row_in};

    ghost target_of = { λ p. p.target };

    ghost finds = { λ p address found. found ≡ row_in p address };

    #[inline(always)]
    fn rows_target(&self) -> Target {
        self.target
    }

    #[inline(always)]
    fn slot(&self) -> ProcessSlot {
        ProcessSlot::new()
    }

    #[inline(always)]
    fn find_row<'p>(
        &'p self,
        address: u64,
        slot: &'p mut ProcessSlot,
    ) -> Option<(UnwindRow<'p, 'p>, u16)> {
        let Some(module) = self.module_near(address, slot) else {
            return None;
        };
        module.row_near(address, slot)
    }
}
