//! Modules that aren't yet added to a process: their tables are made, and their place is found.

ghost use Rattle.std.specs.Prelude.{◌≡◌, ◌<◌, ℕ, IfErr, IfNone, IfOk, IfSome, None};
ghost use Rattle.dw_bytes.specs.Answers.{memory};
ghost use Rattle.dw_tables.specs.UnwindTables.{table_bytes};
ghost use Rattle.dw_process.specs.BothSections.{AreReady, AreRefusedWith};
ghost use Rattle.dw_process.specs.ModuleMaps.{IsPlaceFor};
ghost use Rattle.dw_process.specs.Processes.{IsReady, IsStored};
ghost use Rattle.dw_process.specs.Ranges.{IsRangeFor};
ghost use Rattle.dw_process.specs.declared.refusal.Refusal.TheVariants as Refusal;
ghost use Rattle.dw_process.specs.Refusals.{IsRefusedWith};

use crate::address_range::AddressRange;
use crate::both_sections::TableRooms;
use crate::module_map::ModuleMap;
use crate::ranges::{range_for, range_for_both};
use crate::refusal::{BothRefusal, Refusal};
use crate::shared_table::SharedTable;
use dw_bytes::OUT_OF_MEMORY;
use dw_rows::{CheckedFrame, ListedFrame};
use dw_tables::UnwindTable;
use std::alloc::{AllocError, Global};

/// A module that isn't yet added to a process.
#[derive(Drop)]
pub(crate) struct ReadyModule {
    /// The module's range.
    pub(crate) range: AddressRange,
    /// The index at which the module may be inserted.
    pub(crate) place: usize,
    /// The module's rows.
    pub(crate) rows: SharedTable,
    /// The rows of `.eh_frame`, if the module has both sections.
    pub(crate) fallback: Option<SharedTable>,
}

/// A checked section, and its compiled table, which takes at most `room` bytes.
#[derive(Drop)]
pub(crate) struct CompiledFrame<'a> {
    pub(crate) frame: CheckedFrame<'a>,
    pub(crate) table: UnwindTable,
    pub(crate) room: usize,
}

/// A module's range, and the index at which the module may be inserted.
#[derive(Clone, Copy)]
struct Place {
    range: AddressRange,
    place: usize,
}

/// Finds the range of a module with the rows of a checked section, and its place.
fn module_place(
    modules: &ModuleMap,
    frame: &CheckedFrame<'_>,
    load_address: u64,
    given: Option<AddressRange>,
) -> Result<Place, Refusal>
    ensures range { IfOk result (λ found. IsRangeFor frame.now load_address given found.range) }
    ensures place { IfOk result (λ found. IsPlaceFor found.range modules.now found.place) }
    ensures refused { IfErr result
        (λ why. (room : ℕ) → IsRefusedWith frame.now load_address given room modules.now why) }
{
    let Some(range) = range_for(frame.listed(), load_address, given) else {
        return Err(Refusal::Range);
    };
    match modules.place_for(range) {
        Ok(place) => Ok(Place { range, place }),
        Err(id) => Err(Refusal::Overlaps(id)),
    }
}

/// Whether a module with a listed section has a range that is free. The contract doesn't say so: it
/// affects only time.
pub(crate) fn has_place(
    modules: &ModuleMap,
    frame: &ListedFrame<'_>,
    load_address: u64,
    given: Option<AddressRange>,
) -> bool {
    match range_for(frame, load_address, given) {
        Some(range) => modules.place_for(range).is_ok(),
        None => false,
    }
}

/// A module at its place, with the rows of this table. The only refusal is that memory ran out.
fn module_with(alloc: Global, place: Place, table: UnwindTable) -> Result<ReadyModule, Refusal>
    ensures rows { IfOk result (λ ready. ready.rows ≡ table) }
    ensures alone { IfOk result (λ ready. ready.fallback ≡ None) }
    ensures range { IfOk result (λ ready. ready.range ≡ place.range) }
    ensures place { IfOk result (λ ready. ready.place ≡ place.place) }
    ensures lack { IfErr result (λ why. why ≡ Refusal.Section memory) }
{
    match SharedTable::new(alloc, table) {
        Some(rows) => Ok(ReadyModule {
            range: place.range,
            place: place.place,
            rows,
            fallback: None,
        }),
        None => Err(Refusal::Section(OUT_OF_MEMORY)),
    }
}

/// Compiles a checked section, and finds the module's range and its place.
pub(crate) fn prepare(
    alloc: Global,
    modules: &ModuleMap,
    frame: &CheckedFrame<'_>,
    load_address: u64,
    given: Option<AddressRange>,
    room: usize,
) -> Result<ReadyModule, Refusal>
    ensures ready { IfOk result (IsReady frame.now load_address given room modules.now) }
    ensures refused { IfErr result
        (IsRefusedWith frame.now load_address given room modules.now) }
{
    let place = match module_place(modules, frame, load_address, given) {
        Ok(place) => place,
        Err(why) => return Err(why),
    };
    match UnwindTable::compile(alloc, frame, room)? {
        Some(table) => module_with(alloc, place, table),
        None => Err(Refusal::Room),
    }
}

/// Finds the range and the place of a module with a compiled section.
pub(crate) fn prepare_compiled(
    alloc: Global,
    modules: &ModuleMap,
    compiled: CompiledFrame<'_>,
    load_address: u64,
    given: Option<AddressRange>,
) -> Result<ReadyModule, Refusal>
    requires { IsStored compiled.frame compiled.room compiled.table }
    ensures ready { IfOk result
        (IsReady compiled.entry.frame load_address given compiled.entry.room modules.now) }
    ensures refused { IfErr result
        (IsRefusedWith compiled.entry.frame load_address given compiled.entry.room modules.now) }
{
    let CompiledFrame { frame, table, .. } = compiled;
    let place = match module_place(modules, &frame, load_address, given) {
        Ok(place) => place,
        Err(why) => return Err(why),
    };
    module_with(alloc, place, table)
}

/// The compiled table of a checked section; none if it may need more than `room` bytes.
fn compiled(
    alloc: Global,
    frame: &CheckedFrame<'_>,
    room: usize,
) -> Result<Option<SharedTable>, AllocError>
    ensures stored { IfOk result (λ made. IfSome made (IsStored frame.now room)) }
    ensures none { IfOk result (λ made. IfNone made (room < table_bytes frame.now)) }
{
    let Ok(made) = UnwindTable::compile(alloc, frame, room) else {
        return Err(AllocError);
    };
    let Some(table) = made else {
        return Ok(None);
    };
    match SharedTable::new(alloc, table) {
        Some(shared) => Ok(Some(shared)),
        None => Err(AllocError),
    }
}

/// Compiles both checked sections of a module, and finds the module's range and its place.
pub(crate) fn prepare_both(
    alloc: Global,
    modules: &ModuleMap,
    debug_frame: &CheckedFrame<'_>,
    eh_frame: &CheckedFrame<'_>,
    load_address: u64,
    given: Option<AddressRange>,
    rooms: TableRooms,
) -> Result<ReadyModule, BothRefusal>
    requires { eh_frame.now.target ≡ debug_frame.now.target }
    ensures ready { IfOk result
        (AreReady debug_frame.now eh_frame.now load_address given rooms modules.now) }
    ensures refused { IfErr result
        (AreRefusedWith debug_frame.now eh_frame.now load_address given rooms modules.now) }
{
    let Some(range) = range_for_both(debug_frame, eh_frame, load_address, given) else {
        return Err(BothRefusal::Range);
    };
    let place = match modules.place_for(range) {
        Ok(place) => place,
        Err(id) => return Err(BothRefusal::Overlaps(id)),
    };
    let Ok(first) = compiled(alloc, debug_frame, rooms.debug_frame) else {
        return Err(BothRefusal::Memory);
    };
    let Some(rows) = first else {
        return Err(BothRefusal::Room);
    };
    let Ok(second) = compiled(alloc, eh_frame, rooms.eh_frame) else {
        return Err(BothRefusal::Memory);
    };
    match second {
        Some(fallback) => Ok(ReadyModule {
            range,
            place,
            rows,
            fallback: Some(fallback),
        }),
        None => Err(BothRefusal::Room),
    }
}
