//! Modules with both sections, `.debug_frame` and `.eh_frame`. Compilers and assemblers write only
//! one of them for some functions, so a program may need both.

ghost use Rattle.std.specs.Prelude.{◌≡◌, ◌<◌, ◌^◌, IfErr, IfOk, length};
ghost use Rattle.dw_process.specs.BothSections.{AreBothAdded, AreBothRefused};

use crate::address_range::AddressRange;
use crate::eh_frame::{EhSection, MarkedFrame, marked_frame};
use crate::process::Process;
use crate::refusal::BothRefusal;
use dw_bytes::FaultKind;
use dw_rows::check_frame;
use std::alloc::Global;

/// The two frame sections of a module.
#[derive(Clone, Copy)]
pub struct BothSections<'a> {
    /// `.debug_frame`.
    pub debug_frame: &'a [u8],
    /// `.eh_frame`.
    pub eh_frame: EhSection<'a>,
    /// Whether bad records of `.eh_frame` are left out instead of refusing the section, as
    /// `Process::add_eh_frame_leaving_out` does.
    pub leaves_out: bool,
}

/// How many bytes the compiled table of each section of a module may store, as `room` of
/// `Process::add`.
#[derive(Clone, Copy)]
pub struct TableRooms {
    /// For the table of `.debug_frame`.
    pub debug_frame: usize,
    /// For the table of `.eh_frame`.
    pub eh_frame: usize,
}

impl Process {
    /// Checks both frame sections of a module, each of fewer than 2^32 bytes, compiles them, and
    /// adds them as one module, as `add` does with one section. The row of an address is that of
    /// `.debug_frame`, or if that has none, that of `.eh_frame`. Signal frames and signed return
    /// addresses are those of `.eh_frame`, but where `.debug_frame` has a row there are none.
    ///
    /// If no range is given, the module answers for the addresses from the first to the last one
    /// that either section covers. `rooms` bounds what each of the two tables stores.
    ///
    /// `.debug_frame` is checked first: a fault of `.eh_frame` is returned only if `.debug_frame`
    /// has none. After an error the process is unchanged.
    pub fn add_both(
        &mut self,
        alloc: Global,
        sections: BothSections<'_>,
        load_address: u64,
        range: Option<AddressRange>,
        cookie: u64,
        rooms: TableRooms,
    ) -> Result<u64, BothRefusal>
        requires debug_frame { length sections.debug_frame.now < 2 ^ 32 }
        requires eh_frame { length sections.eh_frame.bytes.now < 2 ^ 32 }
        ensures added { IfOk result
            (λ id. AreBothAdded sections.entry load_address range cookie rooms self.old id self.new) }
        ensures refused { IfErr result
            (AreBothRefused sections.entry self.old.target load_address range rooms self.old.modules) }
        ensures same { IfErr result (λ _. self.new ≡ self.old) }
    {
        let target = self.target();
        let debug_frame = match check_frame(alloc, sections.debug_frame, target) {
            Ok(frame) => frame,
            Err(fault) if fault.kind == FaultKind::Memory => return Err(BothRefusal::Memory),
            Err(fault) => return Err(BothRefusal::DebugFrame(fault)),
        };
        let eh_frame = match marked_frame(alloc, sections.eh_frame, target, sections.leaves_out) {
            Ok(made) => made,
            Err(fault) if fault.kind == FaultKind::Memory => return Err(BothRefusal::Memory),
            Err(fault) => return Err(BothRefusal::EhFrame(fault)),
        };
        let MarkedFrame { frame, marks } = eh_frame;
        self.add_both_checked(
            alloc,
            &debug_frame,
            &frame,
            marks,
            load_address,
            range,
            cookie,
            rooms,
        )
    }
}
