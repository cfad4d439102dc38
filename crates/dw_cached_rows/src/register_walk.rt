//! Walks with the rows of a cache that give the registers of each frame.

ghost use Rattle.std.specs.Prelude.{◌≡◌, ◌≤◌, IfSome, None, drop, length, take};
ghost use Rattle.dw_unwind.specs.Walks.{address_before};
ghost use Rattle.dw_cached_rows.specs.CachedRows.{IsMissing};
ghost use Rattle.dw_cached_rows.specs.CachedWalks.{over_cached, stop_of_end};
ghost use Rattle.dw_cached_rows.specs.RegisterWalks.{EndsWithRegisters, IsOtherWith, WalksWith};
ghost use Rattle.dw_cached_rows.specs.declared.walk.WalkEnd.TheVariants as ends;

use crate::cached_rows::{CachedRows, ROWS};
use crate::register_place::{FrameWithRegisters, RegisterPlace, RegisterStep, step_by, usual_step};
use crate::walk::{WalkEnd, locate};
use dw_eval::Memory;

impl CachedRows {
    /// Walks on from `place`, past frames whose CFAs are by rsp or by rbp, as `pass_callers` does, and
    /// writes them with their registers and their CFAs. These are more than the processor has room
    /// for, so they stay in `place`.
    #[inline(never)]
    fn pass_frames<M: Memory>(
        &mut self,
        confirmed: u64,
        place: &mut RegisterPlace,
        memory: &M,
        frames: &mut [FrameWithRegisters],
        from: usize,
        after: usize,
    ) -> (usize, usize)
        requires from { from ≤ length frames.old }
        requires after { after ≤ ROWS }
        ensures walks { (begun : RegisterPlace)
            → WalksWith (over_cached self.old.rows confirmed (M.bytes memory.now)) begun
            (take from frames.old) place.old
            → WalksWith (over_cached self.old.rows confirmed (M.bytes memory.now)) begun
            (take result.0 frames.new) place.new }
        ensures more { from ≤ result.0 }
        ensures few { result.0 ≤ length frames.old }
        ensures last { result.1 ≤ ROWS }
        ensures same { self.new.rows ≡ self.old.rows }
        ensures rest { drop result.0 frames.new ≡ drop result.0 frames.old }
        ensures length { length frames.new ≡ length frames.old }
    {
        let mut last = after;
        let mut count = from;
        while count < frames.len() {
            let Some(index) = locate(&self.rows, &mut self.next, last, place.key, confirmed) else {
                break;
            };
            let RegisterStep::To(caller) = usual_step(&self.rows[index], place, memory) else {
                break;
            };
            let cfa = caller.stack_pointer;
            frames[count] = FrameWithRegisters { place: *place, cfa };
            count += 1;
            *place = caller;
            last = index;
        }
        (count, last)
    }

    /// Walks up a stack from `place`, as `walk` does, and writes frames with their registers and
    /// their CFAs to `frames`, as many as fit. Returns how many it wrote, and why there are no more.
    ///
    /// Afterwards `place` is that of the frame after the last one that was written, as for `walk`.
    pub fn walk_frames<M: Memory>(
        &mut self,
        confirmed: u64,
        place: &mut RegisterPlace,
        memory: &M,
        frames: &mut [FrameWithRegisters],
    ) -> (usize, WalkEnd)
        ensures walks { stop_of_end result.1 ≡ None
            → WalksWith (over_cached self.old.rows confirmed (M.bytes memory.now)) place.old
            (take result.0 frames.new) place.new }
        ensures ended { IfSome (stop_of_end result.1) (EndsWithRegisters
            (over_cached self.old.rows confirmed (M.bytes memory.now)) place.old
            (take result.0 frames.new)) }
        ensures missing { result.1 ≡ ends.Missing → IfSome (address_before place.new.key)
            (IsMissing self.old.rows confirmed) }
        ensures other { result.1 ≡ ends.Other
            → IsOtherWith self.old.rows confirmed (M.bytes memory.now) place.new }
        ensures full { result.1 ≡ ends.Full → result.0 ≡ length frames.old }
        ensures few { result.0 ≤ length frames.old }
        ensures same { self.new.rows ≡ self.old.rows }
        ensures rest { drop result.0 frames.new ≡ drop result.0 frames.old }
        ensures length { length frames.new ≡ length frames.old }
    {
        let mut last = ROWS;
        let mut count = 0;
        while count < frames.len() {
            let Some(index) = locate(&self.rows, &mut self.next, last, place.key, confirmed) else {
                return (count, WalkEnd::Missing);
            };
            match step_by(&self.rows[index], place, memory) {
                RegisterStep::To(caller) => {
                    let cfa = caller.stack_pointer;
                    frames[count] = FrameWithRegisters { place: *place, cfa };
                    *place = caller;
                    let passed = self.pass_frames(
                        confirmed,
                        place,
                        memory,
                        frames,
                        count + 1,
                        index,
                    );
                    count = passed.0;
                    last = passed.1;
                }
                RegisterStep::ReturnUndefined(cfa) => {
                    frames[count] = FrameWithRegisters { place: *place, cfa };
                    return (count + 1, WalkEnd::ReturnUndefined);
                }
                RegisterStep::ReturnUnreadable(cfa) => {
                    frames[count] = FrameWithRegisters { place: *place, cfa };
                    return (count + 1, WalkEnd::ReturnUnreadable);
                }
                RegisterStep::Other => return (count, WalkEnd::Other),
            }
        }
        (count, WalkEnd::Full)
    }
}
