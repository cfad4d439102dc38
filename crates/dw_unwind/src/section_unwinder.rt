//! A checked section as an unwinder.

use crate::caller_contents::{NoPlace, contents_by};
use crate::register_file::RegisterFile;
use crate::register_list::RegisterList;
use crate::unwind_rows::UnwindRows;
use crate::unwinder::Unwinder;
use crate::unwinding::{Unwound, unwind_into};
use dw_eval::{Memory, Registers};
use dw_rows::CheckedFrame;
use dw_rules::Abi;

/// Unwinds with a checked section. Its FDE and its CIE are found by two binary searches, and the
/// FDE's program is run once, up to the row of the address.
impl<'f, 'a> Unwinder for &'f CheckedFrame<'a> {
    ghost use Rattle.std.specs.Prelude.{◌≤◌, ◌^◌};
    ghost use Rattle.dw_eval.specs.Numbers.{width_of};
    ghost use Rattle.dw_unwind.specs.Walks.{over_section};

    ghost unwinds = { λ f. over_section f.now };

    ghost is_bound = { λ f bound. 2 ^ width_of f.now.target.address_size ≤ bound };

    #[inline(always)]
    fn unwind_into<R: Registers, M: Memory, L: RegisterList>(
        &self,
        abi: &Abi,
        address: u64,
        registers: &R,
        memory: &M,
        into: &mut L,
    ) -> Option<Unwound> {
        unwind_into(self, abi, address, registers, memory, into)
    }

    #[inline(never)]
    fn contents_into<R: Registers, M: Memory>(
        &self,
        kept: &[u16],
        stack_pointer: Option<u16>,
        address: u64,
        registers: &R,
        memory: &M,
        into: &mut RegisterFile,
    ) -> Result<Option<Unwound>, NoPlace> {
        contents_by(self, kept, stack_pointer, address, registers, memory, into)
    }
}
