//! The modules of a process, as an unwinder.

ghost use Rattle.std.specs.Prelude.{◌≡◌};
ghost use Rattle.dw_unwind.specs.Modules.{as_linked};

use crate::caller_contents::{NoPlace, contents_by};
use crate::register_file::RegisterFile;
use crate::register_list::RegisterList;
use crate::unwind_rows::UnwindRows;
use crate::unwinder::Unwinder;
use crate::unwinding::{Unwound, unwind_into};
use dw_bytes::Target;
use dw_eval::{Memory, Registers, Width};
use dw_rules::Abi;

/// A module of a process, which is the executable or a library: the supplier of the module's rows
/// (a checked section or a compiled table), and the module's load address. All modules of one
/// process have the address size of the process.
///
/// ```rust
/// let sections = [
///     Module::new(&program, 0x5555_5555_4000),
///     Module::new(&library, 0x7fff_f7dc_3000),
/// ];
/// let tables = [
///     Module::new(&program_table, 0x5555_5555_4000),
///     Module::new(&library_table, 0x7fff_f7dc_3000),
/// ];
/// ```
#[derive(Clone, Copy, Debug, Drop)]
pub struct Module<T> {
    /// What supplies the module's rows, such as `&CheckedFrame`, `UnwindTable` or `&UnwindTable`.
    pub rows: T,
    /// What is added to an address as linked, modulo 2^w, w being the size of an address in bits,
    /// to get the address as loaded. For a position-independent module, which is linked at 0, that
    /// is the beginning of the module in /proc/PID/maps. For a program that is loaded where it is
    /// linked, the load address is 0, even if the program is mapped at 0x400000.
    pub load_address: u64,
}

impl<T> Module<T> {
    /// A module with these rows and this load address.
    pub fn new(rows: T, load_address: u64) -> Self
        ensures { result ≡ record { rows = rows; load_address = load_address } }
    {
        Module { rows, load_address }
    }
}

/// The address as linked for an address as loaded (in the running process): subtracts the load
/// address, modulo 2^w, w being the size of an address in bits.
#[inline(always)]
pub fn as_linked(target: Target, load_address: u64, address: u64) -> u64
    ensures { result ≡ as_linked target load_address address }
{
    let width = Width {
        size: target.address_size,
    };
    width.minus(address, load_address)
}

/// Unwinds through the modules of a process. Addresses are as loaded, in the running process. Each
/// module is asked for the address as linked in that module: the address minus its load address,
/// modulo 2^w, w being the size of an address in bits. The first module whose FDEs cover it gives
/// the caller. A module that doesn't cover the address costs one look-up.
impl<'m, T: UnwindRows> Unwinder for &'m [Module<T>] {
    ghost use Rattle.dw_unwind.specs.Modules.{AreBelow, over_modules_of_rows};

    ghost unwinds = { λ m abi memory. over_modules_of_rows T.target_of T.finds abi memory m.now };

    ghost is_bound = { λ m. AreBelow T.target_of m.now };

    #[inline(always)]
    fn unwind_into<R: Registers, M: Memory, L: RegisterList>(
        &self,
        abi: &Abi,
        address: u64,
        registers: &R,
        memory: &M,
        into: &mut L,
    ) -> Option<Unwound> {
        for module in *self {
            let rows = &module.rows;
            let address = as_linked(rows.rows_target(), module.load_address, address);
            if let Some(unwound) = unwind_into(rows, abi, address, registers, memory, into) {
                return Some(unwound);
            }
        }
        None
    }

    #[inline(never)]
    fn contents_into<R: Registers, M: Memory>(
        &self,
        kept: &[u16],
        stack_pointer: Option<u16>,
        address: u64,
        registers: &R,
        memory: &M,
        into: &mut RegisterFile,
    ) -> Result<Option<Unwound>, NoPlace> {
        for module in *self {
            let rows = &module.rows;
            let linked = as_linked(rows.rows_target(), module.load_address, address);
            if let Some(unwound) = contents_by(
                rows,
                kept,
                stack_pointer,
                linked,
                registers,
                memory,
                into,
            )? {
                return Ok(Some(unwound));
            }
        }
        Ok(None)
    }
}
