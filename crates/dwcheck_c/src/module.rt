//! C's structs for a module: what C passes to add one, and what it gets for an address.

ghost use Rattle.std.specs.Prelude.{◌≡◌, ◌⊎◌, None};
ghost use Rattle.std.specs.Option.{IsSomeAnd};
ghost use Rattle.dw_process.specs.ModuleMaps.{module_at};
ghost use Rattle.dwcheck_c.specs.Handles.{modules_of};
ghost use Rattle.dwcheck_c.specs.Lent.{Reads, loan_of, read_by};
ghost use Rattle.dwcheck_c.specs.LoadedModules.{eh_section_in, kind_by, known_by, loaded_of, range_in};

use crate::process_reader::{LentProcess, put};
use crate::read_right::Right;
use dw_c_types::status::{DONE, NONE};
use dw_eh_frame::Bases;
use dw_process::{AddressRange, EhSection, LoadedModule};

/// The numbers of what a module's section may be: `.debug_frame`; `.eh_frame`; or `.eh_frame` for
/// aarch64, which has instructions of its own.
pub const DEBUG_FRAME: u32 = 0;

pub const EH_FRAME: u32 = 1;

pub const EH_FRAME_AARCH64: u32 = 2;

/// Or'ed to the number of an `.eh_frame` section, so that bad records are left out instead of refusing
/// the section.
pub const LEAVE_OUT: u32 = 4;

pub(crate) const EH_FRAME_LEAVING_OUT: u32 = EH_FRAME + LEAVE_OUT;

pub(crate) const EH_FRAME_AARCH64_LEAVING_OUT: u32 = EH_FRAME_AARCH64 + LEAVE_OUT;

/// What a module's section is.
#[derive(Clone, Copy)]
pub(crate) enum SectionKind {
    DebugFrame,
    EhFrame,
    EhFrameAarch64,
    /// `.eh_frame`, of which bad records are left out.
    EhFrameLeavingOut,
    EhFrameAarch64LeavingOut,
}

/// What the section is that C gives this number for; none if there is no such number.
pub(crate) fn section_kind(number: u32) -> Option<SectionKind>
    ensures { result ≡ kind_by number }
{
    match number {
        DEBUG_FRAME => Some(SectionKind::DebugFrame),
        EH_FRAME => Some(SectionKind::EhFrame),
        EH_FRAME_AARCH64 => Some(SectionKind::EhFrameAarch64),
        EH_FRAME_LEAVING_OUT => Some(SectionKind::EhFrameLeavingOut),
        EH_FRAME_AARCH64_LEAVING_OUT => Some(SectionKind::EhFrameAarch64LeavingOut),
        _ => None,
    }
}

/// The address that C gives; none if it is 0.
fn known(address: u64) -> Option<u64>
    ensures { result ≡ known_by address }
{
    if address == 0 { None } else { Some(address) }
}

/// A module to be added: its frame section, where it is loaded, and how much its table may take.
#[repr(C)]
#[derive(Drop)]
pub struct CModule<'a> {
    /// The bytes of the module's section.
    pub frame: &'a [u8],
    /// What is added to an address as linked, modulo 2^w, to get the address as loaded.
    pub load_address: u64,
    /// The first and the last address, as loaded, that the module answers for, if `has_range` isn't
    /// 0.
    pub first: u64,
    pub last: u64,
    /// A number of the caller's own.
    pub cookie: u64,
    /// The most bytes that the compiled table may take.
    pub room: usize,
    /// The number of the section's byte order, and the bytes of an address.
    pub order: u32,
    pub address_size: u32,
    pub has_range: u32,
    /// The number of what the section is.
    pub kind: u32,
    /// The address of an `.eh_frame` section, as linked.
    pub section_address: u64,
    /// What its pointers may be relative to, as linked; 0 if that isn't known.
    pub text_start: u64,
    pub data_start: u64,
}

impl<'a> CModule<'a> {
    /// The range that C gives; none if it gives none.
    pub(crate) fn range(&self) -> Option<AddressRange>
        ensures { result ≡ range_in self.now }
    {
        if self.has_range == 0 {
            None
        } else {
            Some(AddressRange {
                first: self.first,
                last: self.last,
            })
        }
    }

    /// The module's `.eh_frame` section.
    pub(crate) fn eh_section(&self, is_aarch64: bool) -> EhSection<'a>
        ensures { result ≡ eh_section_in is_aarch64 self.now }
    {
        EhSection {
            bytes: self.frame,
            bases: Bases {
                section: self.section_address,
                text_start: known(self.text_start),
                data_start: known(self.data_start),
            },
            is_aarch64,
        }
    }
}

/// A module of a process: its id, C's number for it, its load address, and the first and the last
/// address, as loaded, that it answers for.
#[repr(C)]
#[derive(Clone, Copy, Debug)]
pub struct CLoaded {
    pub id: u64,
    pub cookie: u64,
    pub load_address: u64,
    pub first: u64,
    pub last: u64,
}

/// Converts a module to C's struct.
pub(crate) fn c_module_of(module: &LoadedModule) -> CLoaded
    ensures { result ≡ loaded_of module.now }
{
    CLoaded {
        id: module.id,
        cookie: module.cookie,
        load_address: module.load_address,
        first: module.range.first,
        last: module.range.last,
    }
}

/// Where a module is written, with a part of the right to read the process, which takes no bytes: C
/// passes a pointer to a module.
#[repr(C)]
pub struct ModulePlace {
    module: CLoaded,
    right: Right,
}

const _: () = prove!(size_of::<ModulePlace>() == size_of::<CLoaded>());

/// Writes the module whose range contains `address`, an address as loaded. Returns `NONE` if there
/// is no such module.
#[unsafe(no_mangle)]
pub extern "C" fn dwcheck_module_at(
    process: &LentProcess,
    address: u64,
    module: &mut ModulePlace,
) -> u32
    requires { Reads module.old.right process.now }
    ensures found { result ≡ DONE
        → IsSomeAnd (module_at (modules_of (read_by module.old.right)) address)
        (λ m. module.new.module ≡ loaded_of m) }
    ensures none { result ≡ NONE
        → module_at (modules_of (read_by module.old.right)) address ≡ None }
    ensures codes { (result ≡ DONE) ⊎ (result ≡ NONE) }
    ensures unwritten { result ≡ NONE → module.new.module ≡ module.old.module }
    ensures same { loan_of module.new.right ≡ loan_of module.old.right }
{
    let Some(part) = process.take(&mut module.right) else {
        return NONE;
    };
    let status = match part.get().module_at(address) {
        Some(found) => {
            module.module = c_module_of(found);
            DONE
        }
        None => NONE,
    };
    put(part, &mut module.right);
    status
}
