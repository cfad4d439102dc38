//! C's struct for a fault.

ghost use Rattle.std.specs.Prelude.{◌≡◌};
ghost use Rattle.dw_c_types.specs.Faults.{cfault_of};

use dw_bytes::Fault;

/// `CFault::within`: the fault's offset refers to the frame section.
pub const IN_FRAME: u32 = 0;

/// `CFault::within`: the fault's offset refers to the location lists.
pub const IN_LISTS: u32 = 1;

/// `CFault::within`: the fault's offset refers to the expression.
pub const IN_EXPRESSION: u32 = 2;

/// `CFault::within`: the fault's offset refers to the ABI's list of callee-saved registers.
pub const IN_ABI: u32 = 3;

/// `CFault::within`: the fault's offset refers to the `.eh_frame` section of a module that has
/// `.debug_frame` too.
pub const IN_EH_FRAME: u32 = 4;

/// Why an input is refused: the number of the fault, its offset, and which input the offset refers
/// to (`within`).
#[repr(C)]
#[derive(Clone, Copy, Debug)]
pub struct CFault {
    pub number: u32,
    pub offset: u32,
    pub within: u32,
    pub reserved: u32,
}

/// Converts a fault to C's struct.
pub fn report(within: u32, fault: Fault) -> CFault
    ensures { result ≡ cfault_of within fault }
{
    CFault {
        number: u32::from(fault.kind.number()),
        offset: fault.at,
        within,
        reserved: 0,
    }
}
