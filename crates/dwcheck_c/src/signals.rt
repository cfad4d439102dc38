//! The C calls that say whether a frame is a signal frame, and whether its return address is
//! signed.

ghost use Rattle.std.specs.Prelude.{◌≡◌};
ghost use Rattle.dwcheck_c.specs.Lent.{Reads, loan_of, read_by};
ghost use Rattle.dwcheck_c.specs.SignalFrames.{flag_at, signed_flag_at};

use crate::process_reader::{LentProcess, put};
use crate::read_right::Right;
use dw_c_types::status::DONE;

/// Where a flag is written, with a part of the right to read the process, which takes no bytes: C
/// passes a pointer to a number.
#[repr(C)]
pub struct FlagPlace {
    flag: u32,
    right: Right,
}

const _: () = prove!(size_of::<FlagPlace>() == size_of::<u32>());

/// Writes 1 to `flag` if `address`, an address as loaded, is one of a signal frame, and 0 if it
/// isn't.
#[unsafe(no_mangle)]
pub extern "C" fn dwcheck_is_signal_frame(
    process: &LentProcess,
    address: u64,
    flag: &mut FlagPlace,
) -> u32
    requires { Reads flag.old.right process.now }
    ensures flag { flag.new.flag ≡ flag_at (read_by flag.old.right) address }
    ensures done { result ≡ DONE }
    ensures same { loan_of flag.new.right ≡ loan_of flag.old.right }
{
    let Some(part) = process.take(&mut flag.right) else {
        flag.flag = 0;
        return DONE;
    };
    flag.flag = if part.get().is_signal_frame(address) {
        1
    } else {
        0
    };
    put(part, &mut flag.right);
    DONE
}

/// Writes 1 to `flag` if the return address of a frame is signed at `address`, an address as
/// loaded, and 0 if it isn't.
#[unsafe(no_mangle)]
pub extern "C" fn dwcheck_is_signed(
    process: &LentProcess,
    address: u64,
    flag: &mut FlagPlace,
) -> u32
    requires { Reads flag.old.right process.now }
    ensures flag { flag.new.flag ≡ signed_flag_at (read_by flag.old.right) address }
    ensures done { result ≡ DONE }
    ensures same { loan_of flag.new.right ≡ loan_of flag.old.right }
{
    let Some(part) = process.take(&mut flag.right) else {
        flag.flag = 0;
        return DONE;
    };
    flag.flag = if part.get().is_signed(address) { 1 } else { 0 };
    put(part, &mut flag.right);
    DONE
}
