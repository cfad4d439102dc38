//! The smallest program over the libraries: checks a `.debug_frame` section and prints its rows, as
//! `dwcheck rows` does. `make try` compiles it in half a minute, since it needs no command line.
#![tactic(auto)]

ghost use Rattle.std.specs.Prelude.{Contains};
ghost use Rattle.dw_frame.specs.Views.{fde_of};

use dw_bytes::{AddressSize, Order, Target};
use dw_frame::FrameDescriptionEntry;
use dw_rows::{CfaRule, CheckedFrame, RegisterRule, UnwindTableRow, check_frame};
use std::io;
use std::process::ExitCode;

/// The target of the section: little-endian, with addresses of 8 bytes.
const TARGET: Target = Target {
    order: Order::Little,
    address_size: AddressSize::Eight,
};

/// A CIE, and an FDE of 0x1000 to 0x1020, in which a function pushes its frame pointer and then
/// uses it. This is the first example of docs/WORKED.md.
const SECTION: [u8; 56] = [
    0x14, 0, 0, 0, 0xff, 0xff, 0xff, 0xff, 4, 0, 8, 0, 1, 0x78, 0x10, 0x0c, 7, 8, 0x90, 1, 0, 0, 0,
    0, 0x1c, 0, 0, 0, 0, 0, 0, 0, 0, 0x10, 0, 0, 0, 0, 0, 0, 0x20, 0, 0, 0, 0, 0, 0, 0, 0x41, 0x0e,
    0x10, 0x86, 2, 0x43, 0x0d, 6,
];

/// Prints how the CFA is found.
fn print_cfa(rt: &impl Print, rule: &CfaRule<'_>) -> io::Result<()> {
    match rule {
        CfaRule::RegisterAndOffset { register, offset } => {
            print!(rt; " cfa=r{register}{offset:+}")
        }
        rule => print!(rt; " cfa={rule:?}"),
    }
}

/// Prints how the caller's content of a register is found. `[c-8]` is the word at the CFA minus 8.
fn print_register(rt: &impl Print, register: u16, rule: &RegisterRule<'_>) -> io::Result<()> {
    match rule {
        RegisterRule::Offset(offset) => print!(rt; " r{register}=[c{offset:+}]"),
        rule => print!(rt; " r{register}={rule:?}"),
    }
}

/// Prints a row: the addresses that it is for, and its rules.
fn print_row(rt: &impl Print, row: &UnwindTableRow<'_, '_>) -> io::Result<()> {
    let (start, end) = (row.start_address(), row.end_address());
    print!(rt; "row 0x{start:016x}..0x{end:016x}")?;
    print_cfa(rt, &row.cfa())?;
    for (register, rule) in row.rules() {
        print_register(rt, register, &rule)?;
    }
    println!(rt; "")
}

/// Prints an FDE and its rows.
fn print_fde(
    rt: &impl Print,
    frame: &CheckedFrame<'_>,
    fde: &FrameDescriptionEntry<'_>,
) -> io::Result<()>
    requires { Contains frame.now.fdes (fde_of fde.now) }
{
    let cie = frame.cie_of(fde);
    let (at, cie_at) = (fde.offset, cie.offset);
    let (start, end) = (fde.initial_location, fde.end_address());
    let return_address = cie.return_address_register;
    println!(rt;
        "fde 0x{at:08x} cie 0x{cie_at:08x} 0x{start:016x}..0x{end:016x} ra r{return_address}"
    )?;
    for row in frame.rows(fde) {
        print_row(rt, &row)?;
    }
    Ok(())
}

/// Prints all FDEs and their rows.
fn print_frame(rt: &impl Print, frame: &CheckedFrame<'_>) -> io::Result<()> {
    for fde in frame.fdes() {
        print_fde(rt, frame, fde)?;
    }
    Ok(())
}

fn main(rt: HostRuntime) -> io::Result<ExitCode> {
    let frame = match check_frame(rt.alloc(), &SECTION, TARGET) {
        Ok(frame) => frame,
        Err(fault) => {
            println!(rt; "refused {:?} at 0x{:08x}", fault.kind, fault.at)?;
            return Ok(ExitCode::from(1));
        }
    };
    print_frame(&rt, &frame)?;
    Ok(ExitCode::from(0))
}
