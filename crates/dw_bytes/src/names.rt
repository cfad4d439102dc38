//! The names of faults, and how faults are printed.

ghost use Rattle.std.specs.Prelude.{◌≡◌};
ghost use Rattle.dw_bytes.specs.Names.{name_of};

use crate::fault::{Fault, FaultKind};
use std::error::Error;
use std::fmt;

impl FaultKind {
    /// The name that is printed with the fault. No two kinds have the same name.
    pub fn name(self) -> &'static str
        ensures { result.now ≡ name_of self }
    {
        match self {
            FaultKind::Truncated => "Truncated",
            FaultKind::LebRange => "LebRange",
            FaultKind::ReservedLength => "ReservedLength",
            FaultKind::Version => "Version",
            FaultKind::Augmentation => "Augmentation",
            FaultKind::AddressSize => "AddressSize",
            FaultKind::SegmentSize => "SegmentSize",
            FaultKind::NoSuchCie => "NoSuchCie",
            FaultKind::RegisterNumber => "RegisterNumber",
            FaultKind::RangePastTop => "RangePastTop",
            FaultKind::UnknownInstruction => "UnknownInstruction",
            FaultKind::NotInCie => "NotInCie",
            FaultKind::LocationBack => "LocationBack",
            FaultKind::LocationPastEnd => "LocationPastEnd",
            FaultKind::RestoreWithoutRemember => "RestoreWithoutRemember",
            FaultKind::Unrestored => "Unrestored",
            FaultKind::RememberTooDeep => "RememberTooDeep",
            FaultKind::CfaNotRegister => "CfaNotRegister",
            FaultKind::OffsetRange => "OffsetRange",
            FaultKind::TooManyRules => "TooManyRules",
            FaultKind::NoCfa => "NoCfa",
            FaultKind::Overlap => "Overlap",
            FaultKind::UnknownOperation => "UnknownOperation",
            FaultKind::NotInFrame => "NotInFrame",
            FaultKind::BadSize => "BadSize",
            FaultKind::Backward => "Backward",
            FaultKind::TargetNotStart => "TargetNotStart",
            FaultKind::Underflow => "Underflow",
            FaultKind::TooDeep => "TooDeep",
            FaultKind::Mismatch => "Mismatch",
            FaultKind::Unreachable => "Unreachable",
            FaultKind::NotAlone => "NotAlone",
            FaultKind::EndsEmpty => "EndsEmpty",
            FaultKind::TooManyPieces => "TooManyPieces",
            FaultKind::PieceSize => "PieceSize",
            FaultKind::ListVersion => "ListVersion",
            FaultKind::UnknownEntry => "UnknownEntry",
            FaultKind::BackRange => "BackRange",
            FaultKind::SecondDefault => "SecondDefault",
            FaultKind::NoEnd => "NoEnd",
            FaultKind::BadOffsetEntry => "BadOffsetEntry",
            FaultKind::Memory => "Memory",
            FaultKind::SectionTooLong => "SectionTooLong",
            FaultKind::AbiTooLarge => "AbiTooLarge",
            FaultKind::AbiTwice => "AbiTwice",
            FaultKind::CertLength => "CertLength",
            FaultKind::CertState => "CertState",
        }
    }
}

/// Writes the name of the kind.
impl fmt::Display for FaultKind {
    ghost use Rattle.std.specs.Prelude.{Some};
    ghost use Rattle.dw_bytes.specs.Names.{name_of};

    ghost output = { λ kind. Some (name_of kind) };

    fn fmt<W: fmt::Write>(&self, f: &mut fmt::Formatter<W>) -> fmt::Result {
        f.write_str(self.name())
    }
}

impl Error for FaultKind {}

/// Writes a fault as `9 NoSuchCie at 0x00000004`: its number, its name, and its offset in eight hex
/// digits.
impl fmt::Display for Fault {
    ghost use Rattle.std.specs.Prelude.{Some};
    ghost use Rattle.dw_bytes.specs.Text.{fault_text};

    ghost output = { λ fault. Some (fault_text fault) };

    fn fmt<W: fmt::Write>(&self, f: &mut fmt::Formatter<W>) -> fmt::Result {
        let Fault { kind, at } = *self;
        write!(f, "{} {} at 0x{at:08x}", kind.number(), kind.name())
    }
}

impl Error for Fault {}
