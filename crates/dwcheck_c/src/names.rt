//! The C calls that give the name of a fault and the version of the interface.

ghost use Rattle.std.specs.Prelude.{◌≡◌, ◌≢◌, ◌≤◌, ◌==◌, IfSome, Some, find, length};
ghost use Rattle.dw_bytes.specs.Faults.{number_of};
ghost use Rattle.dw_bytes.specs.Names.{name_of};
ghost use Rattle.dw_bytes.specs.declared.fault.FaultKind.{FaultKind as OfKind};
ghost use Rattle.dw_c_types.specs.Slots.{put_into};

use dw_bytes::FaultKind;
use dw_c_types::slots::write_all;
use dw_c_types::status::{DONE, NONE};

/// The version of this interface: 65536 times the major version, plus the minor version. As long as
/// the major version stays the same, existing programs keep working.
const VERSION: u32 = 0x2_0000;

/// All kinds of faults.
const KINDS: [FaultKind; 47] = [
    FaultKind::Truncated,
    FaultKind::LebRange,
    FaultKind::ReservedLength,
    FaultKind::Version,
    FaultKind::Augmentation,
    FaultKind::AddressSize,
    FaultKind::SegmentSize,
    FaultKind::NoSuchCie,
    FaultKind::RegisterNumber,
    FaultKind::RangePastTop,
    FaultKind::UnknownInstruction,
    FaultKind::NotInCie,
    FaultKind::LocationBack,
    FaultKind::LocationPastEnd,
    FaultKind::RestoreWithoutRemember,
    FaultKind::Unrestored,
    FaultKind::RememberTooDeep,
    FaultKind::CfaNotRegister,
    FaultKind::OffsetRange,
    FaultKind::TooManyRules,
    FaultKind::NoCfa,
    FaultKind::Overlap,
    FaultKind::UnknownOperation,
    FaultKind::NotInFrame,
    FaultKind::BadSize,
    FaultKind::Backward,
    FaultKind::TargetNotStart,
    FaultKind::Underflow,
    FaultKind::TooDeep,
    FaultKind::Mismatch,
    FaultKind::Unreachable,
    FaultKind::NotAlone,
    FaultKind::EndsEmpty,
    FaultKind::TooManyPieces,
    FaultKind::PieceSize,
    FaultKind::ListVersion,
    FaultKind::UnknownEntry,
    FaultKind::BackRange,
    FaultKind::SecondDefault,
    FaultKind::NoEnd,
    FaultKind::BadOffsetEntry,
    FaultKind::Memory,
    FaultKind::SectionTooLong,
    FaultKind::AbiTooLarge,
    FaultKind::AbiTwice,
    FaultKind::CertLength,
    FaultKind::CertState,
];

/// The first of `kinds` whose number is `number`, or `None` if there is none.
fn kind_among(kinds: &[FaultKind], number: u32) -> Option<FaultKind>
    ensures first { result ≡ find (λ k. number_of k == number) kinds.now }
    ensures numbered { IfSome result (λ kind. number_of kind ≡ number) }
{
    for kind in kinds {
        if u32::from(kind.number()) == number {
            return Some(*kind);
        }
    }
    None
}

/// The kind whose number is `number`, or `None` if there is none.
fn kind_with(number: u32) -> Option<FaultKind>
    ensures first { result ≡ find (λ k. number_of k == number) KINDS }
    ensures numbered { IfSome result (λ kind. number_of kind ≡ number) }
{
    kind_among(&KINDS, number)
}

/// Writes the name of the fault whose number is `number` to `text`, as much as fits, and the length
/// of the whole name to `size`. Returns `NONE` if no fault has the number.
#[tactic(auto, using(crate::proofs::NameLengths::name_is_short))]
#[unsafe(no_mangle)]
pub extern "C" fn dwcheck_fault_name(number: u32, text: &mut [u8], size: &mut usize) -> u32
    ensures named { (kind : OfKind) → number_of kind ≡ number → (result ≡ DONE)
        × (text.new ≡ put_into (name_of kind) text.old) × (size.new ≡ length (name_of kind)) }
    ensures none { ((kind : OfKind) → number_of kind ≢ number) → (result ≡ NONE)
        × (text.new ≡ text.old) × (size.new ≡ size.old) }
    ensures few { result ≡ DONE → size.new ≤ 22 }
{
    match kind_with(number) {
        Some(kind) => {
            let name = kind.name().as_bytes();
            write_all(name, text);
            *size = name.len();
            DONE
        }
        None => NONE,
    }
}

/// The version of this interface.
#[unsafe(no_mangle)]
pub extern "C" fn dwcheck_version() -> u32
    ensures { result ≡ VERSION }
{
    VERSION
}
