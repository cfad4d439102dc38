//! Reading what a CIE says before its program.

ghost use Rattle.std.specs.Prelude.{◌≡◌, ◌+◌, IfOk, length, true};
ghost use Rattle.dw_bytes.specs.Reading.{MovesForward};
ghost use Rattle.dw_bytes.specs.Readers.{IsRefusedWithin, ParsesBy};
ghost use Rattle.dw_eh_frame.specs.Augmentations.{string_at};
ghost use Rattle.dw_frame.specs.Records.{is_version};
ghost use Rattle.dw_eh_frame.specs.Records.{eh_cie_head_at};
ghost use Rattle.dw_eh_frame.specs.Views.{head_of};

use crate::augmentation::{Augmentation, letter_count, read_augmentation, skip_eh_data};
use dw_bytes::{Cursor, Fault, FaultKind};
use dw_frame::{CieHeader, read_version};

/// What a CIE says before its program.
#[derive(Clone, Copy, Debug)]
pub struct EhCieHead {
    pub factors: CieHeader,
    pub augmentation: Augmentation,
}

/// Reads the letters of an augmentation. `end` is the offset after the last byte of the CIE.
#[tactic(auto, unfolding(crate::specs::Augmentations::string_at))]
fn read_letters<'a>(cursor: &mut Cursor<'a>, end: u32) -> Result<&'a [u8], Fault>
    requires { cursor.old.position + length cursor.old.rest ≡ end }
    ensures exact { ParsesBy (λ letters. letters.now) string_at cursor.old result cursor.new }
    ensures within { IsRefusedWithin cursor.old result }
    ensures goes_on { MovesForward cursor.old cursor.new }
{
    let at = cursor.position();
    let Ok(rest) = cursor.copy().take(u64::from(end - at)) else {
        unreachable!()
    };
    let Some(count) = letter_count(rest) else {
        return Err(Fault {
            kind: FaultKind::Augmentation,
            at,
        });
    };
    let Ok(string) = cursor.take(count as u64 + 1) else {
        unreachable!()
    };
    Ok(&string[..count])
}

/// Reads what a CIE says, from its version on. `end` is the offset after the last byte of the CIE.
#[tactic(auto, unfolding(crate::specs::Records::eh_cie_head_at))]
pub(crate) fn read_head(cursor: &mut Cursor<'_>, end: u32) -> Result<EhCieHead, Fault>
    requires { cursor.old.position + length cursor.old.rest ≡ end }
    ensures exact { ParsesBy head_of eh_cie_head_at cursor.old result cursor.new }
    ensures known { IfOk result (λ head. is_version head.factors.version ≡ true) }
    ensures within { IsRefusedWithin cursor.old result }
    ensures goes_on { MovesForward cursor.old cursor.new }
{
    let target = cursor.target();
    let version = read_version(cursor)?;
    let at = cursor.position();
    let letters = read_letters(cursor, end)?;
    skip_eh_data(cursor, letters)?;
    let factors = CieHeader::read_after_augmentation(cursor, target, version)?;
    let augmentation = read_augmentation(cursor, at, letters)?;
    Ok(EhCieHead {
        factors,
        augmentation,
    })
}
