//! Reads on past a record that can't be read.

ghost use Rattle.std.specs.Prelude.{◌<◌, ◌≤◌, ◌^◌, IfErr, IfOk, IfSome, length};
ghost use Rattle.dw_bytes.specs.Reading.{section_from};
ghost use Rattle.dw_bytes.specs.Readers.{ReadsFrom};
ghost use Rattle.dw_eh_frame.specs.Items.{item_at, item_with};
ghost use Rattle.dw_eh_frame.specs.Views.{HasCieOf, IsCieOf, LiesAt, eh_record_of};

use crate::pointer::Bases;
use crate::record::{EhCie, EhRecord, read_body};
use dw_bytes::{Body, Fault, Target};

/// The record at the offset `at` of a section, or the fault for which it can't be read; and the offset
/// after it, which its length says. The error is a fault of that length: `Truncated` or
/// `ReservedLength`. `last` may be any CIE of the section, as for `eh_record_after`. It takes as long
/// as the bytes before the program, and allocates no memory.
#[tactic(auto, unfolding(crate::specs::Items::item_at))]
pub fn eh_item_after<'a>(
    section: &'a [u8],
    target: Target,
    bases: Bases,
    is_aarch64: bool,
    at: u32,
    last: Option<&EhCie<'a>>,
) -> Result<(Result<EhRecord<'a>, Fault>, u32), Fault>
    requires inside { at ≤ length section.now }
    requires short { length section.now < 2 ^ 32 }
    requires last { IfSome last (λ cie. IsCieOf is_aarch64 target section.now cie.now) }
    ensures exact { ReadsFrom (item_with at) (item_at is_aarch64 bases section.now)
        (section_from target section.now) at result }
    ensures forward { IfOk result (λ item. at < item.1 × item.1 ≤ length section.now) }
    ensures sound { IfOk result (λ item. IfOk item.0 (λ x. LiesAt target at item.1 (eh_record_of x))) }
    ensures cie { IfOk result (λ item. IfOk item.0 (HasCieOf is_aarch64 target section.now)) }
    ensures among { IfOk result (λ item. IfErr item.0 (λ fault. fault.at ≤ length section.now)) }
    ensures within { IfErr result (λ fault. fault.at ≤ length section.now) }
{
    let body = Body::read(section, target, at)?;
    let found = read_body(section, target, bases, is_aarch64, at, body, last);
    Ok((found, body.end))
}
