//! Writes a walk up the stack: a line for each frame, and a line that says why the walk ends.

ghost use Rattle.std.specs.Prelude.{◌≡◌, ◌++◌, IfOk, List, MatchResult, OnOk, Some, false, option_map};
ghost use Rattle.std.specs.String.{string_bytes};
ghost use Rattle.dw_rules.specs.AbiViews.{roles_of};
ghost use Rattle.dw_unwind.specs.CallerViews.{answer_in};
ghost use Rattle.dw_unwind.specs.Walks.{AlwaysUnwinds, IsFrameAt, Place, WalkedFrame, Walks};
ghost use Rattle.dw_unwind.specs.WalkSteps.{GivesNext, about_to_give, frame_at, stop_of};
ghost use Rattle.dw_check.specs.WalkText.{brief_line, cfa_text, last_line, stop_text, walk_text};
ghost use Rattle.dw_unwind.specs.WalkViews.{brief_in, brief_of};
ghost use Rattle.dw_check.specs.WriteResults.{IsSame, Writes, is_write};

use crate::caller_text::push_answer;
use crate::numbers::{push_address, push_decimal};
use crate::sink::Sink;
use crate::stop::ReportFault;
use crate::writer::{Writer, send_line};
use dw_bytes::AddressSize;
use dw_eval::Memory;
use dw_unwind::laws::frames_that_are_given_are_a_walk;
use dw_unwind::{Answer, BriefFrame, Stop, Unwinder, Walk};
use std::alloc::AllocError;

/// Appends the CFA of a frame, or `none` if no FDE covers the frame.
fn push_cfa(line: &mut String, size: AddressSize, cfa: Option<Answer>) -> Result<(), AllocError>
    ensures { OnOk result (string_bytes line.new ≡ string_bytes line.old
        ++ cfa_text size (option_map answer_in cfa)) }
{
    match cfa {
        Some(cfa) => {
            line.push_str("cfa ")?;
            push_answer(line, size, cfa)
        }
        None => line.push_str("none"),
    }
}

/// Appends the line of a frame: its number, counted from 0, its address and its CFA.
#[tactic(auto, unfolding(crate::specs::WalkText::brief_line))]
fn push_walked_frame(
    line: &mut String,
    size: AddressSize,
    number: u32,
    frame: BriefFrame,
) -> Result<(), AllocError>
    ensures { OnOk result (string_bytes line.new ≡ string_bytes line.old
        ++ brief_line size number (brief_in frame)) }
{
    line.push_str("frame ")?;
    push_decimal(line, number)?;
    line.push_str(" ")?;
    push_address(line, size, frame.address)?;
    line.push_str(" ")?;
    push_cfa(line, size, frame.cfa)?;
    line.push_str("\n")
}

/// The words for why a walk ends.
fn stop_name(stop: Stop) -> &'static str
    ensures { result.now ≡ stop_text stop }
{
    match stop {
        Stop::Limit => "limit",
        Stop::NotCovered => "not covered",
        Stop::ReturnUndefined => "return undefined",
        Stop::ReturnUnreadable => "return unreadable",
        Stop::ReturnDivisionByZero => "return division by zero",
    }
}

/// Appends the line that says why a walk ends.
#[tactic(auto, unfolding(crate::specs::WalkText::last_line))]
fn push_stop(line: &mut String, stop: Stop) -> Result<(), AllocError>
    ensures { OnOk result (string_bytes line.new ≡ string_bytes line.old ++ last_line stop) }
{
    line.push_str("stop ")?;
    line.push_str(stop_name(stop))?;
    line.push_str("\n")
}

/// Writes the line of a frame; `number` counts frames from 0.
fn write_walked_frame<S: Sink>(
    out: &mut Writer<'_, S>,
    number: u32,
    frame: BriefFrame,
) -> Result<(), ReportFault>
    requires { S.has_stopped out.old.sink.now ≡ false }
    ensures same { IsSame out.old out.new }
    ensures written { Writes (S.taken out.old.sink.now) (S.taken out.new.sink.now) result
        (brief_line out.old.size number (brief_in frame)) }
    ensures stops { S.has_stopped out.new.sink.now ≡ is_write result }
{
    out.line.clear();
    push_walked_frame(out.line, out.size, number, frame)?;
    send_line(out)
}

/// Writes the line that says why a walk ends.
fn write_stop<S: Sink>(out: &mut Writer<'_, S>, stop: Stop) -> Result<(), ReportFault>
    requires { S.has_stopped out.old.sink.now ≡ false }
    ensures same { IsSame out.old out.new }
    ensures written { Writes (S.taken out.old.sink.now) (S.taken out.new.sink.now) result
        (last_line stop) }
    ensures stops { S.has_stopped out.new.sink.now ≡ is_write result }
{
    out.line.clear();
    push_stop(out.line, stop)?;
    send_line(out)
}

/// The next frame of a walk, or the reason why there is none.
fn next_or_stop<U: Unwinder + Drop, M: Memory>(
    walk: &mut Walk<'_, U, M>,
) -> Result<BriefFrame, Stop>
    ensures gives { MatchResult result
        (λ _. GivesNext (U.unwinds walk.old.unwinder (roles_of walk.old.abi) (M.bytes walk.old.memory))
        walk.old walk.new)
        (λ stop. (stop_of walk.old.progress ≡ Some stop) × (walk.new ≡ walk.old)) }
    ensures brief { IfOk result (λ frame. brief_in frame ≡ brief_of (frame_at walk.new.progress)) }
{
    match walk.next() {
        Some(frame) => Ok(frame),
        None => Err(walk.stop().unwrap()),
    }
}

/// Writes a line for each frame of a walk, at most `limit` of them, and a line that says why the
/// walk ends. Each line is sent before the next frame is computed, so memory holds one line only.
pub(crate) fn write_walk<S: Sink, U: Unwinder + Drop, M: Memory>(
    out: &mut Writer<'_, S>,
    walk: &mut Walk<'_, U, M>,
    limit: u32,
) -> Result<(), ReportFault>
    requires runs { S.has_stopped out.old.sink.now ≡ false }
    requires begins { walk.old.progress ≡ about_to_give (frame_at walk.old.progress) }
    ensures same { IsSame out.old out.new }
    ensures written { let u = U.unwinds walk.old.unwinder (roles_of walk.old.abi)
        (M.bytes walk.old.memory)
        in (first : Place) → AlwaysUnwinds u → IsFrameAt u first (frame_at walk.old.progress)
        → (frames : List WalkedFrame) × (stop : Stop) × Walks u first limit frames stop
        × Writes (S.taken out.old.sink.now) (S.taken out.new.sink.now) result
        (walk_text out.old.size frames stop) }
    ensures stops { S.has_stopped out.new.sink.now ≡ is_write result }
{
    frames_that_are_given_are_a_walk::<U>();
    let mut number: u32 = 0;
    while number < limit {
        let frame = match next_or_stop(walk) {
            Ok(frame) => frame,
            Err(stop) => return write_stop(out, stop),
        };
        write_walked_frame(out, number, frame)?;
        number += 1;
    }
    write_stop(out, Stop::Limit)
}
