//! Writes the caller of a frame: its CFA, its registers and its return address.

ghost use Rattle.std.specs.Prelude.{◌≡◌, ◌++◌, false, OnOk, map, option_copied, option_map};
ghost use Rattle.std.specs.List.{flat_map};
ghost use Rattle.std.specs.String.{string_bytes};
ghost use Rattle.dw_check.specs.CallerText.{answer_text, answer_line, found_line, caller_text};
ghost use Rattle.dw_unwind.specs.CallerViews.{answer_in, found_in, caller_in};
ghost use Rattle.dw_check.specs.WriteResults.{IsSame, WritesWhole, is_write};

use crate::numbers::{push_address, push_decimal};
use crate::sink::Sink;
use crate::stop::ReportFault;
use crate::writer::{Writer, send_line};
use dw_bytes::AddressSize;
use dw_unwind::{Answer, Caller};
use std::alloc::AllocError;

/// Appends the value of an answer, or the reason why the answer has no value.
pub(crate) fn push_answer(
    line: &mut String,
    size: AddressSize,
    answer: Answer,
) -> Result<(), AllocError>
    ensures { OnOk result (string_bytes line.new ≡ string_bytes line.old
        ++ answer_text size (answer_in answer)) }
{
    match answer {
        Answer::Value(value) => {
            line.push_str("value ")?;
            push_address(line, size, value)
        }
        Answer::Undefined => line.push_str("undefined"),
        Answer::Unreadable => line.push_str("unreadable"),
        Answer::DivisionByZero => line.push_str("division by zero"),
    }
}

#[tactic(auto, unfolding(crate::specs::CallerText::answer_line))]
fn push_named_answer(
    line: &mut String,
    size: AddressSize,
    what: &str,
    answer: Answer,
) -> Result<(), AllocError>
    ensures { OnOk result (string_bytes line.new ≡ string_bytes line.old
        ++ answer_line size what.now (answer_in answer)) }
{
    line.push_str(what)?;
    line.push_str(" ")?;
    push_answer(line, size, answer)?;
    line.push_str("\n")
}

#[tactic(auto, unfolding(crate::specs::CallerText::found_line))]
fn push_register_answer(
    line: &mut String,
    size: AddressSize,
    register: u16,
    answer: Answer,
) -> Result<(), AllocError>
    ensures { OnOk result (string_bytes line.new ≡ string_bytes line.old
        ++ found_line size (register, answer_in answer)) }
{
    line.push_str("r")?;
    push_decimal(line, register)?;
    line.push_str(" ")?;
    push_answer(line, size, answer)?;
    line.push_str("\n")
}

fn push_register_answers(
    line: &mut String,
    size: AddressSize,
    registers: &[(u16, Answer)],
) -> Result<(), AllocError>
    ensures { OnOk result (string_bytes line.new ≡ string_bytes line.old
        ++ flat_map (found_line size) (map found_in registers.now)) }
{
    for found in registers {
        push_register_answer(line, size, found.0, found.1)?;
    }
    Ok(())
}

#[tactic(auto, unfolding(crate::specs::CallerText::caller_text))]
fn push_caller(
    line: &mut String,
    size: AddressSize,
    caller: Option<&Caller>,
) -> Result<(), AllocError>
    ensures { OnOk result (string_bytes line.new ≡ string_bytes line.old
        ++ caller_text size (option_map caller_in (option_copied caller.entry))) }
{
    match caller {
        Some(caller) => {
            push_named_answer(line, size, "cfa", caller.cfa)?;
            push_register_answers(line, size, caller.registers.as_slice())?;
            push_named_answer(line, size, "return", caller.return_address)
        }
        None => line.push_str("none\n"),
    }
}

/// Writes the lines of a caller, or `none` if `caller` is `None`.
pub(crate) fn write_caller<S: Sink>(
    out: &mut Writer<'_, S>,
    caller: Option<&Caller>,
) -> Result<(), ReportFault>
    requires { S.has_stopped out.old.sink.now ≡ false }
    ensures same { IsSame out.old out.new }
    ensures written { WritesWhole (S.taken out.old.sink.now) (S.taken out.new.sink.now) result
        (caller_text out.old.size (option_map caller_in (option_copied caller.entry))) }
    ensures stops { S.has_stopped out.new.sink.now ≡ is_write result }
{
    out.line.clear();
    push_caller(out.line, out.size, caller)?;
    send_line(out)
}
