//! Writes the report on two accepted sections: what they hold, and a line for each expression.

ghost use Rattle.std.specs.Prelude.{◌≡◌, ◌+◌, ◌++◌, ℕ, List, OnOk, false, length};
ghost use Rattle.std.specs.List.{flat_map};
ghost use Rattle.std.specs.String.{string_bytes};
ghost use Rattle.dw_stack.specs.Certificates.{checked_of};
ghost use Rattle.dw_stack.specs.Located.{located_of};
ghost use Rattle.dw_loclists.specs.Reading.{tables_in, lists_in, located_in};
ghost use Rattle.dw_check.specs.Report.{IsReport, AreLines, count_text, last_count_text, expressions_text, frame_counts_line};
ghost use Rattle.dw_check.specs.Report.{lists_counts_line, frame_line, lists_line, summary_text, expression_kind_text, expression_line};
ghost use Rattle.dw_check.specs.ReportViews.{line_of};
ghost use Rattle.dw_check.specs.WriteResults.{IsSame, Writes, is_write};
ghost use Rattle.dw_sections.specs.declared.section.Section.TheVariants as sections;

use crate::numbers::{push_decimal, push_offset};
use crate::sink::Sink;
use crate::stop::ReportFault;
use crate::writer::{Writer, send_line};
use dw_loclists::{CheckedLists, Expressions};
use dw_rows::CheckedFrame;
use dw_sections::{Checked, Section};
use dw_stack::{CheckedExpression, Kind};
use std::alloc::{AllocError, Global};

fn cie_count(frame: &CheckedFrame<'_>) -> usize
    ensures { result ≡ length frame.now.cies }
{
    frame.cies().len()
}

fn fde_count(frame: &CheckedFrame<'_>) -> usize
    ensures { result ≡ length frame.now.fdes }
{
    frame.fdes().len()
}

fn table_count(lists: &CheckedLists<'_>) -> usize
    ensures { result ≡ length (tables_in lists.now) }
{
    lists.tables().len()
}

fn list_count(lists: &CheckedLists<'_>) -> usize
    ensures { result ≡ length (lists_in lists.now) }
{
    lists.lists().len()
}

/// The total number of expressions in both sections.
fn expression_count(checked: &Checked<'_>) -> u128
    ensures { result ≡ length checked.now.frame.expressions
        + length (located_in checked.now.lists) }
{
    let of_frame = checked.frame().expressions().len();
    let of_lists = checked.lists().expressions().len();
    of_frame as u128 + of_lists as u128
}

#[tactic(auto, unfolding(crate::specs::Report::count_text))]
fn push_count(line: &mut String, name: &str, number: usize) -> Result<(), AllocError>
    ensures { OnOk result (string_bytes line.new ≡ string_bytes line.old
        ++ count_text name.now number) }
{
    line.push_str(name)?;
    push_decimal(line, number)
}

#[tactic(auto, unfolding(crate::specs::Report::frame_counts_line))]
fn push_frame_counts(
    line: &mut String,
    cies: usize,
    fdes: usize,
    rows: u128,
) -> Result<(), AllocError>
    ensures { OnOk result (string_bytes line.new ≡ string_bytes line.old
        ++ frame_counts_line cies fdes rows) }
{
    line.push_str("cies ")?;
    push_decimal(line, cies)?;
    line.push_str(" fdes ")?;
    push_decimal(line, fdes)?;
    line.push_str(" rows ")?;
    push_decimal(line, rows)?;
    line.push_str("\n")
}

#[tactic(auto, unfolding(crate::specs::Report::last_count_text))]
fn push_last_count(line: &mut String, name: &str, number: u128) -> Result<(), AllocError>
    ensures { OnOk result (string_bytes line.new ≡ string_bytes line.old
        ++ last_count_text name.now number) }
{
    line.push_str(name)?;
    push_decimal(line, number)?;
    line.push_str("\n")
}

#[tactic(auto, unfolding(crate::specs::Report::expressions_text))]
fn push_expression_count(line: &mut String, expressions: u128) -> Result<(), AllocError>
    ensures { OnOk result (string_bytes line.new ≡ string_bytes line.old
        ++ expressions_text expressions) }
{
    push_last_count(line, " expressions ", expressions)
}

#[tactic(auto, unfolding(crate::specs::Report::lists_counts_line))]
fn push_lists_counts(
    line: &mut String,
    tables: usize,
    lists: usize,
    expressions: u128,
) -> Result<(), AllocError>
    ensures { OnOk result (string_bytes line.new ≡ string_bytes line.old
        ++ lists_counts_line tables lists expressions) }
{
    push_count(line, "tables ", tables)?;
    push_count(line, " lists ", lists)?;
    push_expression_count(line, expressions)
}

/// Appends the line with the numbers of CIEs, FDEs and rows in a frame section.
fn push_frame_line(line: &mut String, frame: &CheckedFrame<'_>) -> Result<(), AllocError>
    ensures { OnOk result (string_bytes line.new ≡ string_bytes line.old ++ frame_line frame.now) }
{
    push_frame_counts(line, cie_count(frame), fde_count(frame), frame.row_count())
}

/// Appends the line with the number of tables and the number of location lists in the section of
/// location lists, and with the number of expressions in both sections together.
fn push_lists_line(line: &mut String, checked: &Checked<'_>) -> Result<(), AllocError>
    ensures { OnOk result (string_bytes line.new ≡ string_bytes line.old
        ++ lists_line checked.now.frame checked.now.lists) }
{
    let lists = checked.lists();
    push_lists_counts(
        line,
        table_count(lists),
        list_count(lists),
        expression_count(checked),
    )
}

/// Appends the first three lines of a report: `accepted`, and two lines with counts.
#[tactic(auto, unfolding(crate::specs::Report::summary_text))]
fn push_summary(line: &mut String, checked: &Checked<'_>) -> Result<(), AllocError>
    ensures { OnOk result (string_bytes line.new ≡ string_bytes line.old
        ++ summary_text checked.now.frame checked.now.lists) }
{
    line.push_str("accepted\n")?;
    push_frame_line(line, checked.frame())?;
    push_lists_line(line, checked)
}

/// The word for a kind of expression in a report.
fn reported_kind(kind: Kind) -> &'static str
    ensures { result.now ≡ expression_kind_text kind }
{
    match kind {
        Kind::FrameCfa => "cfa",
        Kind::FrameRegister => "register",
        Kind::Location => "location",
    }
}

/// Appends the report's line on an expression: its section, its offset there, its kind, its number
/// of operations, and the greatest stack depth on any path through the expression.
#[tactic(auto, unfolding(crate::specs::Report::expression_line))]
fn push_expression_line(
    line: &mut String,
    section: Section,
    offset: u32,
    checked: &CheckedExpression<'_>,
) -> Result<(), AllocError>
    ensures { OnOk result (string_bytes line.new ≡ string_bytes line.old
        ++ expression_line section (located_of (offset, checked.now))
        (checked_of checked.now).depth) }
{
    line.push_str("expr ")?;
    line.push_str(section.text())?;
    line.push_str(" ")?;
    push_offset(line, offset)?;
    line.push_str(" ")?;
    line.push_str(reported_kind(checked.kind()))?;
    line.push_str(" ops ")?;
    push_decimal(line, checked.operation_count())?;
    line.push_str(" depth ")?;
    push_decimal(line, checked.depth())?;
    line.push_str("\n")
}

/// Writes the report's line on an expression.
fn write_expression_line<S: Sink>(
    out: &mut Writer<'_, S>,
    section: Section,
    offset: u32,
    checked: &CheckedExpression<'_>,
) -> Result<(), ReportFault>
    requires { S.has_stopped out.old.sink.now ≡ false }
    ensures same { IsSame out.old out.new }
    ensures written { Writes (S.taken out.old.sink.now) (S.taken out.new.sink.now) result
        (line_of section (offset, checked.now)) }
    ensures stops { S.has_stopped out.new.sink.now ≡ is_write result }
{
    out.line.clear();
    push_expression_line(out.line, section, offset, checked)?;
    send_line(out)
}

/// Writes a line for each expression of the frame section, in the order of `expressions`.
fn write_frame_expressions<S: Sink>(
    out: &mut Writer<'_, S>,
    expressions: &[(u32, CheckedExpression<'_>)],
) -> Result<(), ReportFault>
    requires { S.has_stopped out.old.sink.now ≡ false }
    ensures same { IsSame out.old out.new }
    ensures written { Writes (S.taken out.old.sink.now) (S.taken out.new.sink.now) result
        (flat_map (line_of sections.Frame) expressions.now) }
    ensures stops { S.has_stopped out.new.sink.now ≡ is_write result }
{
    for located in expressions {
        write_expression_line(out, Section::Frame, located.0, &located.1)?;
    }
    Ok(())
}

/// Writes a line for each expression of the location lists, in the order of `expressions`.
fn write_list_expressions<'c, 'a, S: Sink>(
    out: &mut Writer<'_, S>,
    expressions: Expressions<'c, 'a>,
) -> Result<(), ReportFault>
    requires { S.has_stopped out.old.sink.now ≡ false }
    ensures same { IsSame out.old out.new }
    ensures written { (text : List ℕ) → AreLines sections.Lists expressions.entry text
        → Writes (S.taken out.old.sink.now) (S.taken out.new.sink.now) result text }
    ensures stops { S.has_stopped out.new.sink.now ≡ is_write result }
{
    for (offset, checked) in expressions {
        write_expression_line(out, Section::Lists, offset, &checked)?;
    }
    Ok(())
}

/// Writes a line for each expression of the frame section, and then one for each expression of the
/// location lists.
fn write_all_expressions<'c, 'a, S: Sink>(
    out: &mut Writer<'_, S>,
    of_frame: &[(u32, CheckedExpression<'_>)],
    of_lists: Expressions<'c, 'a>,
) -> Result<(), ReportFault>
    requires { S.has_stopped out.old.sink.now ≡ false }
    ensures same { IsSame out.old out.new }
    ensures written { (text : List ℕ) → AreLines sections.Lists of_lists.entry text
        → Writes (S.taken out.old.sink.now) (S.taken out.new.sink.now) result
        (flat_map (line_of sections.Frame) of_frame.now ++ text) }
    ensures stops { S.has_stopped out.new.sink.now ≡ is_write result }
{
    write_frame_expressions(out, of_frame)?;
    write_list_expressions(out, of_lists)
}

/// Writes all lines of the report to `out`: the counts first, then the expressions.
pub(crate) fn write_report<S: Sink>(
    out: &mut Writer<'_, S>,
    checked: &Checked<'_>,
) -> Result<(), ReportFault>
    requires { S.has_stopped out.old.sink.now ≡ false }
    ensures same { IsSame out.old out.new }
    ensures written { (text : List ℕ) × IsReport checked.now.frame checked.now.lists text
        × Writes (S.taken out.old.sink.now) (S.taken out.new.sink.now) result text }
    ensures stops { S.has_stopped out.new.sink.now ≡ is_write result }
{
    let of_frame = checked.frame().expressions();
    let of_lists = checked.lists().expressions();
    out.line.clear();
    push_summary(out.line, checked)?;
    send_line(out)?;
    write_all_expressions(out, of_frame, of_lists)
}

/// Writes the report on two checked sections: `accepted`; the numbers of CIEs, FDEs, rows, tables,
/// lists and expressions; and a line for each expression, first of the frame section, then of the
/// location lists. The first three lines are sent to the sink together and the others one by one,
/// so memory never holds the whole report. After an error only a beginning of the report, or
/// nothing, has been written. If the error is `Write`, the sink has stopped. If it is `Memory`, the
/// sink hasn't stopped.
pub fn report<S: Sink>(
    alloc: Global,
    checked: &Checked<'_>,
    sink: &mut S,
) -> Result<(), ReportFault>
    requires { S.has_stopped sink.old ≡ false }
    ensures written { (text : List ℕ) × IsReport checked.now.frame checked.now.lists text
        × Writes (S.taken sink.old) (S.taken sink.new) result text }
    ensures stops { S.has_stopped sink.new ≡ is_write result }
{
    let mut line = String::new(alloc);
    let mut out = Writer {
        line: &mut line,
        size: checked.frame().target().address_size,
        sink,
    };
    write_report(&mut out, checked)
}
