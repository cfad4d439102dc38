//! Writes refusals, and the FDEs and rows of checked frame sections, line by line.

ghost use Rattle.std.specs.Prelude.{◌≡◌, ◌+◌, ◌≤◌, false, Contains};
ghost use Rattle.std.specs.List.{All, flat_map};
ghost use Rattle.dw_frame.specs.Views.{cie_of, fde_of};
ghost use Rattle.dw_frame.specs.Sections.{top_of};
ghost use Rattle.dw_check.specs.Text.{FitsFde, Fits, refused_line, fde_line, row_line, fde_text, frame_text, lookup_text};
ghost use Rattle.dw_check.specs.WriteResults.{IsSame, Writes, WritesWhole, is_write};

use crate::lines::{push_fde, push_refused, push_row};
use crate::sink::Sink;
use crate::stop::ReportFault;
use crate::writer::{Writer, send_line};
use dw_bytes::Fault;
use dw_frame::{CommonInformationEntry, FrameDescriptionEntry};
use dw_rows::{CheckedFrame, Rows, UnwindTableRow};
use dw_sections::Section;

/// Writes the line that says why an input is refused.
pub(crate) fn write_refused<S: Sink>(
    out: &mut Writer<'_, S>,
    section: Section,
    fault: Fault,
) -> Result<(), ReportFault>
    requires { S.has_stopped out.old.sink.now ≡ false }
    ensures same { IsSame out.old out.new }
    ensures written { WritesWhole (S.taken out.old.sink.now) (S.taken out.new.sink.now) result
        (refused_line section fault) }
    ensures stops { S.has_stopped out.new.sink.now ≡ is_write result }
{
    out.line.clear();
    push_refused(out.line, section, fault)?;
    send_line(out)
}

/// Writes the line of an FDE, without its rows.
fn write_fde<S: Sink>(
    out: &mut Writer<'_, S>,
    cie: &CommonInformationEntry<'_>,
    fde: &FrameDescriptionEntry<'_>,
) -> Result<(), ReportFault>
    requires fits { FitsFde out.old.size (fde_of fde.now) }
    requires runs { S.has_stopped out.old.sink.now ≡ false }
    ensures same { IsSame out.old out.new }
    ensures written { Writes (S.taken out.old.sink.now) (S.taken out.new.sink.now) result
        (fde_line out.old.size (cie_of cie.now) (fde_of fde.now)) }
    ensures stops { S.has_stopped out.new.sink.now ≡ is_write result }
{
    out.line.clear();
    push_fde(out.line, out.size, cie, fde)?;
    send_line(out)
}

/// Writes the line of a row.
fn write_row<S: Sink>(
    out: &mut Writer<'_, S>,
    row: &UnwindTableRow<'_, '_>,
) -> Result<(), ReportFault>
    requires fits { Fits out.old.size row.now }
    requires runs { S.has_stopped out.old.sink.now ≡ false }
    ensures same { IsSame out.old out.new }
    ensures written { Writes (S.taken out.old.sink.now) (S.taken out.new.sink.now) result
        (row_line out.old.size row.now) }
    ensures stops { S.has_stopped out.new.sink.now ≡ is_write result }
{
    out.line.clear();
    push_row(out.line, out.size, row)?;
    send_line(out)
}

/// Writes a line for each row that `rows` has not given yet. Each of them overwrites the buffer
/// `row`.
fn write_rows<'f, 'a, S: Sink>(
    out: &mut Writer<'_, S>,
    rows: &mut Rows<'f, 'a>,
    row: &mut UnwindTableRow<'f, 'a>,
) -> Result<(), ReportFault>
    requires fit { All (λ row. Fits out.old.size row) rows.old }
    requires runs { S.has_stopped out.old.sink.now ≡ false }
    ensures same { IsSame out.old out.new }
    ensures written { Writes (S.taken out.old.sink.now) (S.taken out.new.sink.now) result
        (flat_map (row_line out.old.size) rows.old) }
    ensures stops { S.has_stopped out.new.sink.now ≡ is_write result }
{
    'rows: while rows.next_into(row) {
        write_row(out, row)?;
    }
    Ok(())
}

/// Writes the lines of an FDE and its rows. `rows` and `row` are buffers that are reused.
fn write_fde_and_rows<'f, 'a, S: Sink>(
    out: &mut Writer<'_, S>,
    frame: &'f CheckedFrame<'a>,
    fde: &FrameDescriptionEntry<'a>,
    rows: &mut Rows<'f, 'a>,
    row: &mut UnwindTableRow<'f, 'a>,
) -> Result<(), ReportFault>
    requires inside { Contains frame.now.fdes (fde_of fde.now) }
    requires fits { (fde_of fde.now).initial_location + (fde_of fde.now).address_range
        ≤ top_of frame.now.target }
    requires size { out.old.size ≡ frame.now.target.address_size }
    requires runs { S.has_stopped out.old.sink.now ≡ false }
    ensures same { IsSame out.old out.new }
    ensures written { Writes (S.taken out.old.sink.now) (S.taken out.new.sink.now) result
        (fde_text frame.now (fde_of fde.now)) }
    ensures stops { S.has_stopped out.new.sink.now ≡ is_write result }
{
    let cie = frame.rows_into(fde, rows);
    write_fde(out, &cie, fde)?;
    write_rows(out, rows, row)
}

/// Writes the lines of each FDE and its rows, in the order of the section.
pub(crate) fn write_frame_section<S: Sink>(
    out: &mut Writer<'_, S>,
    frame: &CheckedFrame<'_>,
) -> Result<(), ReportFault>
    requires size { out.old.size ≡ frame.now.target.address_size }
    requires runs { S.has_stopped out.old.sink.now ≡ false }
    ensures same { IsSame out.old out.new }
    ensures written { Writes (S.taken out.old.sink.now) (S.taken out.new.sink.now) result
        (frame_text frame.now) }
    ensures stops { S.has_stopped out.new.sink.now ≡ is_write result }
{
    let fdes = frame.fdes();
    if fdes.is_empty() {
        return Ok(());
    }
    let mut rows = frame.rows(&fdes[0]);
    let mut row = UnwindTableRow::empty();
    for fde in fdes {
        write_fde_and_rows(out, frame, fde, &mut rows, &mut row)?;
    }
    Ok(())
}

/// Writes the line of the row that applies at `address`, or `none` if no FDE covers the address.
pub(crate) fn write_row_lookup<S: Sink>(
    out: &mut Writer<'_, S>,
    frame: &CheckedFrame<'_>,
    address: u64,
) -> Result<(), ReportFault>
    requires size { out.old.size ≡ frame.now.target.address_size }
    requires runs { S.has_stopped out.old.sink.now ≡ false }
    ensures same { IsSame out.old out.new }
    ensures written { Writes (S.taken out.old.sink.now) (S.taken out.new.sink.now) result
        (lookup_text frame.now address) }
    ensures stops { S.has_stopped out.new.sink.now ≡ is_write result }
{
    match frame.row_for_address(address) {
        Some(row) => write_row(out, &row),
        None => {
            out.line.clear();
            out.line.push_str("none\n")?;
            send_line(out)
        }
    }
}
