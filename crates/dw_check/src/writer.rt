//! Sends lines to a sink.

ghost use Rattle.std.specs.Prelude.{◌≡◌, false};
ghost use Rattle.std.specs.String.{string_bytes};
ghost use Rattle.dw_check.specs.WriteResults.{IsSame, WritesWhole, is_write};

use crate::sink::{Sink, write_all};
use crate::stop::ReportFault;
use dw_bytes::AddressSize;

/// A sink and the text that is sent to the sink next. The rest of the output isn't kept in memory.
#[derive(Drop)]
pub(crate) struct Writer<'a, S: Sink> {
    /// The line or lines that are sent next. They may be incomplete.
    pub line: &'a mut String,
    /// The size of an address: 4-byte addresses are shown with 8 hex digits, 8-byte ones with 16.
    pub size: AddressSize,
    pub sink: &'a mut S,
}

/// Sends `out.line` to the sink.
pub(crate) fn send_line<S: Sink>(out: &mut Writer<'_, S>) -> Result<(), ReportFault>
    requires runs { S.has_stopped out.old.sink.now ≡ false }
    ensures same { IsSame out.old out.new }
    ensures written { WritesWhole (S.taken out.old.sink.now) (S.taken out.new.sink.now) result
        (string_bytes out.old.line.now) }
    ensures stops { S.has_stopped out.new.sink.now ≡ is_write result }
{
    write_all(out.sink, out.line.as_bytes())?;
    Ok(())
}
