//! Evaluates the expressions of a location list that apply at an address, and writes their
//! outcomes.

ghost use Rattle.std.specs.Prelude.{◌≡◌, ◌++◌, ◌<◌, ◌^◌, ℕ, List, false, length};
ghost use Rattle.std.specs.List.{All};
ghost use Rattle.dw_stack.specs.Certificates.{checked_of};
ghost use Rattle.dw_loclists.specs.Reading.{IsChecked};
ghost use Rattle.dw_stack.specs.Located.{located_of};
ghost use Rattle.dw_check.specs.Text.{expression_offset_line};
ghost use Rattle.dw_check.specs.Lookups.{IsShowable, AreEvaluated, ShowsLocations, ShowsList, list_that_begins_at};
ghost use Rattle.dw_check.specs.Evaluations.{Evaluates};
ghost use Rattle.dw_state.specs.StateFile.{StateFact, IsGivenBy};
ghost use Rattle.dw_state.specs.StateViews.{known_state_of};
ghost use Rattle.dw_check.specs.WriteResults.{IsSame, Writes, is_write};

use crate::evaluations::write_outcome;
use crate::lines::push_expression_offset;
use crate::sink::Sink;
use crate::stop::ReportFault;
use crate::writer::{Writer, send_line};
use dw_loclists::{CheckedLists, LocationsAt};
use dw_requests::ListLookup;
use dw_stack::CheckedExpression;
use dw_state::MachineState;

/// Writes the line that gives an expression's offset in its section.
fn write_location_offset<S: Sink>(out: &mut Writer<'_, S>, offset: u32) -> Result<(), ReportFault>
    requires runs { S.has_stopped out.old.sink.now ≡ false }
    ensures same { IsSame out.old out.new }
    ensures written { Writes (S.taken out.old.sink.now) (S.taken out.new.sink.now) result
        (expression_offset_line offset) }
    ensures stops { S.has_stopped out.new.sink.now ≡ is_write result }
{
    out.line.clear();
    push_expression_offset(out.line, offset)?;
    send_line(out)
}

/// Writes `line`, which says that there is nothing to show.
fn write_no_location<S: Sink>(out: &mut Writer<'_, S>, line: &str) -> Result<(), ReportFault>
    requires runs { S.has_stopped out.old.sink.now ≡ false }
    ensures same { IsSame out.old out.new }
    ensures written { Writes (S.taken out.old.sink.now) (S.taken out.new.sink.now) result line.now }
    ensures stops { S.has_stopped out.new.sink.now ≡ is_write result }
{
    out.line.clear();
    out.line.push_str(line)?;
    send_line(out)
}

/// Writes an expression's offset in its section, and its outcome given `state`.
fn write_location<S: Sink>(
    out: &mut Writer<'_, S>,
    offset: u32,
    checked: &CheckedExpression<'_>,
    state: &MachineState,
) -> Result<(), ReportFault>
    requires showable { IsShowable out.old.size (located_of (offset, checked.now)) }
    requires runs { S.has_stopped out.old.sink.now ≡ false }
    ensures same { IsSame out.old out.new }
    ensures written { (facts : List StateFact) → IsGivenBy (known_state_of state.now) facts
        → (text : List ℕ)
        × Evaluates (checked_of checked.now).kind (checked_of checked.now).target
        (checked_of checked.now).bytes facts text
        × Writes (S.taken out.old.sink.now) (S.taken out.new.sink.now) result
        (expression_offset_line offset ++ text) }
    ensures stops { S.has_stopped out.new.sink.now ≡ is_write result }
{
    write_location_offset(out, offset)?;
    write_outcome(out, checked, state)
}

/// Writes the offset and the outcome of each expression that `locations` has not given yet.
fn write_other_locations<'c, 'a, S: Sink>(
    out: &mut Writer<'_, S>,
    locations: LocationsAt<'c, 'a>,
    state: &MachineState,
) -> Result<(), ReportFault>
    requires showable { All (λ x. IsShowable out.old.size x) locations }
    requires runs { S.has_stopped out.old.sink.now ≡ false }
    ensures same { IsSame out.old out.new }
    ensures written { (facts : List StateFact) → IsGivenBy (known_state_of state.now) facts
        → (text : List ℕ) × AreEvaluated facts locations.entry text
        × Writes (S.taken out.old.sink.now) (S.taken out.new.sink.now) result text }
    ensures stops { S.has_stopped out.new.sink.now ≡ is_write result }
{
    for (offset, checked) in locations {
        write_location(out, offset, &checked, state)?;
    }
    Ok(())
}

/// Writes the offset and the outcome of each expression in `locations`, or `none` if there are no
/// expressions.
fn write_locations<'c, 'a, S: Sink>(
    out: &mut Writer<'_, S>,
    locations: LocationsAt<'c, 'a>,
    state: &MachineState,
) -> Result<(), ReportFault>
    requires showable { All (λ x. IsShowable out.old.size x) locations }
    requires runs { S.has_stopped out.old.sink.now ≡ false }
    ensures same { IsSame out.old out.new }
    ensures written { (facts : List StateFact) → IsGivenBy (known_state_of state.now) facts
        → (text : List ℕ) × ShowsLocations facts locations.entry text
        × Writes (S.taken out.old.sink.now) (S.taken out.new.sink.now) result text }
    ensures stops { S.has_stopped out.new.sink.now ≡ is_write result }
{
    let mut locations = locations;
    match locations.next() {
        Some((offset, checked)) => {
            write_location(out, offset, &checked, state)?;
            write_other_locations(out, locations, state)
        }
        None => write_no_location(out, "none\n"),
    }
}

/// Looks up `lookup.address` in the location list at offset `lookup.list`, and writes the offset
/// and the outcome of each expression that applies. Writes `none` if no expression applies, and
/// `no list` if no list begins at that offset. Takes one pass over the list, and a binary search
/// for each expression.
pub(crate) fn write_list_lookup<S: Sink>(
    out: &mut Writer<'_, S>,
    lists: &CheckedLists<'_>,
    lookup: ListLookup,
    state: &MachineState,
) -> Result<(), ReportFault>
    requires short { length lists.now.section < 2 ^ 32 }
    requires checked { IsChecked lists.now }
    requires size { out.old.size ≡ lists.now.target.address_size }
    requires runs { S.has_stopped out.old.sink.now ≡ false }
    ensures same { IsSame out.old out.new }
    ensures written { (facts : List StateFact) → IsGivenBy (known_state_of state.now) facts
        → (text : List ℕ)
        × ShowsList facts (list_that_begins_at lists.now lookup.list)
        lookup.base lookup.address text
        × Writes (S.taken out.old.sink.now) (S.taken out.new.sink.now) result text }
    ensures stops { S.has_stopped out.new.sink.now ≡ is_write result }
{
    match lists.list(lookup.list) {
        Some(list) => {
            let locations = lists.locations_at(&list, lookup.base, lookup.address);
            write_locations(out, locations, state)
        }
        None => write_no_location(out, "no list\n"),
    }
}
