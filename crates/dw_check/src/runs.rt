//! Runs requests: checks what the files contain, and writes what the command shows of it.

ghost use Rattle.std.specs.Prelude.{◌≡◌, ◌<◌, ◌^◌, ℕ, All, List, false, None, IfOk, IfErr, length, map};
ghost use Rattle.dw_rows.specs.Section.{IsChecked, frame_of};
ghost use Rattle.dw_stack.specs.Certificates.{checked_of};
ghost use Rattle.dw_stack.specs.Expressions.{IsOf};
ghost use Rattle.dw_check.specs.Runs.{Ends, Goes, IsPlaceIn, IsReply, IsReplyTo, IsCheckReply, IsRowsReply, IsRowReply, IsLocsReply};
ghost use Rattle.dw_check.specs.Runs.{IsEvalReply, IsUnwindReply, IsBacktraceReply, ShowsCaller, ShowsWalk};
ghost use Rattle.dw_check.specs.Runs.{lists_refusal, expression_refusal};
ghost use Rattle.dw_sections.specs.Checked.{check_fault};
ghost use Rattle.dw_unwind.specs.Modules.{unborrowed};
ghost use Rattle.dw_state.specs.StateFile.{StateFact, IsGivenBy};
ghost use Rattle.dw_state.specs.StateViews.{known_state_of};
ghost use Rattle.dw_check.specs.Stops.{RefusesBoth, IsRefusal, ended_by, is_output};
ghost use Rattle.dw_check.specs.WriteResults.{IsSame, Writes, is_write};
ghost use Rattle.dw_sections.specs.declared.section.Section.TheVariants as sections;

use crate::caller_text::write_caller;
use crate::evaluations::write_outcome;
use crate::files::Files;
use crate::laws::one_report;
use crate::locations::write_list_lookup;
use crate::output::{write_frame_section, write_refused, write_row_lookup};
use crate::process::{frame_or_refusal, lent_modules, modules_or_refusal, read_process};
use crate::reports::write_report;
use crate::sink::Sink;
use crate::stop::{ReportFault, RunFault};
use crate::walk_text::write_walk;
use crate::writer::Writer;
use dw_bytes::Target;
use dw_loclists::{CheckedLists, check_lists};
use dw_ops::Expression;
use dw_requests::{End, ListLookup, Request, Task};
use dw_rows::CheckedFrame;
use dw_sections::{Checked, SECTION_LIMIT, Section, TOO_LONG, check};
use dw_stack::{CheckedExpression, Kind, check_expression};
use dw_state::MachineState;
use dw_unwind::laws::{
    one_caller_through_modules, one_walk_through_modules, sections_and_tables_always_unwind,
    unwindings_through_what_is_found, walks_through_what_is_found,
};
use dw_unwind::{Module, Walk, as_linked, unwind};
use std::alloc::Global;

/// Checks `section` as a section of location lists. The error is the first fault of the section, or
/// out of memory.
fn lists_or_refusal<'a>(
    alloc: Global,
    target: Target,
    section: &'a [u8],
) -> Result<CheckedLists<'a>, RunFault>
    ensures short { IfOk result (λ _. length section.entry.now < 2 ^ 32) }
    ensures lists { IfOk result
        (λ lists. lists ≡ record { target = target; section = section.entry.now }) }
    ensures whole { IfOk result (λ _. lists_refusal target section.entry.now ≡ None) }
    ensures stop { IfErr result (IsRefusal sections.Lists
        (lists_refusal target section.entry.now)) }
{
    if section.len() >= SECTION_LIMIT {
        return Err(RunFault::Refused(Section::Lists, TOO_LONG));
    }
    match check_lists(alloc, section, target) {
        Ok(lists) => Ok(lists),
        Err(fault) => Err(RunFault::of_fault(Section::Lists, fault)),
    }
}

/// Checks `bytes` as an expression. The error is the first fault of the expression, or out of
/// memory.
fn expression_or_refusal<'a>(
    alloc: Global,
    kind: Kind,
    target: Target,
    bytes: &'a [u8],
) -> Result<CheckedExpression<'a>, RunFault>
    ensures short { IfOk result (λ _. length bytes.entry.now < 2 ^ 32) }
    ensures whole { IfOk result (λ _. expression_refusal kind target bytes.entry.now ≡ None) }
    ensures checked { IfOk result
        (λ checked. IsOf kind target bytes.entry.now (checked_of checked)) }
    ensures stop { IfErr result (IsRefusal sections.Expression
        (expression_refusal kind target bytes.entry.now)) }
{
    if bytes.len() >= SECTION_LIMIT {
        return Err(RunFault::Refused(Section::Expression, TOO_LONG));
    }
    match check_expression(alloc, Expression::new(bytes, target), kind) {
        Ok(checked) => Ok(checked),
        Err(fault) => Err(RunFault::of_fault(Section::Expression, fault)),
    }
}

/// Checks a frame section and a section of location lists. The error is the first fault that
/// `check` finds, or out of memory.
fn sections_or_refusal<'a>(
    alloc: Global,
    target: Target,
    frame: &'a [u8],
    lists: &'a [u8],
) -> Result<Checked<'a>, RunFault>
    ensures frame { IfOk result (λ checked. checked.frame ≡ frame_of target frame.entry.now) }
    ensures lists { IfOk result (λ checked.
        checked.lists ≡ record { target = target; section = lists.entry.now }) }
    ensures whole { IfOk result
        (λ _. check_fault target frame.entry.now lists.entry.now ≡ None) }
    ensures stop { IfErr result (RefusesBoth
        (check_fault target frame.entry.now lists.entry.now)) }
{
    match check(alloc, frame, lists, target) {
        Ok(checked) => Ok(checked),
        Err(found) => Err(RunFault::of_fault(found.section, found.fault)),
    }
}

/// Turns the result of writing the text into the result of the run.
fn run_result(written: Result<(), ReportFault>) -> Result<(), RunFault>
    ensures { result ≡ ended_by written }
{
    Ok(written?)
}

/// Runs `check`: checks two sections and writes the report on them.
fn show_report<S: Sink>(
    alloc: Global,
    files: &Files<'_>,
    out: &mut Writer<'_, S>,
) -> Result<(), RunFault>
    requires { S.has_stopped out.old.sink.now ≡ false }
    ensures same { IsSame out.old out.new }
    ensures goes { Goes (length files.now.contents.now)
        (IsCheckReply files.now.target files.now.hex
        (map (λ file. file.items) files.now.contents.now))
        (S.taken out.old.sink.now) (S.taken out.new.sink.now) result }
    ensures stops { S.has_stopped out.new.sink.now ≡ is_output result }
{
    one_report();
    let frame = files.section(alloc, 0)?;
    let lists = files.section(alloc, 1)?;
    let checked = sections_or_refusal(alloc, files.target, frame.as_slice(), lists.as_slice())?;
    run_result(write_report(out, &checked))
}

/// Runs `rows`: checks a frame section and writes each FDE and its rows.
fn show_rows<S: Sink>(
    alloc: Global,
    files: &Files<'_>,
    out: &mut Writer<'_, S>,
) -> Result<(), RunFault>
    requires size { out.old.size ≡ files.now.target.address_size }
    requires runs { S.has_stopped out.old.sink.now ≡ false }
    ensures same { IsSame out.old out.new }
    ensures goes { Goes (length files.now.contents.now)
        (IsRowsReply files.now.target files.now.hex
        (map (λ file. file.items) files.now.contents.now))
        (S.taken out.old.sink.now) (S.taken out.new.sink.now) result }
    ensures stops { S.has_stopped out.new.sink.now ≡ is_output result }
{
    let section = files.section(alloc, 0)?;
    let frame = frame_or_refusal(alloc, files.target, section.as_slice())?;
    run_result(write_frame_section(out, &frame))
}

/// Runs `row`: checks the frame section of a module that is loaded at `load`, and writes the row
/// that applies at `address`.
fn show_row<S: Sink>(
    alloc: Global,
    address: u64,
    load: u64,
    files: &Files<'_>,
    out: &mut Writer<'_, S>,
) -> Result<(), RunFault>
    requires size { out.old.size ≡ files.now.target.address_size }
    requires runs { S.has_stopped out.old.sink.now ≡ false }
    ensures same { IsSame out.old out.new }
    ensures goes { Goes (length files.now.contents.now)
        (IsRowReply load address files.now.target files.now.hex
        (map (λ file. file.items) files.now.contents.now))
        (S.taken out.old.sink.now) (S.taken out.new.sink.now) result }
    ensures stops { S.has_stopped out.new.sink.now ≡ is_output result }
{
    let section = files.section(alloc, 0)?;
    let frame = frame_or_refusal(alloc, files.target, section.as_slice())?;
    let address = as_linked(files.target, load, address);
    run_result(write_row_lookup(out, &frame, address))
}

/// Runs `locs`: checks a section of location lists, and writes the expressions of a list that apply
/// at an address, and their outcomes. Registers, memory and all else that expressions read come
/// from the state file. Without a state file, none of their values are known.
fn show_locations<S: Sink>(
    alloc: Global,
    lookup: ListLookup,
    files: &Files<'_>,
    out: &mut Writer<'_, S>,
) -> Result<(), RunFault>
    requires size { out.old.size ≡ files.now.target.address_size }
    requires runs { S.has_stopped out.old.sink.now ≡ false }
    ensures same { IsSame out.old out.new }
    ensures goes { Goes (length files.now.contents.now)
        (IsLocsReply lookup files.now.target files.now.hex
        (map (λ file. file.items) files.now.contents.now))
        (S.taken out.old.sink.now) (S.taken out.new.sink.now) result }
    ensures stops { S.has_stopped out.new.sink.now ≡ is_output result }
{
    let section = files.section(alloc, 0)?;
    let state = files.state(alloc, 1)?;
    let lists = lists_or_refusal(alloc, files.target, section.as_slice())?;
    run_result(write_list_lookup(out, &lists, lookup, &state))
}

/// Runs `eval`: checks an expression and writes its outcome. Registers, memory and all else that
/// the expression reads come from the state file. Without a state file, none of their values are
/// known.
fn show_outcome<S: Sink>(
    alloc: Global,
    kind: Kind,
    files: &Files<'_>,
    out: &mut Writer<'_, S>,
) -> Result<(), RunFault>
    requires size { out.old.size ≡ files.now.target.address_size }
    requires runs { S.has_stopped out.old.sink.now ≡ false }
    ensures same { IsSame out.old out.new }
    ensures goes { Goes (length files.now.contents.now)
        (IsEvalReply kind files.now.target files.now.hex
        (map (λ file. file.items) files.now.contents.now))
        (S.taken out.old.sink.now) (S.taken out.new.sink.now) result }
    ensures stops { S.has_stopped out.new.sink.now ≡ is_output result }
{
    let bytes = files.section(alloc, 0)?;
    let state = files.state(alloc, 1)?;
    let checked = expression_or_refusal(alloc, kind, files.target, bytes.as_slice())?;
    run_result(write_outcome(out, &checked, &state))
}

/// Writes the caller of the frame at `address`, given the registers and memory in `state`; or
/// `none` if no FDE covers `address`.
fn unwind_and_write<S: Sink>(
    out: &mut Writer<'_, S>,
    modules: &[Module<&CheckedFrame<'_>>],
    address: u64,
    state: &MachineState,
) -> Result<(), ReportFault>
    requires runs { S.has_stopped out.old.sink.now ≡ false }
    ensures same { IsSame out.old out.new }
    ensures written { (facts : List StateFact) → IsGivenBy (known_state_of state.now) facts
        → (text : List ℕ) × ShowsCaller address out.old.size facts (unborrowed modules.now) text
        × Writes (S.taken out.old.sink.now) (S.taken out.new.sink.now) result text }
    ensures stops { S.has_stopped out.new.sink.now ≡ is_write result }
{
    unwindings_through_what_is_found();
    let caller = unwind(modules, &state.abi(), address, state, state);
    write_caller(out, caller.as_ref())
}

/// Walks up the stack from the frame at `address`, given the registers and memory in `state`.
/// Writes at most `limit` frames, and why there are no more.
fn walk_and_write<S: Sink>(
    out: &mut Writer<'_, S>,
    modules: &[Module<&CheckedFrame<'_>>],
    address: u64,
    limit: u32,
    state: &MachineState,
) -> Result<(), ReportFault>
    requires checked { All (λ m. IsChecked m.rows) (unborrowed modules.now) }
    requires runs { S.has_stopped out.old.sink.now ≡ false }
    ensures same { IsSame out.old out.new }
    ensures written { (facts : List StateFact) → IsGivenBy (known_state_of state.now) facts
        → (text : List ℕ)
        × ShowsWalk address limit out.old.size facts (unborrowed modules.now) text
        × Writes (S.taken out.old.sink.now) (S.taken out.new.sink.now) result text }
    ensures stops { S.has_stopped out.new.sink.now ≡ is_write result }
{
    // These laws are for the proof only. If writing fails, the contract needs a walk whose text
    // begins with what was written.
    sections_and_tables_always_unwind();
    walks_through_what_is_found();
    let abi = state.abi();
    let mut walk = Walk::new(modules, &abi, address, state, state);
    write_walk(out, &mut walk, limit)
}

/// Runs `unwind`: checks the frame sections of the process's modules, and writes the caller of the
/// frame at `address`, given the modules' load addresses and the state in the state file.
fn show_caller<S: Sink>(
    alloc: Global,
    address: u64,
    load: u64,
    module_loads: &[u64],
    files: &Files<'_>,
    out: &mut Writer<'_, S>,
) -> Result<(), RunFault>
    requires size { out.old.size ≡ files.now.target.address_size }
    requires runs { S.has_stopped out.old.sink.now ≡ false }
    ensures same { IsSame out.old out.new }
    ensures goes { Goes (length files.now.contents.now)
        (IsUnwindReply address load module_loads.now files.now.target files.now.hex
        (map (λ file. file.items) files.now.contents.now))
        (S.taken out.old.sink.now) (S.taken out.new.sink.now) result }
    ensures stops { S.has_stopped out.new.sink.now ≡ is_output result }
{
    one_caller_through_modules();
    let process = read_process(alloc, files, load, module_loads)?;
    let modules = modules_or_refusal(alloc, files.target, process.modules.as_slice())?;
    let modules = lent_modules(alloc, modules.as_slice())?;
    run_result(unwind_and_write(out, modules.as_slice(), address, &process.state))
}

/// Runs `backtrace`: checks the frame sections of the process's modules, walks up the stack from
/// the frame at `address`, and writes at most `limit` frames, given the modules' load addresses and
/// the state in the state file.
fn show_walk<S: Sink>(
    alloc: Global,
    address: u64,
    limit: u32,
    load: u64,
    module_loads: &[u64],
    files: &Files<'_>,
    out: &mut Writer<'_, S>,
) -> Result<(), RunFault>
    requires size { out.old.size ≡ files.now.target.address_size }
    requires runs { S.has_stopped out.old.sink.now ≡ false }
    ensures same { IsSame out.old out.new }
    ensures goes { Goes (length files.now.contents.now)
        (IsBacktraceReply address limit load module_loads.now files.now.target files.now.hex
        (map (λ file. file.items) files.now.contents.now))
        (S.taken out.old.sink.now) (S.taken out.new.sink.now) result }
    ensures stops { S.has_stopped out.new.sink.now ≡ is_output result }
{
    one_walk_through_modules();
    let process = read_process(alloc, files, load, module_loads)?;
    let modules = modules_or_refusal(alloc, files.target, process.modules.as_slice())?;
    let modules = lent_modules(alloc, modules.as_slice())?;
    run_result(walk_and_write(out, modules.as_slice(), address, limit, &process.state))
}

/// Runs the command of a request, given the request's files.
fn show_reply<S: Sink>(
    alloc: Global,
    request: &Request,
    files: &Files<'_>,
    out: &mut Writer<'_, S>,
) -> Result<(), RunFault>
    requires size { out.old.size ≡ files.now.target.address_size }
    requires runs { S.has_stopped out.old.sink.now ≡ false }
    ensures same { IsSame out.old out.new }
    ensures goes { Goes (length files.now.contents.now)
        (IsReplyTo request.now.task request.now.load request.now.module_loads files.now.target
        files.now.hex (map (λ file. file.items) files.now.contents.now))
        (S.taken out.old.sink.now) (S.taken out.new.sink.now) result }
    ensures stops { S.has_stopped out.new.sink.now ≡ is_output result }
{
    let load = request.load;
    let loads = request.module_loads.as_slice();
    match request.task {
        Task::Check => show_report(alloc, files, out),
        Task::Rows => show_rows(alloc, files, out),
        Task::Row { address } => show_row(alloc, address, load, files, out),
        Task::Locs { lookup } => show_locations(alloc, lookup, files, out),
        Task::Eval { kind } => show_outcome(alloc, kind, files, out),
        Task::Unwind { address } => show_caller(alloc, address, load, loads, files, out),
        Task::Backtrace { address, limit } => {
            show_walk(alloc, address, limit, load, loads, files, out)
        }
    }
}

/// Runs a request, given the contents of the files that `Request::files` names, in the same order.
///
/// First the files are decoded. If one must be hex text and isn't, the run ends with `BadHex` for
/// the first such file. Otherwise, if a line of the state file is bad, the run ends with
/// `StateLine` for the first such line. Nothing is written in either case. Then sections and
/// expressions are checked. If they have a fault, the line for the first one is written, and the
/// run ends with `Refused`. Otherwise the whole text is written, and the run ends with `Done`.
///
/// If memory runs out, the run ends with `Memory` instead: a beginning of the text may have been
/// written, but no part of a refusal's line. If the sink stops, the run ends with `Output`:
/// only a beginning of the text or of the refusal's line has been written.
pub fn run<S: Sink>(alloc: Global, request: &Request, files: &[Vec<u8>], sink: &mut S) -> End
    requires files { length files.now ≡ length request.now.files }
    requires runs { S.has_stopped sink.old ≡ false }
    ensures place { IsPlaceIn (length request.now.files) result }
    ensures ends { Ends (IsReply request.now (map (λ file. file.items) files.now))
        (S.taken sink.old) (S.taken sink.new) (S.has_stopped sink.new) result }
{
    let files = Files {
        target: request.target,
        hex: request.hex,
        contents: files,
    };
    let mut line = String::new(alloc);
    let mut out = Writer {
        line: &mut line,
        size: request.target.address_size,
        sink,
    };
    match show_reply(alloc, request, &files, &mut out) {
        Ok(()) => End::Done,
        Err(RunFault::Refused(section, fault)) => match write_refused(&mut out, section, fault) {
            Ok(()) => End::Refused,
            Err(ReportFault::Memory) => End::Memory,
            Err(ReportFault::Write) => End::Output,
        },
        Err(RunFault::BadHex(place)) => End::BadHex(place),
        Err(RunFault::StateLine(number)) => End::StateLine(number),
        Err(RunFault::Memory) => End::Memory,
        Err(RunFault::Output) => End::Output,
    }
}
