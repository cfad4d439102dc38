//! Turns a command line into a request.

ghost use Rattle.std.specs.Prelude.{◌≡◌, ◌⊎◌, ◌∷◌, ◌++◌, [], IfOk, IfErr, Some, map, option_map, codes};
ghost use Rattle.std.specs.Option.{IsSomeAnd, option_to_list};
ghost use Rattle.std.specs.String.{string_bytes};
ghost use Rattle.clap.specs.Words.{found_of, rows_of, first_of, kind_of, subcommand_rows_of};
ghost use Rattle.dw_requests.specs.Arguments.{flag_of, target_by_flags, load_in, modules_in, IsBad, address, kind, named_module};
ghost use Rattle.dw_requests.specs.Commands.{check_command, rows_command, row_command, locs_command, eval_command, unwind_command};
ghost use Rattle.dw_requests.specs.Commands.{backtrace_command, backtrace_in, lookup_in, arguments_of};
ghost use Rattle.dw_requests.specs.Requests.{asked_of, asked_by, asked_with, HasBad, HasBadWord, IsUsageOf, AsksFor};
ghost use Rattle.dw_requests.specs.declared.requests.Usage.TheVariants.{Memory, BadArgument};

use crate::command_line::{
    ADDRESS, BACKTRACE, BASE, CHECK, EVAL, EXPR, FRAME, HEX, KIND, LIMIT, LIST, LISTS, LOCS, ROW,
    ROWS, STATE, STATE_FILE, UNWIND, whole_command,
};
use crate::found_words::{
    address_word, has_flag, kind_word, limit_word, load_option, module_options, offset_word,
    target_by_flags, word_text,
};
use crate::named_modules::NamedModule;
use crate::requests::{ListLookup, Request, Task, Usage};
use clap::error::ErrorKind;
use clap::{ArgMatches, Error};
use std::alloc::{AllocError, Global};

/// A request for `task` and `files`, with the flags that clap found. The frame section's module is
/// loaded at 0, and there are no further modules.
fn request_with(alloc: Global, matches: &ArgMatches<'_>, task: Task, files: Vec<String>) -> Request
    ensures task { result.task ≡ task }
    ensures target { result.target ≡ target_by_flags (rows_of (found_of matches.now)) }
    ensures load { result.load ≡ 0 }
    ensures modules { result.module_loads ≡ [] }
    ensures hex { result.hex ≡ flag_of (codes "hex") (rows_of (found_of matches.now)) }
    ensures files { result.files ≡ map (λ s. string_bytes s) files.items }
{
    Request {
        task,
        target: target_by_flags(matches),
        load: 0,
        module_loads: Vec::new(alloc),
        hex: has_flag(matches, HEX),
        files,
    }
}

/// A request for `task` and one file, with the flags that clap found. Fails only if memory runs
/// out.
fn request_over(
    alloc: Global,
    matches: &ArgMatches<'_>,
    task: Task,
    file: &str,
) -> Result<Request, Usage>
    ensures task { IfOk result (λ r. r.task ≡ task) }
    ensures target { IfOk result
        (λ r. r.target ≡ target_by_flags (rows_of (found_of matches.now))) }
    ensures load { IfOk result (λ r. r.load ≡ 0) }
    ensures modules { IfOk result (λ r. r.module_loads ≡ []) }
    ensures hex { IfOk result (λ r. r.hex ≡ flag_of (codes "hex")
        (rows_of (found_of matches.now))) }
    ensures files { IfOk result (λ r. r.files ≡ file.now ∷ []) }
    ensures err { IfErr result (λ e. e ≡ Memory) }
{
    let files = vec![in alloc; String::from_str(alloc, file)?]?;
    Ok(request_with(alloc, matches, task, files))
}

/// A list of one or two file names: `file`, and then `second` if there is one.
fn one_or_two_files(alloc: Global, file: &str, second: Option<&str>) -> Result<Vec<String>, Usage>
    ensures ok { IfOk result (λ files. map (λ s. string_bytes s) files.items ≡ file.now
        ∷ option_to_list (option_map (λ s. s.now) second.entry)) }
    ensures err { IfErr result (λ e. e ≡ Memory) }
{
    let mut files = vec![in alloc; String::from_str(alloc, file)?]?;
    if let Some(second) = second {
        files.push(String::from_str(alloc, second)?)?;
    }
    Ok(files)
}

/// A request for `task` and two files, with the flags that clap found. Fails only if memory runs
/// out.
fn request_over_both(
    alloc: Global,
    matches: &ArgMatches<'_>,
    task: Task,
    first: &str,
    second: &str,
) -> Result<Request, Usage>
    ensures task { IfOk result (λ r. r.task ≡ task) }
    ensures target { IfOk result
        (λ r. r.target ≡ target_by_flags (rows_of (found_of matches.now))) }
    ensures load { IfOk result (λ r. r.load ≡ 0) }
    ensures modules { IfOk result (λ r. r.module_loads ≡ []) }
    ensures hex { IfOk result (λ r. r.hex ≡ flag_of (codes "hex")
        (rows_of (found_of matches.now))) }
    ensures files { IfOk result (λ r. r.files ≡ first.now ∷ second.now ∷ []) }
    ensures err { IfErr result (λ e. e ≡ Memory) }
{
    let files = one_or_two_files(alloc, first, Some(second))?;
    Ok(request_with(alloc, matches, task, files))
}

/// A request for `task` and one file, followed by the file of `--state` if that option is given.
/// Fails only if memory runs out.
fn request_with_state(
    alloc: Global,
    matches: &ArgMatches<'_>,
    task: Task,
    file: &str,
) -> Result<Request, Usage>
    ensures task { IfOk result (λ r. r.task ≡ task) }
    ensures target { IfOk result
        (λ r. r.target ≡ target_by_flags (rows_of (found_of matches.now))) }
    ensures load { IfOk result (λ r. r.load ≡ 0) }
    ensures modules { IfOk result (λ r. r.module_loads ≡ []) }
    ensures hex { IfOk result (λ r. r.hex ≡ flag_of (codes "hex")
        (rows_of (found_of matches.now))) }
    ensures files { IfOk result (λ r. r.files ≡ file.now
        ∷ option_to_list (first_of (codes "state") (rows_of (found_of matches.now)))) }
    ensures err { IfErr result (λ e. e ≡ Memory) }
{
    let files = one_or_two_files(alloc, file, word_text(matches, STATE))?;
    Ok(request_with(alloc, matches, task, files))
}

/// `files`, followed by the files of `modules`.
fn with_module_files(
    alloc: Global,
    files: Vec<String>,
    modules: &[NamedModule<'_>],
) -> Result<Vec<String>, AllocError>
    ensures { IfOk result (λ all. map (λ s. string_bytes s) all.items
        ≡ map (λ s. string_bytes s) files.items ++ map (λ m. m.file) modules.now) }
{
    let mut files = files;
    for module in modules {
        files.push(String::from_str(alloc, module.file)?)?;
    }
    Ok(files)
}

/// A request for `task`, a frame section and a state file, with the values of `--load` and
/// `--module`.
fn request_over_modules(
    alloc: Global,
    matches: &ArgMatches<'_>,
    task: Task,
    frame: &str,
    state: &str,
) -> Result<Request, Usage>
    ensures ok { IfOk result (λ r. asked_with (rows_of (found_of matches.now))
        (frame.now ∷ state.now ∷ []) (Some task) (load_in (rows_of (found_of matches.now)))
        (modules_in (rows_of (found_of matches.now))) ≡ Some r) }
    ensures err { IfErr result (λ e. (e ≡ Memory) ⊎ ((e ≡ BadArgument)
        × HasBad (rows_of (found_of matches.now))
        ((codes "load", address) ∷ (codes "module", named_module) ∷ []))) }
{
    let load = load_option(matches)?;
    let modules = module_options(alloc, matches)?;
    let files = one_or_two_files(alloc, frame, Some(state))?;
    let files = with_module_files(alloc, files, modules.as_slice())?;
    let module_loads = modules.iter().map(|module| module.load).collect(alloc)?;
    Ok(Request {
        load,
        module_loads,
        ..request_with(alloc, matches, task, files)
    })
}

/// The request that the words of `check` make.
fn check_request(alloc: Global, matches: &ArgMatches<'_>) -> Result<Request, Usage>
    ensures ok { IfOk result (λ r. asked_of check_command (rows_of (found_of matches.now))
        ≡ Some r) }
    ensures err { IfErr result (λ e. e ≡ Memory) }
{
    let (Some(frame), Some(lists)) = (word_text(matches, FRAME), word_text(matches, LISTS)) else {
        return Err(Usage::Memory);
    };
    request_over_both(alloc, matches, Task::Check, frame, lists)
}

/// The request that the words of `rows` make.
fn rows_request(alloc: Global, matches: &ArgMatches<'_>) -> Result<Request, Usage>
    ensures ok { IfOk result (λ r. asked_of rows_command (rows_of (found_of matches.now))
        ≡ Some r) }
    ensures err { IfErr result (λ e. e ≡ Memory) }
{
    match word_text(matches, FRAME) {
        Some(file) => request_over(alloc, matches, Task::Rows, file),
        None => Err(Usage::Memory),
    }
}

/// The request that the words and options of `row` make.
fn row_request(alloc: Global, matches: &ArgMatches<'_>) -> Result<Request, Usage>
    ensures ok { IfOk result (λ r. asked_of row_command (rows_of (found_of matches.now)) ≡ Some r) }
    ensures err { IfErr result (λ e. (e ≡ Memory)
        ⊎ ((e ≡ BadArgument) × HasBad (rows_of (found_of matches.now)) (arguments_of row_command))) }
{
    let Some(file) = word_text(matches, FRAME) else {
        return Err(Usage::Memory);
    };
    let address = address_word(matches, ADDRESS)?;
    let load = load_option(matches)?;
    let request = request_over(alloc, matches, Task::Row { address }, file)?;
    Ok(Request { load, ..request })
}

/// What `locs` looks up: the values of its words LIST, BASE and ADDRESS.
fn locs_lookup(matches: &ArgMatches<'_>) -> Result<ListLookup, Usage>
    ensures ok { IfOk result (λ l. lookup_in (rows_of (found_of matches.now)) ≡ Some l) }
    ensures err { IfErr result (λ e. (e ≡ Memory)
        ⊎ ((e ≡ BadArgument) × HasBad (rows_of (found_of matches.now)) locs_command.words)) }
{
    let list = offset_word(matches, LIST)?;
    let base = address_word(matches, BASE)?;
    let address = address_word(matches, ADDRESS)?;
    Ok(ListLookup {
        list,
        base,
        address,
    })
}

/// The request that the words and options of `locs` make.
fn locs_request(alloc: Global, matches: &ArgMatches<'_>) -> Result<Request, Usage>
    ensures ok { IfOk result (λ r. asked_of locs_command (rows_of (found_of matches.now))
        ≡ Some r) }
    ensures err { IfErr result (λ e. (e ≡ Memory)
        ⊎ ((e ≡ BadArgument) × HasBad (rows_of (found_of matches.now)) locs_command.words)) }
{
    let Some(file) = word_text(matches, LISTS) else {
        return Err(Usage::Memory);
    };
    let lookup = locs_lookup(matches)?;
    request_with_state(alloc, matches, Task::Locs { lookup }, file)
}

/// The request that the words and options of `eval` make.
fn eval_request(alloc: Global, matches: &ArgMatches<'_>) -> Result<Request, Usage>
    ensures ok { IfOk result (λ r. asked_of eval_command (rows_of (found_of matches.now))
        ≡ Some r) }
    ensures err { IfErr result (λ e. (e ≡ Memory)
        ⊎ ((e ≡ BadArgument) × IsBad (rows_of (found_of matches.now)) (codes "KIND", kind))) }
{
    let (Some(file), Some(name)) = (word_text(matches, EXPR), word_text(matches, KIND)) else {
        return Err(Usage::Memory);
    };
    let Some(kind) = kind_word(name) else {
        return Err(Usage::BadArgument);
    };
    request_with_state(alloc, matches, Task::Eval { kind }, file)
}

/// The request that the words and options of `unwind` make.
fn unwind_request(alloc: Global, matches: &ArgMatches<'_>) -> Result<Request, Usage>
    ensures ok { IfOk result (λ r. asked_of unwind_command (rows_of (found_of matches.now))
        ≡ Some r) }
    ensures err { IfErr result (λ e. (e ≡ Memory)
        ⊎ ((e ≡ BadArgument) × HasBad (rows_of (found_of matches.now))
        (arguments_of unwind_command))) }
{
    let (Some(frame), Some(state)) = (word_text(matches, FRAME), word_text(matches, STATE_FILE))
    else {
        return Err(Usage::Memory);
    };
    let address = address_word(matches, ADDRESS)?;
    request_over_modules(alloc, matches, Task::Unwind { address }, frame, state)
}

/// The task of `backtrace`, with the values of its words ADDRESS and LIMIT.
fn backtrace_task(matches: &ArgMatches<'_>) -> Result<Task, Usage>
    ensures ok { IfOk result (λ task. backtrace_in (rows_of (found_of matches.now)) ≡ Some task) }
    ensures err { IfErr result (λ e. (e ≡ Memory)
        ⊎ ((e ≡ BadArgument) × HasBad (rows_of (found_of matches.now)) backtrace_command.words)) }
{
    let address = address_word(matches, ADDRESS)?;
    let limit = limit_word(matches, LIMIT)?;
    Ok(Task::Backtrace { address, limit })
}

/// The request that the words and options of `backtrace` make.
fn backtrace_request(alloc: Global, matches: &ArgMatches<'_>) -> Result<Request, Usage>
    ensures ok { IfOk result (λ r. asked_of backtrace_command (rows_of (found_of matches.now))
        ≡ Some r) }
    ensures err { IfErr result (λ e. (e ≡ Memory)
        ⊎ ((e ≡ BadArgument) × HasBad (rows_of (found_of matches.now))
        (arguments_of backtrace_command))) }
{
    let (Some(frame), Some(state)) = (word_text(matches, FRAME), word_text(matches, STATE_FILE))
    else {
        return Err(Usage::Memory);
    };
    let task = backtrace_task(matches)?;
    request_over_modules(alloc, matches, task, frame, state)
}

/// The request of the subcommand `name`. Some code in this file returns `Memory` although no
/// allocation failed. That code is never reached, since clap rejects a subcommand that is unknown
/// or lacks a word.
fn request_of_command(alloc: Global, name: &str, matches: &ArgMatches<'_>) -> Result<Request, Usage>
    ensures ok { IfOk result (λ r. asked_by name.now (rows_of (found_of matches.now)) ≡ Some r) }
    ensures err { IfErr result (λ e. (e ≡ Memory)
        ⊎ ((e ≡ BadArgument) × HasBadWord name.now (rows_of (found_of matches.now)))) }
{
    if name == CHECK {
        return check_request(alloc, matches);
    }
    if name == ROWS {
        return rows_request(alloc, matches);
    }
    if name == ROW {
        return row_request(alloc, matches);
    }
    if name == LOCS {
        return locs_request(alloc, matches);
    }
    if name == EVAL {
        return eval_request(alloc, matches);
    }
    if name == UNWIND {
        return unwind_request(alloc, matches);
    }
    if name == BACKTRACE {
        return backtrace_request(alloc, matches);
    }
    Err(Usage::Memory)
}

/// The request of the subcommand that clap found.
fn request_of_matches(alloc: Global, matches: &ArgMatches<'_>) -> Result<Request, Usage>
    ensures ok { IfOk result (λ r. IsSomeAnd (subcommand_rows_of matches.now)
        (λ (name, rows). asked_by name rows ≡ Some r)) }
    ensures err { IfErr result (λ e. (e ≡ Memory)
        ⊎ ((e ≡ BadArgument) × IsSomeAnd (subcommand_rows_of matches.now)
        (λ (name, rows). HasBadWord name rows))) }
{
    match matches.subcommand() {
        Some((name, inner)) => request_of_command(alloc, name, inner),
        None => Err(Usage::Memory),
    }
}

/// Turns an error from clap into a `Usage`.
fn usage_of_clap_error(alloc: Global, error: Error) -> Usage
    ensures { IsUsageOf (kind_of error) result }
{
    if error.kind() == ErrorKind::OutOfMemory {
        return Usage::Memory;
    }
    match error.to_string(alloc) {
        Ok(text) => Usage::Line(text),
        Err(_) => Usage::Memory,
    }
}

/// Turns a command line, whose first word is the program's name, into a request. The error is
/// `Line` if clap rejects the words or they ask for help. It is `BadArgument` if clap accepts the
/// words, but a word or an option's value is malformed. If memory runs out, the error is `Memory`.
pub fn request(alloc: Global, words: Vec<String>) -> Result<Request, Usage>
    ensures { AsksFor (map (λ w. string_bytes w) words.items) result }
{
    let command = whole_command(alloc)?;
    match command.try_get_matches_from(words.as_slice()) {
        Ok(matches) => request_of_matches(alloc, &matches),
        Err(error) => Err(usage_of_clap_error(alloc, error)),
    }
}
