//! Describes the command line to clap: the subcommands, their words, flags and options, and the
//! help.

ghost use Rattle.std.specs.Prelude.{◌≡◌, IfOk, map, true, false};
ghost use Rattle.clap.specs.Words.{with_subcommand, app_of, rule_of};
ghost use Rattle.clap.specs.declared.builder.Command.TheViews.{out-Command as fields_of};
ghost use Rattle.dw_requests.specs.Commands.{flag_rule, option_rule, word_rule, with_flags, with_words, with_option};
ghost use Rattle.dw_requests.specs.Commands.{with_options};
ghost use Rattle.dw_requests.specs.Commands.{with_commands, app_of_command, dwcheck};
ghost use Rattle.dw_requests.specs.CommandViews.{file_words, command_in};

use clap::{Arg, ArgAction, Command};
use std::alloc::{AllocError, Global};

// The names of commands, words, flags and options.
pub(crate) const CHECK: &str = "check";

pub(crate) const ROWS: &str = "rows";

pub(crate) const ROW: &str = "row";

pub(crate) const LOCS: &str = "locs";

pub(crate) const EVAL: &str = "eval";

pub(crate) const UNWIND: &str = "unwind";

pub(crate) const BACKTRACE: &str = "backtrace";

pub(crate) const FRAME: &str = "FRAME";

pub(crate) const ADDRESS: &str = "ADDRESS";

pub(crate) const LISTS: &str = "LISTS";

pub(crate) const LIST: &str = "LIST";

pub(crate) const BASE: &str = "BASE";

pub(crate) const KIND: &str = "KIND";

pub(crate) const EXPR: &str = "EXPR";

pub(crate) const STATE_FILE: &str = "STATE";

pub(crate) const LIMIT: &str = "LIMIT";

pub(crate) const STATE: &str = "state";

pub(crate) const LOAD: &str = "load";

pub(crate) const MODULE: &str = "module";

pub(crate) const BIG: &str = "big";

pub(crate) const ADDR4: &str = "addr4";

pub(crate) const HEX: &str = "hex";

const FRAME_HELP: &str =
    "A file with the raw bytes of a .debug_frame section, as objcopy --dump-section writes it";

const LISTS_HELP: &str =
    "A file with the raw bytes of a .debug_loclists section, as objcopy --dump-section writes it";

const STATE_HELP: &str =
    "A text file with registers, memory, the ABI and the context of a stopped thread";

const LOAD_HELP: &str = "The address where the module of FRAME is loaded; 0x0 if not given";

const MODULE_HELP: &str =
    "LOAD=FILE: a further module, where it is loaded and its section; may be given again";

const WHERE_IT_STANDS: &str = "The address of the frame's next instruction: 0x and hex digits";

const WHOLE_HELP: &str = "\
Sections are those of linked programs and libraries, not compressed. A program's .eh_frame and
other ELF files: dwcheck-elf. Walk-throughs: docs/TUTORIAL.md. What a refusal means, and what to do
about it: docs/TROUBLESHOOTING.md. Also: man dwcheck.";

const CHECK_EXAMPLE: &str = "\
Example:
  objcopy --dump-section .debug_frame=f --dump-section .debug_loclists=l PROGRAM /dev/null
  dwcheck check f l

An empty file stands for a section that a program doesn't have. The rules: docs/PROFILE.md.";

const ROWS_EXAMPLE: &str = "\
Example:
  objcopy --dump-section .debug_frame=f PROGRAM /dev/null
  dwcheck rows f

How rows are written: docs/OUTPUT.md.";

const ROW_EXAMPLE: &str = "\
Example:
  dwcheck row f 0x1139
  dwcheck row --load 0x555555554000 f 0x555555555139

How a row is written: docs/OUTPUT.md.";

const LOCS_EXAMPLE: &str = "\
Example:
  dwcheck locs l 0xc 0x1000 0x1004
  dwcheck locs --state s l 0xc 0x1000 0x1004

LIST is the offset of a list's first byte, which DW_AT_location of a variable names.
How state files are written: docs/OUTPUT.md.";

const EVAL_EXAMPLE: &str = "\
Example:
  echo 77 08 > e; echo reg 7 0x7ffe0000 > s
  dwcheck eval --hex --state s cfa e

How state files are written: docs/OUTPUT.md.";

const UNWIND_EXAMPLE: &str = "\
Example:
  dwcheck unwind f 0x1139 s
  dwcheck unwind --load 0x555555554000 --module 0x7ffff7fc0000=lib.f f 0x555555555139 s

How state files are written: docs/OUTPUT.md. A gdb script writes one: tools/.";

const BACKTRACE_EXAMPLE: &str = "\
Example:
  dwcheck backtrace f 0x1139 s 64
  dwcheck backtrace --load 0x555555554000 --module 0x7ffff7fc0000=lib.f f 0x555555555139 s 64

How state files are written: docs/OUTPUT.md. A gdb script writes one: tools/.";

/// What clap has to know of a command. `about` says what the command does, and `example` is the end
/// of its help. `words` are its required arguments in order, each a name and its help text. The
/// last three fields say whether the command takes `--state`, `--load` and `--module`. The flags
/// aren't listed, since they are the same for all commands.
struct Outline<'a> {
    name: &'a str,
    about: &'a str,
    example: &'a str,
    words: &'a [(&'a str, &'a str)],
    has_state: bool,
    has_load: bool,
    has_modules: bool,
}

/// The commands, in the order in which the help shows them.
const COMMANDS: [Outline<'static>; 7] = [
    Outline {
        name: CHECK,
        about: "Check two sections, and report on them",
        example: CHECK_EXAMPLE,
        words: &[(FRAME, FRAME_HELP), (LISTS, LISTS_HELP)],
        has_state: false,
        has_load: false,
        has_modules: false,
    },
    Outline {
        name: ROWS,
        about: "Show each FDE and its rows",
        example: ROWS_EXAMPLE,
        words: &[(FRAME, FRAME_HELP)],
        has_state: false,
        has_load: false,
        has_modules: false,
    },
    Outline {
        name: ROW,
        about: "Show the row of an address",
        example: ROW_EXAMPLE,
        words: &[(FRAME, FRAME_HELP), (ADDRESS, "0x and 1 to 16 hex digits")],
        has_state: false,
        has_load: true,
        has_modules: false,
    },
    Outline {
        name: LOCS,
        about: "Show what a location list says of an address",
        example: LOCS_EXAMPLE,
        words: &[
            (LISTS, LISTS_HELP),
            (LIST, "The offset of a list in the section"),
            (BASE, "The base address of the unit"),
            (ADDRESS, "The address to look up"),
        ],
        has_state: true,
        has_load: false,
        has_modules: false,
    },
    Outline {
        name: EVAL,
        about: "Evaluate an expression",
        example: EVAL_EXAMPLE,
        words: &[
            (KIND, "cfa, register or location"),
            (EXPR, "A file with the bytes of an expression"),
        ],
        has_state: true,
        has_load: false,
        has_modules: false,
    },
    Outline {
        name: UNWIND,
        about: "Show the caller of the frame at an address",
        example: UNWIND_EXAMPLE,
        words: &[
            (FRAME, FRAME_HELP),
            (ADDRESS, WHERE_IT_STANDS),
            (STATE_FILE, STATE_HELP),
        ],
        has_state: false,
        has_load: true,
        has_modules: true,
    },
    Outline {
        name: BACKTRACE,
        about: "Show the frame at an address and those that called",
        example: BACKTRACE_EXAMPLE,
        words: &[
            (FRAME, FRAME_HELP),
            (ADDRESS, WHERE_IT_STANDS),
            (STATE_FILE, STATE_HELP),
            (LIMIT, "The most frames, up to 65535"),
        ],
        has_state: false,
        has_load: true,
        has_modules: true,
    },
];

fn clap_flag<'a>(alloc: Global, name: &'a str, help: &'a str) -> Arg<'a>
    ensures rule { rule_of result ≡ flag_rule name.entry.now }
    ensures local { result.global ≡ false }
{
    Arg::new(alloc, name)
        .long(name)
        .action(ArgAction::SetTrue)
        .help(help)
}

fn clap_word<'a>(alloc: Global, name: &'a str, help: &'a str) -> Arg<'a>
    ensures rule { rule_of result ≡ word_rule name.entry.now }
    ensures local { result.global ≡ false }
{
    Arg::new(alloc, name).required(true).help(help)
}

fn clap_option<'a>(alloc: Global, name: &'a str, help: &'a str) -> Arg<'a>
    ensures rule { rule_of result ≡ option_rule name.entry.now }
    ensures local { result.global ≡ false }
{
    Arg::new(alloc, name)
        .long(name)
        .action(ArgAction::Set)
        .help(help)
}

fn with_flags<'a>(alloc: Global, command: Command<'a>) -> Result<Command<'a>, AllocError>
    requires { (fields_of command).has_globals ≡ false }
    ensures app { IfOk result (λ c. app_of c ≡ with_flags (app_of command.entry)) }
    ensures local { IfOk result (λ c. (fields_of c).has_globals ≡ false) }
{
    command
        .arg(clap_flag(alloc, BIG, "Numbers are big-endian"))?
        .arg(clap_flag(alloc, ADDR4, "Addresses have 4 bytes, not 8"))?
        .arg(clap_flag(alloc, HEX, "Sections and expressions are hex text"))
}

/// Adds `words` as required arguments, in order. Each pair is a name and its help text.
fn with_words<'a>(
    alloc: Global,
    command: Command<'a>,
    words: &[(&'a str, &'a str)],
) -> Result<Command<'a>, AllocError>
    requires { (fields_of command).has_globals ≡ false }
    ensures app { IfOk result (λ c. app_of c ≡ with_words (app_of command.entry)
        (file_words words.now)) }
    ensures local { IfOk result (λ c. (fields_of c).has_globals ≡ false) }
{
    let mut command = command;
    for (name, help) in words {
        command = command.arg(clap_word(alloc, name, help))?;
    }
    Ok(command)
}

/// Adds `option` if `is_taken` is true, and otherwise leaves the command as it is.
fn with_option<'a>(
    command: Command<'a>,
    option: Arg<'a>,
    is_taken: bool,
) -> Result<Command<'a>, AllocError>
    requires locals { (fields_of command).has_globals ≡ false }
    requires local { option.global ≡ false }
    ensures app { IfOk result (λ c. app_of c
        ≡ with_option (app_of command.entry) (rule_of option.entry) is_taken) }
    ensures local { IfOk result (λ c. (fields_of c).has_globals ≡ false) }
{
    if is_taken {
        command.arg(option)
    } else {
        Ok(command)
    }
}

/// Adds the options that the command described by `outline` takes.
fn with_options<'a>(
    alloc: Global,
    command: Command<'a>,
    outline: &Outline<'a>,
) -> Result<Command<'a>, AllocError>
    requires { (fields_of command).has_globals ≡ false }
    ensures app { IfOk result (λ c. app_of c
        ≡ with_options (app_of command.entry) (command_in outline.now)) }
    ensures local { IfOk result (λ c. (fields_of c).has_globals ≡ false) }
{
    let state = clap_option(alloc, STATE, STATE_HELP);
    let load = clap_option(alloc, LOAD, LOAD_HELP);
    let module = clap_option(alloc, MODULE, MODULE_HELP).action(ArgAction::Append);
    let command = with_option(command, state, outline.has_state)?;
    let command = with_option(command, load, outline.has_load)?;
    with_option(command, module, outline.has_modules)
}

/// Makes the command that `outline` describes.
fn clap_command<'a>(alloc: Global, outline: &Outline<'a>) -> Result<Command<'a>, AllocError>
    ensures app { IfOk result (λ c. app_of c ≡ app_of_command (command_in outline.now)) }
    ensures local { IfOk result (λ c. (fields_of c).has_globals ≡ false) }
{
    let command = with_flags(
        alloc,
        Command::new(alloc, outline.name)
            .about(outline.about)
            .after_help(outline.example),
    )?;
    let command = with_words(alloc, command, outline.words)?;
    with_options(alloc, command, outline)
}

/// Adds the command that `outline` describes, as a subcommand.
fn with_command<'a>(
    alloc: Global,
    command: Command<'a>,
    outline: &Outline<'a>,
) -> Result<Command<'a>, AllocError>
    requires { (fields_of command).has_globals ≡ false }
    ensures app { IfOk result (λ c. app_of c ≡ with_subcommand (app_of command.entry)
        (app_of_command (command_in outline.now)).top) }
    ensures local { IfOk result (λ c. (fields_of c).has_globals ≡ false) }
{
    command.subcommand(clap_command(alloc, outline)?)
}

/// Adds the commands that `outlines` describe, as subcommands.
fn with_commands<'a>(
    alloc: Global,
    command: Command<'a>,
    outlines: &[Outline<'a>],
) -> Result<Command<'a>, AllocError>
    requires { (fields_of command).has_globals ≡ false }
    ensures app { IfOk result (λ c. app_of c ≡ with_commands (app_of command.entry)
        (map command_in outlines.now)) }
    ensures local { IfOk result (λ c. (fields_of c).has_globals ≡ false) }
{
    let mut command = command;
    for outline in outlines {
        command = with_command(alloc, command, outline)?;
    }
    Ok(command)
}

/// The command `dwcheck` with all its subcommands. A subcommand is required.
pub(crate) fn whole_command<'a>(alloc: Global) -> Result<Command<'a>, AllocError>
    ensures app { IfOk result (λ c. app_of c ≡ dwcheck) }
    ensures local { IfOk result (λ c. (fields_of c).has_globals ≡ false) }
{
    let command = Command::new(alloc, "dwcheck")
        .about("Check DWARF 5 unwind tables and location lists, and evaluate expressions")
        .after_help(WHOLE_HELP);
    let command = with_commands(alloc, command, &COMMANDS)?;
    Ok(command.subcommand_required(true))
}
