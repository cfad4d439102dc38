//! Reads the words, the flags and the options of a command from the matches that clap found.

ghost use Rattle.std.specs.Prelude.{◌≡◌, ◌⊎◌, IfOk, IfErr, Some, option_map, codes};
ghost use Rattle.clap.specs.Words.{found_of, rows_of, first_of};
ghost use Rattle.dw_requests.specs.Arguments.{flag_of, target_by_flags, kind_of, address_at, offset_at, limit_at};
ghost use Rattle.dw_requests.specs.Arguments.{load_in, modules_in, IsBad, address, offset, limit, named_module};
ghost use Rattle.dw_requests.specs.declared.requests.Usage.TheVariants.{Memory, BadArgument};

use crate::command_line::{ADDR4, BIG, LOAD, MODULE};
use crate::named_modules::{NamedModule, parse_modules};
use crate::requests::Usage;
use clap::ArgMatches;
use dw_bytes::{AddressSize, Order, Target};
use dw_stack::Kind;
use dw_state::{parse_address, parse_offset, parse_short};
use std::alloc::Global;

/// The first value of the argument `name`, or `None` if the argument isn't given.
pub(crate) fn word_text<'a>(matches: &ArgMatches<'a>, name: &str) -> Option<&'a str>
    ensures { option_map (λ s. s.now) result ≡ first_of name.now (rows_of (found_of matches.now)) }
{
    matches.get_str(name)
}

/// Whether a flag was given.
pub(crate) fn has_flag(matches: &ArgMatches<'_>, name: &str) -> bool
    ensures { result ≡ flag_of name.now (rows_of (found_of matches.now)) }
{
    match word_text(matches, name) {
        Some(text) => text == "true",
        None => false,
    }
}

/// The target: big-endian if `--big` is given, else little-endian; with 4-byte addresses if
/// `--addr4` is given, else with 8-byte addresses.
pub(crate) fn target_by_flags(matches: &ArgMatches<'_>) -> Target
    ensures { result ≡ target_by_flags (rows_of (found_of matches.now)) }
{
    let order = if has_flag(matches, BIG) {
        Order::Big
    } else {
        Order::Little
    };
    let address_size = if has_flag(matches, ADDR4) {
        AddressSize::Four
    } else {
        AddressSize::Eight
    };
    Target {
        order,
        address_size,
    }
}

/// The address in the required argument `name`. The error is `BadArgument` if the argument is
/// malformed, and `Memory` if it is missing, which clap rules out.
pub(crate) fn address_word(matches: &ArgMatches<'_>, name: &str) -> Result<u64, Usage>
    ensures ok { IfOk result (λ a. address_at name.now (rows_of (found_of matches.now)) ≡ Some a) }
    ensures err { IfErr result (λ e. (e ≡ Memory)
        ⊎ ((e ≡ BadArgument) × IsBad (rows_of (found_of matches.now)) (name.now, address))) }
{
    let Some(text) = word_text(matches, name) else {
        return Err(Usage::Memory);
    };
    match parse_address(text.as_bytes(), target_by_flags(matches)) {
        Some(address) => Ok(address),
        None => Err(Usage::BadArgument),
    }
}

/// The section offset in the required argument `name`. The error is `BadArgument` if the argument
/// is malformed, and `Memory` if it is missing, which clap rules out.
pub(crate) fn offset_word(matches: &ArgMatches<'_>, name: &str) -> Result<u32, Usage>
    ensures ok { IfOk result (λ n. offset_at name.now (rows_of (found_of matches.now)) ≡ Some n) }
    ensures err { IfErr result (λ e. (e ≡ Memory)
        ⊎ ((e ≡ BadArgument) × IsBad (rows_of (found_of matches.now)) (name.now, offset))) }
{
    let Some(text) = word_text(matches, name) else {
        return Err(Usage::Memory);
    };
    match parse_offset(text.as_bytes()) {
        Some(offset) => Ok(offset),
        None => Err(Usage::BadArgument),
    }
}

/// The kind of expression that is called `name`, or `None` if no kind has that name.
pub(crate) fn kind_word(name: &str) -> Option<Kind>
    ensures { result ≡ kind_of name.now }
{
    if name == "cfa" {
        return Some(Kind::FrameCfa);
    }
    if name == "register" {
        return Some(Kind::FrameRegister);
    }
    if name == "location" {
        return Some(Kind::Location);
    }
    None
}

/// The greatest number of frames to show, in the required argument `name`. The error is
/// `BadArgument` if the argument is malformed, and `Memory` if it is missing, which clap rules out.
pub(crate) fn limit_word(matches: &ArgMatches<'_>, name: &str) -> Result<u32, Usage>
    ensures ok { IfOk result (λ n. limit_at name.now (rows_of (found_of matches.now)) ≡ Some n) }
    ensures err { IfErr result (λ e. (e ≡ Memory)
        ⊎ ((e ≡ BadArgument) × IsBad (rows_of (found_of matches.now)) (name.now, limit))) }
{
    let Some(text) = word_text(matches, name) else {
        return Err(Usage::Memory);
    };
    match parse_short(text.as_bytes()) {
        Some(limit) => Ok(u32::from(limit)),
        None => Err(Usage::BadArgument),
    }
}

/// The load address of FRAME's module: the value of `--load`, or 0 if that option isn't given. The
/// error is `BadArgument` if the value is malformed.
pub(crate) fn load_option(matches: &ArgMatches<'_>) -> Result<u64, Usage>
    ensures ok { IfOk result (λ a. load_in (rows_of (found_of matches.now)) ≡ Some a) }
    ensures err { IfErr result (λ e. (e ≡ BadArgument)
        × IsBad (rows_of (found_of matches.now)) (codes "load", address)) }
{
    let Some(text) = word_text(matches, LOAD) else {
        return Ok(0);
    };
    match parse_address(text.as_bytes(), target_by_flags(matches)) {
        Some(address) => Ok(address),
        None => Err(Usage::BadArgument),
    }
}

/// The modules that the values of `--module` give, in the order of the command line. The error is
/// `BadArgument` if a value is malformed, and `Memory` if memory runs out.
pub(crate) fn module_options<'a>(
    alloc: Global,
    matches: &ArgMatches<'a>,
) -> Result<Vec<NamedModule<'a>>, Usage>
    ensures ok { IfOk result
        (λ modules. modules_in (rows_of (found_of matches.now)) ≡ Some modules.items) }
    ensures err { IfErr result (λ e. (e ≡ Memory) ⊎ ((e ≡ BadArgument)
        × IsBad (rows_of (found_of matches.now)) (codes "module", named_module))) }
{
    match matches.get_strs(MODULE) {
        Some(texts) => parse_modules(alloc, texts, target_by_flags(matches)),
        None => Ok(Vec::new(alloc)),
    }
}
