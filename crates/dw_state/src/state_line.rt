//! Parses the lines of a state file (docs/OUTPUT.md).

ghost use Rattle.std.specs.Prelude.{◌≡◌, IfOk, IfSome, option_map};
ghost use Rattle.dw_state.specs.StateFile.{FitsAddresses, bytes_fact, register_fact, memory_fact};
ghost use Rattle.dw_state.specs.StateFile.{fact_of_three_words, fact_of_two_words, fact_of_line};
ghost use Rattle.dw_state.specs.StateViews.{fact_of};

use crate::addresses::{parse_address, parse_short};
use crate::split::Parts;
use dw_bytes::Target;
use hex::FromHexError;
use std::alloc::{AllocError, Global};

/// What a line of a state file gives. `Keep` names a callee-saved register, and `StackPointer` the
/// register that is the stack pointer.
#[derive(Drop)]
pub enum StateLine {
    Register { number: u16, content: u64 },
    Memory { address: u64, bytes: Vec<u8> },
    Cfa(u64),
    FrameBase(u64),
    Object(u64),
    Keep(u16),
    StackPointer(u16),
}

/// The line that gives `bytes` of memory, the first of them at `address`. `None` if `bytes` is
/// empty, or if the last byte would be past the target's greatest address.
fn memory_line(target: Target, address: u64, bytes: Vec<u8>) -> Option<StateLine>
    ensures given { option_map fact_of result ≡ bytes_fact target address bytes.items }
    ensures fits { IfSome result (λ line. FitsAddresses (fact_of line)) }
{
    let top = target.address_size.max_address();
    if bytes.is_empty() || address > top || (bytes.len() - 1) as u64 > top - address {
        return None;
    }
    Some(StateLine::Memory { address, bytes })
}

/// Parses what follows `reg`: a register's number and its content. `None` if either is malformed.
fn parse_register_line(target: Target, place: &[u8], value: &[u8]) -> Option<StateLine>
    ensures given { option_map fact_of result ≡ register_fact target place.now value.now }
    ensures fits { IfSome result (λ line. FitsAddresses (fact_of line)) }
{
    let number = parse_short(place)?;
    let content = parse_address(value, target)?;
    Some(StateLine::Register { number, content })
}

/// Parses what follows `mem`: an address, and bytes in hex. `None` if either is malformed.
fn parse_memory_line(
    alloc: Global,
    target: Target,
    place: &[u8],
    value: &[u8],
) -> Result<Option<StateLine>, AllocError>
    ensures given { IfOk result (λ r. option_map fact_of r
        ≡ memory_fact target place.now value.now) }
    ensures fits { IfOk result (λ r. IfSome r (λ line. FitsAddresses (fact_of line))) }
{
    let Some(address) = parse_address(place, target) else {
        return Ok(None);
    };
    match hex::decode(alloc, value) {
        Ok(bytes) => Ok(memory_line(target, address, bytes)),
        Err(FromHexError::OutOfMemory) => Err(AllocError),
        Err(_) => Ok(None),
    }
}

/// Parses a line of three words, the first of which has to be `reg` or `mem`. `None` if the line is
/// malformed.
fn parse_three_words(
    alloc: Global,
    target: Target,
    word: &[u8],
    place: &[u8],
    value: &[u8],
) -> Result<Option<StateLine>, AllocError>
    ensures given { IfOk result (λ r. option_map fact_of r
        ≡ fact_of_three_words target word.now place.now value.now) }
    ensures fits { IfOk result (λ r. IfSome r (λ line. FitsAddresses (fact_of line))) }
{
    if word == "reg".as_bytes() {
        return Ok(parse_register_line(target, place, value));
    }
    if word == "mem".as_bytes() {
        return parse_memory_line(alloc, target, place, value);
    }
    Ok(None)
}

/// Parses a line of two words, the first of which has to be `cfa`, `frame`, `object`, `keep` or
/// `sp`. `None` if the line is malformed.
fn parse_two_words(target: Target, word: &[u8], value: &[u8]) -> Option<StateLine>
    ensures given { option_map fact_of result ≡ fact_of_two_words target word.now value.now }
    ensures fits { IfSome result (λ line. FitsAddresses (fact_of line)) }
{
    if word == "cfa".as_bytes() {
        return Some(StateLine::Cfa(parse_address(value, target)?));
    }
    if word == "frame".as_bytes() {
        return Some(StateLine::FrameBase(parse_address(value, target)?));
    }
    if word == "object".as_bytes() {
        return Some(StateLine::Object(parse_address(value, target)?));
    }
    if word == "keep".as_bytes() {
        return Some(StateLine::Keep(parse_short(value)?));
    }
    if word == "sp".as_bytes() {
        return Some(StateLine::StackPointer(parse_short(value)?));
    }
    None
}

/// Parses a line, whose words are separated by single spaces. `None` if the line is malformed.
pub fn parse_line(
    alloc: Global,
    target: Target,
    line: &[u8],
) -> Result<Option<StateLine>, AllocError>
    ensures given { IfOk result (λ r. option_map fact_of r ≡ fact_of_line target line.now) }
    ensures fits { IfOk result (λ r. IfSome r (λ line. FitsAddresses (fact_of line))) }
{
    let mut words = Parts::new(line, b' ');
    let (first, second) = (words.next(), words.next());
    let (third, fourth) = (words.next(), words.next());
    match (first, second, third, fourth) {
        (Some(word), Some(value), None, _) => Ok(parse_two_words(target, word, value)),
        (Some(word), Some(place), Some(value), None) => parse_three_words(
            alloc, target, word, place, value,
        ),
        _ => Ok(None),
    }
}
