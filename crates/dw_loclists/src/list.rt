//! Reads and checks location lists.

ghost use Rattle.std.specs.Prelude.{◌≡◌, ◌⊎◌, ◌<◌, ◌≤◌, ◌+◌, [], ◌∷◌, length, IfErr, IfOk, IfSome, OnOk, Ok, Err, None, Some};
ghost use Rattle.std.specs.Prelude.{Bool, false, MatchBool, MatchOption, MatchResult};
ghost use Rattle.dw_bytes.specs.Reading.{MovesForward};
ghost use Rattle.dw_bytes.specs.Readers.{IsRefusedWithin};
ghost use Rattle.dw_bytes.specs.Answers.{memory, Answers};
ghost use Rattle.dw_bytes.specs.Operands.{block_of};
ghost use Rattle.dw_loclists.specs.Bounds.{IsBefore};
ghost use Rattle.dw_loclists.specs.Stored.{KeepsMore, Passes};
ghost use Rattle.dw_loclists.specs.Lists.{Loclist};
ghost use Rattle.dw_loclists.specs.Locations.{location_of, expressions_of};
ghost use Rattle.dw_loclists.specs.Reading.{entry_fault, location_fault, checked_entry_at, list_at};
ghost use Rattle.dw_loclists.specs.Views.{entry_of};

use crate::entry::Entry;
use crate::stored_lists::StoredExpression;
use dw_bytes::{Block, Cursor, Fault, FaultKind, OUT_OF_MEMORY, operands};
use dw_ops::Expression;
use dw_stack::{Kind, check_expression, check_register};
use std::alloc::Global;

/// Checks the expression of an entry as a location, and stores it in `expressions`. A fault's
/// offset counts from the section's first byte.
#[inline(always)]
fn check_entry_expression(
    alloc: Global,
    block: Block<'_>,
    expressions: &mut Vec<StoredExpression>,
) -> Result<(), Fault>
    ensures answer { Answers (location_fault (Some (block_of block.entry))) result }
    ensures kept { OnOk result (KeepsMore (location_of (block_of block.entry) ∷ [])
        expressions.old.items expressions.new.items) }
    ensures inside { IfErr result (λ fault.
        fault.at ≤ block.entry.offset + length block.entry.bytes.now) }
{
    let expression = Expression::new(block.bytes, block.target);
    match check_expression(alloc, expression, Kind::Location) {
        Ok(checked) => {
            expressions.push(StoredExpression::new(block, &checked))?;
            Ok(())
        }
        Err(fault) if fault.kind == FaultKind::Memory => Err(OUT_OF_MEMORY),
        Err(fault) => Err(Fault {
            kind: fault.kind,
            at: block.offset + fault.at,
        }),
    }
}

/// Checks the entry at offset `at`, and stores its expression. `has_default` tells whether the list
/// already had a default_location.
#[inline(always)]
fn check_entry(
    alloc: Global,
    entry: &Entry<'_>,
    at: u32,
    has_default: bool,
    expressions: &mut Vec<StoredExpression>,
) -> Result<(), Fault>
    ensures answer { Answers (entry_fault has_default at (entry_of entry.now)) result }
    ensures kept { OnOk result (KeepsMore (expressions_of (entry_of entry.now ∷ []))
        expressions.old.items expressions.new.items) }
    ensures inside { IfErr result (λ fault. IsBefore at (entry_of entry.now) fault.at) }
{
    if has_default && entry.is_default() {
        return Err(Fault {
            kind: FaultKind::SecondDefault,
            at,
        });
    }
    if entry.is_back_range() {
        return Err(Fault {
            kind: FaultKind::BackRange,
            at,
        });
    }
    match entry.expression() {
        Some(block) => check_entry_expression(alloc, block, expressions),
        None => Ok(()),
    }
}

/// What `check_next` returns for an entry without a fault.
#[derive(Clone, Copy)]
struct Passed {
    /// Whether the entry ends its list.
    ended: bool,
    /// Whether the entry is a default_location.
    default: bool,
}

/// Reads the next entry, checks it, and stores its expression. `has_default` tells whether the list
/// already had a default_location.
#[inline(never)]
fn check_next(
    alloc: Global,
    cursor: &mut Cursor<'_>,
    has_default: bool,
    expressions: &mut Vec<StoredExpression>,
) -> Result<Passed, Fault>
    ensures exact { MatchResult result
        (λ passed. Passes has_default passed.ended passed.default cursor.old cursor.new
        expressions.old.items expressions.new.items)
        (λ f. (f ≡ memory) ⊎ (checked_entry_at has_default cursor.old ≡ Err f)) }
    ensures within { IsRefusedWithin cursor.old result }
    ensures goes_on { MovesForward cursor.old cursor.new }
    ensures forward { IfOk result (λ _. cursor.old.position < cursor.new.position) }
{
    let at = cursor.position();
    let entry = Entry::read(cursor)?;
    check_entry(alloc, &entry, at, has_default, expressions)?;
    Ok(Passed {
        ended: entry.is_end(),
        default: entry.is_default(),
    })
}

/// Checks an expression as a location and stores it. If the check fails or there is no memory,
/// returns false and changes nothing. Not inlined, since `keep_location` calls it only for the few
/// expressions that aren't a single register.
#[inline(never)]
fn keep_any(alloc: Global, block: Block<'_>, expressions: &mut Vec<StoredExpression>) -> bool
    ensures { MatchBool result
        ((location_fault (Some (block_of block.entry)) ≡ None)
        × KeepsMore (location_of (block_of block.entry) ∷ [])
        expressions.old.items expressions.new.items)
        (expressions.new.items ≡ expressions.old.items) }
{
    let expression = Expression::new(block.bytes, block.target);
    let Ok(checked) = check_expression(alloc, expression, Kind::Location) else {
        return false;
    };
    if expressions
        .push(StoredExpression::new(block, &checked))
        .is_err()
    {
        return false;
    }
    true
}

/// Checks an expression as a location and stores it. If the check fails or there is no memory,
/// returns false and changes nothing. Nearly all expressions are a single register: these are
/// handled here, inline, and all others by `keep_any`.
#[inline(always)]
fn keep_location(alloc: Global, block: Block<'_>, expressions: &mut Vec<StoredExpression>) -> bool
    ensures { MatchBool result
        ((location_fault (Some (block_of block.entry)) ≡ None)
        × KeepsMore (location_of (block_of block.entry) ∷ [])
        expressions.old.items expressions.new.items)
        (expressions.new.items ≡ expressions.old.items) }
{
    let expression = Expression::new(block.bytes, block.target);
    let Some(checked) = check_register(expression) else {
        return keep_any(alloc, block, expressions);
    };
    if expressions
        .push(StoredExpression::new(block, &checked))
        .is_err()
    {
        return false;
    }
    true
}

/// Reads the next entry, checks it, and stores its expression, if it is an offset_pair whose LEB128
/// numbers have at most three bytes. Returns `Some(false)`, since the entry doesn't end its list.
/// Returns `None`, and changes nothing, for any other entry, for an entry with a fault, or if there
/// is no memory.
#[inline(always)]
fn check_pair(
    alloc: Global,
    cursor: &mut Cursor<'_>,
    expressions: &mut Vec<StoredExpression>,
) -> Option<bool>
    ensures exact { MatchOption result
        ((cursor.new ≡ cursor.old) × (expressions.new.items ≡ expressions.old.items))
        (λ ended. (has_default : Bool) → Passes has_default ended false cursor.old cursor.new
        expressions.old.items expressions.new.items) }
    ensures goes_on { MovesForward cursor.old cursor.new }
    ensures forward { IfSome result (λ _. cursor.old.position < cursor.new.position) }
{
    let mut ahead = cursor.copy();
    match ahead.u8() {
        Ok(0x04) => {
            let begin = ahead.short_uleb()?;
            let end = ahead.short_uleb()?;
            let block = operands::short_block(&mut ahead)?;
            if end < begin || !keep_location(alloc, block, expressions) {
                return None;
            }
            *cursor = ahead;
            Some(false)
        }
        _ => None,
    }
}

/// Whether the next seven bytes are the most common entry: an offset_pair of two LEB128 numbers of
/// two bytes each, with a register. This test only saves time and changes no result: after the test
/// the compiler leaves out the tests that `check_pair` makes of the same bytes, and compares one
/// length in place of seven.
#[inline(always)]
fn is_usual_pair(cursor: &Cursor<'_>) -> bool {
    let mut ahead = cursor.copy();
    match ahead.take(7) {
        Ok(bytes) => {
            bytes[0] == 0x04
                && bytes[1] >= 0x80
                && bytes[2] < 0x80
                && bytes[3] >= 0x80
                && bytes[4] < 0x80
                && bytes[5] == 0x01
                && bytes[6] >= 0x50
                && bytes[6] <= 0x6f
        }
        Err(_) => false,
    }
}

/// Reads the next entry, checks it, and stores its expression, if it is a common one: an
/// end_of_list, a base_address, or an offset_pair or start_length whose LEB128 numbers have at most
/// three bytes. Returns whether the entry ends the list. Returns `None`, and changes nothing, for
/// any other entry, for an entry with a fault, or if there is no memory; the caller then calls
/// `check_next`.
#[inline(always)]
fn check_common(
    alloc: Global,
    cursor: &mut Cursor<'_>,
    expressions: &mut Vec<StoredExpression>,
) -> Option<bool>
    ensures exact { MatchOption result
        ((cursor.new ≡ cursor.old) × (expressions.new.items ≡ expressions.old.items))
        (λ ended. (has_default : Bool) → Passes has_default ended false cursor.old cursor.new
        expressions.old.items expressions.new.items) }
    ensures goes_on { MovesForward cursor.old cursor.new }
    ensures forward { IfSome result (λ _. cursor.old.position < cursor.new.position) }
{
    if is_usual_pair(cursor) {
        return check_pair(alloc, cursor, expressions);
    }
    let mut ahead = cursor.copy();
    match ahead.u8() {
        Ok(0x00) => {
            *cursor = ahead;
            Some(true)
        }
        Ok(0x04) => check_pair(alloc, cursor, expressions),
        Ok(0x06) => {
            ahead.skip_address()?;
            *cursor = ahead;
            Some(false)
        }
        Ok(0x08) => {
            ahead.skip_address()?;
            ahead.short_uleb()?;
            let block = operands::short_block(&mut ahead)?;
            if !keep_location(alloc, block, expressions) {
                return None;
            }
            *cursor = ahead;
            Some(false)
        }
        _ => None,
    }
}

/// Reads a list up to its end_of_list, and leaves the cursor after it. Each entry is checked as
/// soon as it is read, and its expression is stored. `end` is the offset of the table's end.
pub fn read_list(
    alloc: Global,
    cursor: &mut Cursor<'_>,
    end: u32,
    expressions: &mut Vec<StoredExpression>,
) -> Result<(), Fault>
    requires { end ≡ cursor.old.position + length cursor.old.rest }
    ensures exact { MatchResult result
        (λ _. (l : Loclist) × (list_at cursor.old ≡ Ok (l, cursor.new)) ×
        KeepsMore (expressions_of l.entries) expressions.old.items expressions.new.items)
        (λ f. (f ≡ memory) ⊎ (list_at cursor.old ≡ Err f)) }
    ensures within { IsRefusedWithin cursor.old result }
    ensures goes_on { MovesForward cursor.old cursor.new }
    ensures forward { IfOk result (λ _. cursor.old.position < cursor.new.position) }
{
    let mut has_default = false;
    let mut ahead = cursor.copy();
    'entries: while ahead.position() < end {
        match check_common(alloc, &mut ahead, expressions) {
            Some(ended) => {
                if ended {
                    *cursor = ahead;
                    return Ok(());
                }
                continue 'entries;
            }
            None => {}
        }
        let mut aside = ahead.copy();
        let passed = check_next(alloc, &mut aside, has_default, expressions)?;
        ahead = aside;
        if passed.ended {
            *cursor = ahead;
            return Ok(());
        }
        has_default = has_default || passed.default;
    }
    Err(Fault {
        kind: FaultKind::NoEnd,
        at: end,
    })
}
