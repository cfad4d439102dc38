//! Encoded pointers (LSB Core, section 10.5.1).

ghost use Rattle.std.specs.Prelude.{◌≡◌, ◌+◌, ◌<◌, ◌≤◌, IfOk, None};
ghost use Rattle.dw_bytes.specs.Reading.{MovesForward};
ghost use Rattle.dw_bytes.specs.Readers.{IsRefusedWithin, ParsesBy};
ghost use Rattle.dw_bytes.specs.Encoding.{max_address};
ghost use Rattle.dw_eh_frame.specs.Pointers.{base_at, encoding_of, format_of, number_at, padding_at, pointer_at, range_at, sign_extended, with_base, wrapped};

use dw_bytes::{AddressSize, Cursor, Fault, FaultKind, Target};

/// How the number of an encoded pointer is written.
#[derive(Clone, Copy, Debug, PartialEq, Eq)]
pub enum PointerFormat {
    /// As an address of the target.
    Address,
    /// As unsigned LEB128.
    Uleb,
    /// Unsigned, in two bytes.
    U16,
    /// Unsigned, in four bytes.
    U32,
    /// Unsigned, in eight bytes.
    U64,
    /// As signed LEB128.
    Sleb,
    /// Signed, in two bytes.
    I16,
    /// Signed, in four bytes.
    I32,
    /// Signed, in eight bytes.
    I64,
}

/// What the number of an encoded pointer is relative to.
#[derive(Clone, Copy, Debug, PartialEq, Eq)]
pub enum PointerBase {
    /// Nothing: the number is the address.
    Absolute,
    /// The address of the pointer.
    Place,
    /// The address of text, `Bases::text_start`.
    Text,
    /// The address of data, `Bases::data_start`.
    Data,
    /// Nothing. The number is at the next address that is a multiple of an address's size.
    Aligned,
}

/// The addresses, as linked, that encoded pointers may be relative to.
#[derive(Clone, Copy)]
pub struct Bases {
    /// The address of the `.eh_frame` section.
    pub section: u64,
    /// The address of the text section, if it is known.
    pub text_start: Option<u64>,
    /// What data is relative to, as the address of a global offset table, if it is known.
    pub data_start: Option<u64>,
}

impl Bases {
    /// Only the address of the `.eh_frame` section is known.
    pub fn of_section(section: u64) -> Self
        ensures { result ≡ record { section = section; text_start = None; data_start = None } }
    {
        Bases {
            section,
            text_start: None,
            data_start: None,
        }
    }
}

/// An encoding of pointers.
#[derive(Clone, Copy, Debug, PartialEq, Eq)]
pub struct PointerEncoding {
    /// How the number is written.
    pub format: PointerFormat,
    /// What it is relative to.
    pub base: PointerBase,
}

fn format_by(code: u8) -> Option<PointerFormat>
    ensures { result ≡ format_of code }
{
    match code {
        0x00 => Some(PointerFormat::Address),
        0x01 => Some(PointerFormat::Uleb),
        0x02 => Some(PointerFormat::U16),
        0x03 => Some(PointerFormat::U32),
        0x04 => Some(PointerFormat::U64),
        0x09 => Some(PointerFormat::Sleb),
        0x0a => Some(PointerFormat::I16),
        0x0b => Some(PointerFormat::I32),
        0x0c => Some(PointerFormat::I64),
        _ => None,
    }
}

/// An encoding with this base, and the format that the low four bits of the byte stand for.
fn based(base: PointerBase, code: u8) -> Option<PointerEncoding>
    ensures { result ≡ with_base base (format_of code) }
{
    match format_by(code) {
        Some(format) => Some(PointerEncoding { format, base }),
        None => None,
    }
}

/// The encoding that a byte stands for, if it is one that an FDE's addresses may have.
pub(crate) fn encoding_by(code: u8) -> Option<PointerEncoding>
    ensures { result ≡ encoding_of code }
{
    match code {
        0x00..=0x0f => based(PointerBase::Absolute, code),
        0x10..=0x1f => based(PointerBase::Place, code - 0x10),
        0x20..=0x2f => based(PointerBase::Text, code - 0x20),
        0x30..=0x3f => based(PointerBase::Data, code - 0x30),
        0x50 => Some(PointerEncoding {
            format: PointerFormat::Address,
            base: PointerBase::Aligned,
        }),
        _ => None,
    }
}

/// What a pointer at an offset of the section is relative to, if it is known.
#[inline(always)]
fn base_of(bases: Bases, base: PointerBase, at: u32) -> Option<u64>
    ensures value { result ≡ base_at bases base at }
{
    match base {
        PointerBase::Absolute | PointerBase::Aligned => Some(0),
        PointerBase::Place => Some(bases.section.wrapping_add(u64::from(at))),
        PointerBase::Text => bases.text_start,
        PointerBase::Data => bases.data_start,
    }
}

/// The number of bytes between an offset of the section and the number of a pointer there.
#[inline(always)]
fn padding(bases: Bases, target: Target, base: PointerBase, at: u32) -> u64
    ensures { result ≡ padding_at bases target base at }
{
    match base {
        PointerBase::Aligned => {
            let size = u64::from(target.address_size.bytes());
            let remainder = (bases.section % size + u64::from(at) % size) % size;
            (size - remainder) % size
        }
        _ => 0,
    }
}

#[inline(always)]
fn extended_u16(number: u16) -> u64
    ensures { result ≡ sign_extended 2 number }
{
    if number < 0x8000 {
        u64::from(number)
    } else {
        u64::from(number) + 0xffff_ffff_ffff_0000
    }
}

#[inline(always)]
fn extended_u32(number: u32) -> u64
    ensures { result ≡ sign_extended 4 number }
{
    if number < 0x8000_0000 {
        u64::from(number)
    } else {
        u64::from(number) + 0xffff_ffff_0000_0000
    }
}

/// The number that a pointer holds, as a number of 64 bits.
#[inline(always)]
fn read_number(cursor: &mut Cursor<'_>, format: PointerFormat) -> Result<u64, Fault>
    ensures exact { ParsesBy (λ number. number) (number_at format) cursor.old result cursor.new }
    ensures within { IsRefusedWithin cursor.old result }
    ensures goes_on { MovesForward cursor.old cursor.new }
{
    match format {
        PointerFormat::Address => cursor.address(),
        PointerFormat::Uleb => cursor.uleb(),
        PointerFormat::U16 => Ok(u64::from(cursor.u16()?)),
        PointerFormat::U32 => Ok(u64::from(cursor.u32()?)),
        PointerFormat::U64 => cursor.u64(),
        PointerFormat::Sleb => Ok(cursor.sleb()?.cast_unsigned()),
        PointerFormat::I16 => Ok(extended_u16(cursor.u16()?)),
        PointerFormat::I32 => Ok(extended_u32(cursor.u32()?)),
        PointerFormat::I64 => cursor.u64(),
    }
}

/// A sum of two numbers of 64 bits, as an address.
#[inline(always)]
fn wrapped_sum(target: Target, base: u64, number: u64) -> u64
    ensures value { result ≡ wrapped target (base + number) }
    ensures small { result ≤ max_address target.address_size }
{
    let sum = base.wrapping_add(number);
    match target.address_size {
        AddressSize::Four => sum % 0x1_0000_0000,
        AddressSize::Eight => sum,
    }
}

/// An encoded address.
#[inline(always)]
#[tactic(auto, unfolding(crate::specs::Pointers::pointer_at))]
pub(crate) fn read_pointer(
    cursor: &mut Cursor<'_>,
    bases: Bases,
    encoding: PointerEncoding,
) -> Result<u64, Fault>
    ensures exact { ParsesBy (λ number. number) (pointer_at bases encoding) cursor.old result cursor.new }
    ensures small { IfOk result (λ number. number ≤ max_address cursor.old.target.address_size) }
    ensures within { IsRefusedWithin cursor.old result }
    ensures goes_on { MovesForward cursor.old cursor.new }
{
    let target = cursor.target();
    let at = cursor.position();
    let Some(base) = base_of(bases, encoding.base, at) else {
        return Err(Fault {
            kind: FaultKind::Augmentation,
            at,
        });
    };
    cursor.take(padding(bases, target, encoding.base, at))?;
    let number = read_number(cursor, encoding.format)?;
    Ok(wrapped_sum(target, base, number))
}

/// The number of addresses of an FDE whose first address is `initial`.
#[inline(always)]
#[tactic(auto, unfolding(crate::specs::Pointers::range_at))]
pub(crate) fn read_range(
    cursor: &mut Cursor<'_>,
    format: PointerFormat,
    initial: u64,
) -> Result<u64, Fault>
    ensures exact { ParsesBy (λ number. number) (range_at format initial) cursor.old result cursor.new }
    ensures small { IfOk result (λ number. initial + number ≤ max_address cursor.old.target.address_size) }
    ensures within { IsRefusedWithin cursor.old result }
    ensures goes_on { MovesForward cursor.old cursor.new }
{
    let top = cursor.target().address_size.max_address();
    let at = cursor.position();
    let number = read_number(cursor, format)?;
    match initial.checked_add(number) {
        Some(end) if end <= top && number < 0x8000_0000_0000_0000 => Ok(number),
        _ => Err(Fault {
            kind: FaultKind::RangePastTop,
            at,
        }),
    }
}
