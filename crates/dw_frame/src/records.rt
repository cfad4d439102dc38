//! `Entries`: an iterator over the records of a section.

ghost use Rattle.std.specs.Prelude.{◌≡◌, ◌<◌, ◌^◌, length};
ghost use Rattle.std.specs.Iterator.{YieldsFirstBy, item_count};
ghost use Rattle.dw_frame.specs.Sections.{records_of};
ghost use Rattle.dw_frame.specs.Views.{entry_of};

use crate::entry::Entry;
use crate::sections::entry;
use dw_bytes::{Fault, Target};
use std::iter::FusedIterator;
use std::marker::Model;

/// The records of a section in order, up to the section's end or the first fault. Nothing comes
/// after a fault. In contracts, the value of an iterator is the list of the items that it has yet
/// to give.
///
/// ```rust
/// for entry in entries(section, target) {
///     match entry? {
///         Entry::Cie(cie) => println!(rt; "return address in {}", cie.return_address_register)?,
///         Entry::Fde(fde) => {
///             println!(rt; "{:#x}, {:#x} bytes", fde.initial_location, fde.address_range)?;
///             for instruction in fde.program.instructions() {
///                 let (offset, instruction) = instruction?;
///                 println!(rt; "{offset:#x}: {instruction:?}")?;
///             }
///         }
///     }
/// }
/// ```
#[derive(Debug, Drop)]
pub struct Entries<'a> {
    section: &'a [u8],
    target: Target,
    at: u32,
}

impl<'a> Model for Entries<'a> {
    ghost use Rattle.std.specs.Prelude.{List, Result, ◌≤◌, ◌<◌, ◌^◌, length};
    ghost use Rattle.dw_bytes.specs.declared.fault.Fault.{Fault};
    ghost use Rattle.dw_frame.specs.Records.{Record};

    ghost Value = { List (Result Record Fault) };

    ghost use Rattle.dw_frame.specs.Sections.{records_from};

    ghost view = { λ it. records_from it.target it.section.now it.at };

    ghost invariant = { λ it. (it.at ≤ length it.section.now) × (length it.section.now < 2 ^ 32) };
}

impl<'a> Entries<'a> {
    /// An iterator that begins at the first byte of a section of fewer than 2^32 bytes.
    pub(crate) fn new(section: &'a [u8], target: Target) -> Self
        requires { length section.now < 2 ^ 32 }
        ensures { result ≡ records_of target section.now }
    {
        Entries {
            section,
            target,
            at: 0,
        }
    }
}

impl<'a> Iterator for Entries<'a> {
    type Item = Result<Entry<'a>, Fault>;

    ghost next_gives = { YieldsFirstBy entry_of (λ rest. rest) };

    ghost remaining = { item_count (λ rest. rest) };

    fn next(&mut self) -> Option<Result<Entry<'a>, Fault>> {
        let end = self.section.len() as u32;
        if self.at == end {
            return None;
        }
        match entry(self.section, self.target, self.at) {
            Ok((entry, next)) => {
                self.at = next;
                Some(Ok(entry))
            }
            Err(fault) => {
                self.at = end;
                Some(Err(fault))
            }
        }
    }
}

impl<'a> FusedIterator for Entries<'a> {}
