//! Splits bytes at separators.

ghost use Rattle.std.specs.Prelude.{◌≡◌};
ghost use Rattle.std.specs.Iterator.{YieldsFirstBy, item_count};
ghost use Rattle.dw_state.specs.Parts.{parts_of};

use memchr::memchr;
use std::iter::FusedIterator;
use std::marker::Model;

/// Iterates over the parts of a byte string between separators, including empty parts. In contracts
/// the iterator stands for the list of the parts that it has not given yet.
#[derive(Drop)]
pub struct Parts<'a> {
    separator: u8,
    /// The bytes after the last separator that was found, or `None` once all parts were given.
    rest: Option<&'a [u8]>,
}

impl<'a> Model for Parts<'a> {
    ghost use Rattle.std.specs.Prelude.{ℕ, List, option_map};
    ghost use Rattle.dw_state.specs.Parts.{parts_left};

    ghost Value = { List (List ℕ) };

    ghost view = { λ p. parts_left p.separator (option_map (λ rest. rest.now) p.rest) };
}

impl<'a> Parts<'a> {
    /// An iterator over the parts of `bytes`.
    pub fn new(bytes: &'a [u8], separator: u8) -> Self
        ensures { result ≡ parts_of separator bytes.entry.now }
    {
        Parts {
            separator,
            rest: Some(bytes),
        }
    }
}

impl<'a> Iterator for Parts<'a> {
    type Item = &'a [u8];

    ghost next_gives = { YieldsFirstBy (λ part. part.now) (λ rest. rest) };

    ghost remaining = { item_count (λ rest. rest) };

    fn next(&mut self) -> Option<&'a [u8]> {
        let rest = self.rest?;
        match memchr(self.separator, rest) {
            Some(at) => {
                self.rest = Some(&rest[at + 1..]);
                Some(&rest[..at])
            }
            None => {
                self.rest = None;
                Some(rest)
            }
        }
    }
}

impl<'a> FusedIterator for Parts<'a> {}
