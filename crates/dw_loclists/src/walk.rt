//! Goes through a list in search of the entries that hold at an address.

ghost use Rattle.std.specs.Prelude.{◌≡◌, ◌<◌, [], ◌∷◌, MatchOption};
ghost use Rattle.dw_bytes.specs.Operands.{block_of};
ghost use Rattle.dw_loclists.specs.Locations.{location_of};

use crate::entry::Entry;
use dw_bytes::{Block, Cursor};

/// The rest of a list: a cursor at the first entry not yet read, the base address there, and the
/// expression of the list's default_location if that was already read.
#[derive(Debug, Drop)]
pub struct ListWalk<'a> {
    pub cursor: Cursor<'a>,
    pub base: u64,
    pub default: Option<Block<'a>>,
}

impl<'a> ListWalk<'a> {
    ghost use Rattle.dw_loclists.specs.Walks.{default_located, IsReadable, held_ahead, default_ahead};

    /// Advances past the next entry whose range contains `address`, and returns its expression;
    /// `None` if the list has no more such entries.
    pub fn next_held(&mut self, address: u64) -> Option<Block<'a>>
        requires { IsReadable self.old }
        ensures { MatchOption result
            ((held_ahead address self.old ≡ []) ×
            (default_ahead self.old ≡ default_located self.new.default))
            (λ b.
            (held_ahead address self.old
            ≡ location_of (block_of b) ∷ held_ahead address self.new) ×
            (default_ahead self.new ≡ default_ahead self.old) × IsReadable self.new) }
    {
        'entries: loop {
            let entry = match Entry::read(&mut self.cursor) {
                Ok(entry) => entry,
                Err(_) => unreachable!(),
            };
            match entry {
                Entry::EndOfList => return None,
                Entry::BaseAddress { base } => self.base = base,
                Entry::DefaultLocation { expression } => self.default = Some(expression),
                _ => {
                    if entry.holds(self.base, address) {
                        return entry.expression();
                    }
                }
            }
        }
    }
}
