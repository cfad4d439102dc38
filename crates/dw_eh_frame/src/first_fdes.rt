//! Which FDE is the first that covers addresses from an address on.

ghost use Rattle.std.specs.Prelude.{◌≡◌, ℕ, None, OnOk};
ghost use Rattle.std.specs.BTreeMap.{is_at};
ghost use Rattle.std.specs.Map.{lookup};
ghost use Rattle.std.specs.Ordering.{nat_cmp};
ghost use Rattle.dw_frame.specs.Bounds.{Ascends};
ghost use Rattle.dw_eh_frame.specs.FirstFdes.{added, first_in, listed, place_address};

use std::alloc::{AllocError, Global};
use std::collections::BTreeMap;
use std::marker::Model;

/// The first address of an FDE, and the FDE's index in a list.
#[derive(Clone, Copy)]
pub struct FdePlace {
    pub address: u64,
    pub index: u32,
}

/// For each address at which an FDE begins, the index of the first FDE that does. Linkers write
/// most FDEs in order of address. Those that begin above all earlier ones are in a list, where they
/// take no search. The others are in a tree.
#[derive(Drop)]
pub(crate) struct FirstFdes {
    ascending: Vec<FdePlace>,
    /// No address in `ascending` is greater.
    greatest: u64,
    others: BTreeMap<u64, u32>,
    /// No address in `others` is greater.
    greatest_other: u64,
}

impl Model for FirstFdes {
    ghost use Rattle.std.specs.Prelude.{◌≡◌, ◌≤◌, Contains, ℕ, Some};
    ghost use Rattle.std.specs.BTreeMap.{get};
    ghost use Rattle.std.specs.Ordering.{nat_cmp};
    ghost use Rattle.dw_frame.specs.Bounds.{Ascends};
    ghost use Rattle.dw_eh_frame.specs.FirstFdes.{Firsts, place_address};
    ghost use Rattle.dw_eh_frame.specs.declared.first_fdes.FdePlace.{FdePlace};

    ghost Value = { Firsts };

    ghost view = { λ f. record { places = f.ascending.items; others = f.others.entries } };

    ghost invariant = { λ f. Ascends place_address f.ascending.items
        × ((q : FdePlace) → Contains f.ascending.items q → q.address ≤ f.greatest)
        × ((a n : ℕ) → get nat_cmp f.others a ≡ Some n → a ≤ f.greatest_other) };
}

/// The index in the place with this address. The places must be in order of address.
fn index_at(places: &[FdePlace], address: u64) -> Option<u32>
    requires { Ascends place_address places.now }
    ensures { result ≡ listed places.now address }
{
    match places.binary_search_by_key(&address, |place| place.address) {
        Ok(index) => Some(places[index].index),
        Err(_) => None,
    }
}

impl FirstFdes {
    /// No FDE begins anywhere.
    pub(crate) fn new(alloc: Global) -> Self
        ensures { (a : ℕ) → first_in result a ≡ None }
    {
        FirstFdes {
            ascending: Vec::new(alloc),
            greatest: 0,
            others: BTreeMap::new(alloc),
            greatest_other: 0,
        }
    }

    fn listed(&self, address: u64) -> Option<u32>
        ensures { result ≡ listed self.now.places address }
    {
        if address <= self.greatest {
            index_at(&self.ascending, address)
        } else {
            None
        }
    }

    fn other(&self, address: u64) -> Option<u32>
        ensures { result ≡ lookup (is_at (nat_cmp address)) self.now.others }
    {
        if address <= self.greatest_other {
            self.others.get(&address).copied()
        } else {
            None
        }
    }

    /// The index of the first FDE that begins at `address`.
    pub(crate) fn get(&self, address: u64) -> Option<u32>
        ensures { result ≡ first_in self.now address }
    {
        match self.listed(address) {
            Some(index) => Some(index),
            None => self.other(address),
        }
    }

    /// Adds an FDE that begins at `address` and has this index, unless an earlier one begins there.
    pub(crate) fn add(&mut self, address: u64, index: u32) -> Result<(), AllocError>
        ensures { OnOk result ((a : ℕ) → first_in self.new a
            ≡ added (first_in self.old a) address index a) }
    {
        if self.get(address).is_some() {
            return Ok(());
        }
        if address > self.greatest {
            self.ascending.push(FdePlace { address, index })?;
            self.greatest = address;
        } else {
            self.greatest_other = self.greatest_other.max(address);
            self.others.insert(address, index)?;
        }
        Ok(())
    }
}
