//! A compact list of the addresses at which the entries of a compiled table begin.

ghost use Rattle.std.specs.Prelude.{◌≡◌, ◌+◌, ◌<◌, ◌≤◌, [], ◌∷◌, ◌++◌, IfOk, IfSome, IsTrue, MatchResult, length, slice_index_or, ℕ};
ghost use Rattle.std.specs.Bool.{OnTrue};
ghost use Rattle.dw_tables.specs.CompiledTable.{AreAround, IsBracketed};

use std::alloc::{AllocError, Global};
use std::marker::Model;

/// A list of addresses. An address is near if it is at least `base`, and less than 2^32 above it.
/// The addresses before the first one that isn't near take four bytes each, as distances from
/// `base`. That address and all later ones take eight bytes each.
#[derive(Drop)]
pub struct Starts {
    base: u64,
    near: Vec<u32>,
    far: Vec<u64>,
}

impl Model for Starts {
    ghost use Rattle.std.specs.Prelude.{ℕ, List, ◌++◌, ◌+◌, ◌<◌, ◌^◌, length, slice_index_or};
    ghost use Rattle.dw_tables.specs.CompiledTable.{based};

    ghost Value = { List ℕ };

    ghost view = { λ s. based s.base s.near.items ++ s.far.items };

    ghost invariant = { λ s. (k d : ℕ) → k < length s.near.items → s.base + slice_index_or s.near.items k d < 2 ^ 64 };
}

/// The distance of `start` from `base`, or `None` if it doesn't fit in four bytes or `may_be_near`
/// is false.
#[inline(always)]
fn near_offset(base: u64, may_be_near: bool, start: u64) -> Option<u32>
    ensures offset { IfSome result (λ offset. base + offset ≡ start) }
    ensures near { IfSome result (λ _. IsTrue may_be_near) }
{
    if !may_be_near {
        return None;
    }
    match start.checked_sub(base) {
        Some(offset) => u32::try_from(offset).ok(),
        None => None,
    }
}

impl Starts {
    /// An empty list, with room for `count` near addresses.
    pub fn with_capacity(alloc: Global, base: u64, count: usize) -> Result<Self, AllocError>
        ensures { IfOk result (λ starts. starts ≡ []) }
    {
        Ok(Starts {
            base,
            near: Vec::with_capacity(alloc, count)?,
            far: Vec::new(alloc),
        })
    }

    /// Appends an address. If memory can't be allocated, the list is unchanged. An address that goes to
    /// `near`, where there is capacity, is appended inline here, any other in `push_any`.
    #[inline(always)]
    pub fn push(&mut self, start: u64) -> Result<(), AllocError>
        ensures { MatchResult result (λ _. self.new ≡ self.old ++ start ∷ []) (λ _. self.new ≡ self.old) }
    {
        if self.near.len() < self.near.capacity()
            && let Some(offset) = near_offset(self.base, self.far.is_empty(), start)
        {
            self.near.push_reserved(offset);
            return Ok(());
        }
        self.push_any(start)
    }

    /// What `push` does, for any address. The contract doesn't say to which list it goes: that affects
    /// only memory.
    #[inline(never)]
    fn push_any(&mut self, start: u64) -> Result<(), AllocError>
        ensures { MatchResult result (λ _. self.new ≡ self.old ++ start ∷ []) (λ _. self.new ≡ self.old) }
    {
        match near_offset(self.base, self.far.is_empty(), start) {
            Some(offset) => {
                if self.near.push(offset).is_err() {
                    return Err(AllocError);
                }
            }
            None => {
                if self.far.push(start).is_err() {
                    return Err(AllocError);
                }
            }
        }
        Ok(())
    }

    /// Removes all addresses.
    pub fn clear(&mut self)
        ensures { self.new ≡ [] }
    {
        self.near.clear();
        self.far.clear();
    }

    /// Gives back spare capacity. The contract doesn't say so: it speaks only of the elements.
    pub fn cut(&mut self)
        ensures { self.new ≡ self.old }
    {
        self.near.shrink_to_fit();
        self.far.shrink_to_fit();
    }

    /// How many addresses there are.
    #[inline(always)]
    pub fn count(&self) -> usize
        ensures { result ≡ length self.now }
    {
        self.near.len() + self.far.len()
    }

    /// The address at index `place`.
    #[inline(always)]
    pub fn at(&self, place: usize) -> u64
        requires { place < length self.now }
        ensures { (d : ℕ) → slice_index_or self.now place d ≡ result }
    {
        let near = self.near.as_slice();
        let far = self.far.as_slice();
        if place < near.len() {
            self.base + u64::from(near[place])
        } else {
            far[place - near.len()]
        }
    }

    /// Whether the address at index `count - 1` is at or below `address`, and the one at index
    /// `count` above it. False if the two aren't both near.
    #[inline(always)]
    pub fn has_between(&self, count: usize, address: u64) -> bool
        ensures { OnTrue result (IsBracketed self.now address count) }
    {
        let near = self.near.as_slice();
        if count == 0 || count >= near.len() || address < self.base {
            return false;
        }
        let offset = address - self.base;
        u64::from(near[count - 1]) <= offset && offset < u64::from(near[count])
    }

    /// The addresses at index `count - 1` and at index `count`, if `has_between` is true of them.
    #[inline(always)]
    pub fn around(&self, count: usize, address: u64) -> Option<(u64, u64)>
        ensures { IfSome result (λ found. AreAround self.now address count found.0 found.1) }
    {
        let near = self.near.as_slice();
        if count == 0 || count >= near.len() || address < self.base {
            return None;
        }
        let offset = address - self.base;
        let low = u64::from(near[count - 1]);
        let high = u64::from(near[count]);
        if low <= offset && offset < high {
            return Some((self.base + low, self.base + high));
        }
        None
    }

    /// `base`, and the distances from `base` of the addresses that are stored in four bytes. Those
    /// are the first addresses of the list.
    #[inline(always)]
    pub fn near(&self) -> (u64, &[u32])
        ensures { length (result.1).now ≤ length self.now }
    {
        (self.base, self.near.as_slice())
    }
}
