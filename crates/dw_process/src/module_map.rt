//! The modules of a process in order of address, and the module of an address.

ghost use Rattle.std.specs.Prelude.{◌≡◌, ◌<◌, ◌+◌, ◌*◌, ◌-◌, [], IfErr, IfOk, IfSome, Some, length};
ghost use Rattle.std.specs.List.{insert, remove};
ghost use Rattle.std.specs.List.Sorted.{IsNonDecreasingBy};
ghost use Rattle.std.specs.Option.{option_map};
ghost use Rattle.dw_process.specs.ModuleMaps.{AreInOrder, IsPlaceFor, IsProper, IsStartCount, IsStride, IsTaken, module_at};

use crate::address_range::AddressRange;
use crate::loaded_module::LoadedModule;
use crate::module_guesses::ModuleGuesses;
use crate::row_cache::{NO_HINT, ProcessSlot};
use std::alloc::{AllocError, Global};
use std::marker::Model;

/// The modules of a process in order of address. No address is in the ranges of two modules. The
/// first addresses of the ranges are stored a second time, in an array of their own, since a search
/// reads nothing else until it has found its module.
#[derive(Drop)]
pub(crate) struct ModuleMap {
    firsts: Vec<u64>,
    modules: Vec<LoadedModule>,
    guesses: ModuleGuesses,
}

impl Model for ModuleMap {
    ghost use Rattle.std.specs.Prelude.{◌≡◌, List, map};
    ghost use Rattle.dw_process.specs.ModuleMaps.{AreInOrder, first_of};
    ghost use Rattle.dw_process.specs.declared.loaded_module.LoadedModule.{LoadedModule};

    ghost Value = { List LoadedModule };

    ghost view = { λ m. m.modules.items };

    ghost invariant = { λ m. (m.firsts.items ≡ map first_of m.modules.items)
        × AreInOrder m.modules.items };
}

/// One step of the search: how many entries to move up from index `low`, which is zero, one, two or
/// three times `quarter`. The step adds results of comparisons instead of branching, since a branch
/// would be mispredicted about half of the time.
#[inline(always)]
fn stride(firsts: &[u64], low: usize, quarter: usize, address: u64) -> usize
    requires sorted { IsNonDecreasingBy (λ x. x) firsts.now }
    requires inside { low + 3 * quarter < length firsts.now }
    ensures { IsStride firsts.now low quarter address result }
{
    let first = usize::from(firsts[low + quarter] <= address);
    let second = usize::from(firsts[low + 2 * quarter] <= address);
    let third = usize::from(firsts[low + 3 * quarter] <= address);
    (first + second + third) * quarter
}

/// How many firsts are at or below `address`, in O(log n) steps for n firsts.
#[inline(always)]
fn count_up_to(firsts: &[u64], address: u64) -> usize
    requires { IsNonDecreasingBy (λ x. x) firsts.now }
    ensures { IsStartCount firsts.now address result }
{
    let mut low = 0;
    let mut size = firsts.len();
    while size >= 4 {
        let quarter = size / 4;
        low += stride(firsts, low, quarter, address);
        size -= 3 * quarter;
    }
    while size > 0 && firsts[low] <= address {
        low += 1;
        size -= 1;
    }
    low
}

impl ModuleMap {
    /// No modules.
    pub fn new(alloc: Global) -> Self
        ensures { result ≡ [] }
    {
        ModuleMap {
            firsts: Vec::new(alloc),
            modules: Vec::new(alloc),
            guesses: ModuleGuesses::none(),
        }
    }

    /// The modules in order of address.
    pub fn as_slice(&self) -> &[LoadedModule]
        ensures modules { result.now ≡ self.now }
        ensures order { AreInOrder self.now }
    {
        self.modules.as_slice()
    }

    /// The module whose range contains the address; none if there is no such module. This takes
    /// O(log n) steps for n modules.
    #[inline(always)]
    pub fn at(&self, address: u64) -> Option<&LoadedModule>
        ensures { option_map (λ m. m.now) result ≡ module_at self.now address }
    {
        let mut slot = ProcessSlot::new();
        self.at_near(address, &mut slot)
    }

    /// The module at index `guess`, if its range contains the address.
    #[inline(always)]
    fn at_guess(&self, guess: u32, address: u64) -> Option<&LoadedModule>
        ensures { IfSome result (λ near. Some near.now ≡ module_at self.now address) }
    {
        let guess = guess as usize;
        if guess < self.modules.len() {
            let near = &self.modules[guess];
            if near.range.first <= address && address <= near.range.last {
                return Some(near);
            }
        }
        None
    }

    /// What `at` returns, if the guess by blocks of addresses is right (`ModuleGuesses`), as it
    /// usually is; otherwise none. If there is only one module, it is the guess. Then the blocks
    /// aren't read, which would make a processor wait.
    #[inline(always)]
    pub fn guessed(&self, address: u64) -> Option<&LoadedModule>
        ensures { IfSome result (λ near. Some near.now ≡ module_at self.now address) }
    {
        if self.modules.len() == 1 {
            return self.at_guess(0, address);
        }
        self.at_guess(self.guesses.at(address), address)
    }

    /// What `at` returns. `slot` has three guesses of the module's index, and there is another one
    /// (`ModuleGuesses`). If all are wrong, a search follows. If there is a module, `slot` has its
    /// index afterwards.
    #[inline(always)]
    pub fn at_near(&self, address: u64, slot: &mut ProcessSlot) -> Option<&LoadedModule>
        ensures { option_map (λ m. m.now) result ≡ module_at self.now address }
    {
        // The last two modules that were found are tried first. A processor predicts which one is
        // right, and goes on without waiting for the hint.
        if let Some(near) = self.at_guess(slot.last_module, address) {
            slot.hint.module_index = slot.last_module;
            return Some(near);
        }
        if let Some(near) = self.at_guess(slot.module_before, address) {
            slot.go_to(slot.module_before);
            return Some(near);
        }
        if let Some(near) = self.at_guess(slot.hint.module_index, address) {
            slot.go_to(slot.hint.module_index);
            return Some(near);
        }
        let guess = self.guesses.at(address);
        if let Some(near) = self.at_guess(guess, address) {
            slot.go_to(guess);
            return Some(near);
        }
        let after = count_up_to(self.firsts.as_slice(), address);
        if after == 0 {
            return None;
        }
        let module = &self.modules[after - 1];
        if address <= module.range.last {
            slot.go_to(u32::try_from(after - 1).unwrap_or(NO_HINT));
            return Some(module);
        }
        None
    }

    /// The index at which a module with this range may be inserted. If the range shares an address
    /// with the range of a module, the error is that module's id.
    pub fn place_for(&self, range: AddressRange) -> Result<usize, u64>
        requires { IsProper range }
        ensures free { IfOk result (IsPlaceFor range self.now) }
        ensures taken { IfErr result (IsTaken range self.now) }
    {
        let place = count_up_to(self.firsts.as_slice(), range.last);
        if place > 0 {
            let before = &self.modules[place - 1];
            if before.range.last >= range.first {
                return Err(before.id);
            }
        }
        Ok(place)
    }

    /// Inserts a module at index `place`. If memory can't be allocated, the modules are unchanged.
    pub fn insert(&mut self, place: usize, added: LoadedModule) -> Result<(), AllocError>
        requires proper { IsProper added.range }
        requires place { IsPlaceFor added.range self.old place }
        ensures inserted { IfOk result (λ _. self.new ≡ insert self.old place added) }
        ensures same { IfErr result (λ _. self.new ≡ self.old) }
    {
        let range = added.range;
        if self.firsts.insert(place, range.first).is_err() {
            return Err(AllocError);
        }
        if self.modules.insert(place, added).is_err() {
            let _ = self.firsts.remove(place);
            return Err(AllocError);
        }
        self.guesses.note_inserted(place, range);
        Ok(())
    }

    /// Removes the module at index `place`.
    pub fn remove(&mut self, place: usize)
        requires { place < length self.old }
        ensures { self.new ≡ remove self.old place }
    {
        let _ = self.firsts.remove(place);
        let _ = self.modules.remove(place);
        self.guesses.note_removed(place);
    }

    /// Makes another map with the same modules, which shares their tables. None if there isn't
    /// enough memory, or if a table already has 2^63 - 1 owners.
    pub fn share(&self, alloc: Global) -> Option<ModuleMap>
        ensures { IfSome result (λ other. other ≡ self.now) }
    {
        let firsts = Vec::from_slice(alloc, self.firsts.as_slice()).ok()?;
        let mut modules = Vec::with_capacity(alloc, self.modules.len()).ok()?;
        for module in &self.modules {
            let rows = module.rows.share()?;
            let fallback = match &module.fallback {
                Some(table) => Some(table.share()?),
                None => None,
            };
            let marks = module.marks.share()?;
            let shared = LoadedModule {
                id: module.id,
                cookie: module.cookie,
                load_address: module.load_address,
                range: module.range,
                rows,
                fallback,
                marks,
            };
            modules.push(shared).ok()?;
        }
        Some(ModuleMap {
            firsts,
            modules,
            guesses: self.guesses.copy(),
        })
    }
}
