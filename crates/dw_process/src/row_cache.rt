//! Where a process may have the row of an address: in one of the last two modules that were found,
//! or where a hint says.

ghost use Rattle.std.specs.Prelude.{◌≡◌, ◌<◌, replicate};
ghost use Rattle.dw_process.specs.RowCaches.{hint_at, no_hint, place_of as its_place};

/// Says nothing: only a process with 2^32 modules or more has a module with this index.
pub(crate) const NO_HINT: u32 = u32::MAX;

/// Where a process may have the row of an address: the index of a module, and how many entries of
/// the module's table begin at or below the address. A look-up checks both, so any numbers are a
/// hint: a wrong one costs time, and changes no answer.
#[repr(C)]
#[derive(Clone, Copy, Drop)]
pub struct RowHint {
    pub(crate) module_index: u32,
    pub(crate) entry_count: u32,
}

impl RowHint {
    /// A hint that says nothing.
    #[inline(always)]
    pub fn none() -> Self
        ensures { result ≡ no_hint }
    {
        RowHint {
            module_index: NO_HINT,
            entry_count: NO_HINT,
        }
    }
}

/// Where a look-up in a process begins: in the module that the last look-up found, then in the last
/// other module that was found, and then where a hint says. The caller of a frame is often in one
/// of these two modules, which then needs no search. Any slot will do, as any hint will.
#[derive(Clone, Copy, Drop)]
pub struct ProcessSlot {
    pub(crate) last_module: u32,
    pub(crate) module_before: u32,
    /// A hint for the next look-up. If that finds a row, the hint says afterwards where.
    pub hint: RowHint,
}

impl ProcessSlot {
    /// A slot that no look-up has used.
    #[inline(always)]
    pub fn new() -> Self
        ensures { result.hint ≡ no_hint }
    {
        ProcessSlot {
            last_module: NO_HINT,
            module_before: NO_HINT,
            hint: RowHint::none(),
        }
    }

    /// Takes note that a look-up has found a module that isn't the last one.
    #[inline(always)]
    pub(crate) fn go_to(&mut self, index: u32) {
        self.module_before = self.last_module;
        self.last_module = index;
        self.hint.module_index = index;
    }
}

/// Where a walk gets its hints, and where it leaves them for the next walk.
pub trait RowHints {
    ghost use Rattle.std.specs.Prelude.{ℕ};
    ghost use Rattle.dw_process.specs.declared.row_cache.RowHint.{RowHint as Hint};

    /// The hint for an address.
    ghost hint_for: { Self → ℕ → Hint };

    /// A hint for the row of an address.
    fn hint(&self, address: u64) -> RowHint
        ensures { result ≡ hint_for self.now address };

    /// Stores the hint for an address.
    fn set_hint(&mut self, address: u64, hint: RowHint);
}

/// No hints: each row is searched for.
#[derive(Drop)]
pub struct NoHints;

impl RowHints for NoHints {
    ghost use Rattle.dw_process.specs.RowCaches.{no_hint};

    ghost hint_for = { λ _ address. no_hint };

    #[inline(always)]
    fn hint(&self, _address: u64) -> RowHint {
        RowHint::none()
    }

    #[inline(always)]
    fn set_hint(&mut self, _address: u64, _hint: RowHint) {}
}

/// How many hints a cache has.
const HINTS: usize = 512;

/// By how many bits a product is shifted to the right to give a number below `HINTS`.
const SHIFT: u32 = 55;

/// About 2^64 divided by the golden ratio. The products of addresses with this number are spread
/// well over their highest bits.
pub(crate) const MULTIPLIER: u64 = 0x9e37_79b9_7f4a_7c15;

/// Up to 512 hints, each at a place that its address determines; if two addresses share a place,
/// the later one has it. A cache is plain data: any bytes are valid, and a new one is all zeros.
/// Nothing has to be done when its process changes or another process is walked. Each thread has
/// its own.
#[repr(C)]
#[derive(Drop)]
pub struct RowCache {
    hints: [RowHint; HINTS],
}

const _: () = prove!(size_of::<RowCache>() == 4096);

/// The index of the hint for an address.
#[inline(always)]
fn place_of(address: u64) -> usize
    ensures place { result ≡ its_place address }
    ensures inside { result < HINTS }
{
    (address.wrapping_mul(MULTIPLIER) >> SHIFT) as usize
}

impl RowCache {
    /// A cache for a thread that has looked up nothing yet.
    pub fn new() -> Self
        ensures { result.hints ≡ replicate HINTS (record { module_index = 0; entry_count = 0 }) }
    {
        RowCache {
            hints: [RowHint {
                module_index: 0,
                entry_count: 0,
            }; HINTS],
        }
    }
}

impl RowHints for RowCache {
    ghost use Rattle.dw_process.specs.RowCaches.{hint_at};

    ghost hint_for = { hint_at };

    #[inline(always)]
    fn hint(&self, address: u64) -> RowHint {
        self.hints[place_of(address)]
    }

    #[inline(always)]
    fn set_hint(&mut self, address: u64, hint: RowHint)
        ensures { hint_at self.new address ≡ hint }
    {
        self.hints[place_of(address)] = hint;
    }
}
