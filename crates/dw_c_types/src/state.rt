//! The state of a stopped thread, as passed by C.

ghost use Rattle.std.specs.Prelude.{◌≡◌, ◌≤◌};
ghost use Rattle.dw_bytes.specs.declared.fault.FaultKind.{FaultKind};
ghost use Rattle.dw_rules.specs.Abi.{abi_fault, is_among};

use crate::memory::{Blocks, CBlock};
use dw_bytes::{Fault, FaultKind};
use dw_eval::Registers;
use dw_rules::{Abi, MAX_KEPT};

/// The known registers. The content of register n is `contents[n]`, if bit n % 8 of `known[n / 8]`
/// is set; otherwise the register isn't known.
#[derive(Drop)]
pub struct Contents<'a> {
    pub contents: &'a [u64],
    pub known: &'a [u8],
}

impl<'a> Contents<'a> {
    ghost use Rattle.std.specs.Prelude.{◌≡◌};
    ghost use Rattle.dw_c_types.specs.Machine.{is_known};

    fn is_known(&self, number: u16) -> bool
        ensures { result ≡ is_known self.now.known.now number }
    {
        match self.known.get(usize::from(number / 8)) {
            Some(byte) => (*byte >> (number % 8)) % 2 == 1,
            None => false,
        }
    }
}

impl<'a> Registers for Contents<'a> {
    ghost use Rattle.dw_c_types.specs.Machine.{register_in};

    ghost contents = { λ c. register_in c.contents.now c.known.now };

    fn register(&self, number: u16) -> Option<u64> {
        if self.is_known(number) {
            self.contents.get(usize::from(number)).copied()
        } else {
            None
        }
    }
}

/// The fault `AbiTwice` for a number that occurs earlier as well. `place` is its index in the list.
fn twice_at(place: usize) -> Fault
    requires { place ≤ MAX_KEPT }
    ensures { result ≡ record { kind = FaultKind.AbiTwice; at = place } }
{
    Fault {
        kind: FaultKind::AbiTwice,
        at: place as u32,
    }
}

/// Whether `number` is one of `registers`.
fn is_among(registers: &[u16], number: u16) -> bool
    ensures { result ≡ is_among number registers.now }
{
    registers.iter().any(|n| *n == number)
}

/// The fault of the ABI that has the callee-saved registers `kept` and the stack pointer
/// `stack_pointer`, if it has one: the fault with which `Abi::new` refuses it. No `Abi` is made,
/// which takes 2 KB.
fn fault_of_abi(kept: &[u16], stack_pointer: Option<u16>) -> Option<Fault>
    ensures { result ≡ abi_fault kept.now stack_pointer }
{
    if kept.len() > MAX_KEPT {
        return Some(Fault {
            kind: FaultKind::AbiTooLarge,
            at: MAX_KEPT as u32,
        });
    }
    let mut place = 0;
    while place < kept.len() {
        if is_among(&kept[..place], kept[place]) {
            return Some(twice_at(place));
        }
        place += 1;
    }
    match stack_pointer {
        Some(number) => {
            if is_among(kept, number) {
                Some(twice_at(kept.len()))
            } else {
                None
            }
        }
        None => None,
    }
}

/// The state of a stopped thread, with the callee-saved registers and the stack pointer of its ABI.
#[repr(C)]
#[derive(Drop)]
pub struct CState<'a> {
    /// The content of register n is `contents[n]`, if bit n % 8 of `known[n / 8]` is set; otherwise
    /// the register isn't known.
    pub contents: &'a [u64],
    pub known: &'a [u8],
    /// The memory that is known.
    pub blocks: &'a [CBlock<'a>],
    /// The callee-saved registers.
    pub kept: &'a [u16],
    /// The number of the stack pointer register, if `has_stack_pointer` isn't 0. If a row gives
    /// this register no rule, its content in the caller is the CFA.
    pub stack_pointer: u16,
    pub has_stack_pointer: u16,
    pub reserved: u32,
    /// The bits of a signed return address that have its signature. They are taken off only where
    /// the module says that the return address is signed.
    pub signed_bits: u64,
}

impl<'a> CState<'a> {
    ghost use Rattle.std.specs.Prelude.{◌≡◌, None};
    ghost use Rattle.dw_rules.specs.AbiViews.{roles_of};
    ghost use Rattle.dw_c_types.specs.Machine.{abi_fault_of, abi_in, registers_of, memory_of, pointer_of, register_in, byte_in};

    /// The known registers.
    pub fn registers(&self) -> Contents<'a>
        ensures { register_in result.contents.now result.known.now ≡ registers_of self.now }
    {
        Contents {
            contents: self.contents,
            known: self.known,
        }
    }

    /// The known memory.
    #[inline(always)]
    pub fn memory(&self) -> Blocks<'a, 'a>
        ensures { byte_in result ≡ memory_of self.now }
    {
        Blocks::new(self.blocks)
    }

    /// The number of the stack pointer register; none if it has none.
    pub fn pointer(&self) -> Option<u16>
        ensures { result ≡ pointer_of self.now }
    {
        if self.has_stack_pointer == 0 {
            None
        } else {
            Some(self.stack_pointer)
        }
    }

    /// The fault of the ABI, if it has one.
    pub fn abi_fault(&self) -> Option<Fault>
        ensures { result ≡ abi_fault_of self.now }
    {
        fault_of_abi(self.kept, self.pointer())
    }

    /// Makes `abi` the ABI of this state. This function isn't inlined: an ABI takes 2 KB, and the
    /// copies from which it is made take no more stack once this returns.
    #[inline(never)]
    pub fn set_abi(&self, abi: &mut Abi)
        requires { abi_fault_of self.now ≡ None }
        ensures { roles_of abi.new ≡ abi_in self.now }
    {
        match Abi::new(self.kept, self.pointer()) {
            Ok(made) => *abi = made,
            Err(_) => unreachable!(),
        }
    }
}
