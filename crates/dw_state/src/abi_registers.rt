//! The callee-saved registers and the stack pointer that a state file names.

ghost use Rattle.std.specs.Prelude.{◌≡◌, [], None, Some};
ghost use Rattle.std.specs.Bool.{OnTrue};
ghost use Rattle.std.specs.Option.{is_none, option_or};
ghost use Rattle.dw_rules.specs.Abi.{abi_fault, abi_of};
ghost use Rattle.dw_rules.specs.AbiViews.{roles_of};
ghost use Rattle.dw_state.specs.StateFile.{keep, kept_with};

use arrayvec::ArrayVec;
use dw_rules::{Abi, MAX_KEPT};

/// The callee-saved registers, in the order in which they were named, and the stack pointer.
#[derive(Drop)]
pub struct AbiRegisters {
    kept: ArrayVec<u16, MAX_KEPT>,
    stack_pointer: Option<u16>,
    ghost fit: { abi_fault kept.items stack_pointer ≡ None },
}

impl AbiRegisters {
    /// No callee-saved register, and no stack pointer.
    pub fn new() -> Self
        ensures kept { result.kept.items ≡ [] }
        ensures stack_pointer { result.stack_pointer ≡ None }
    {
        AbiRegisters {
            kept: ArrayVec::new(),
            stack_pointer: None,
        }
    }

    /// Adds a callee-saved register and returns true. If the register was added before, changes
    /// nothing and returns true. Returns false if the register is the stack pointer, or if there
    /// are `MAX_KEPT` callee-saved registers already.
    pub fn keep(&mut self, number: u16) -> bool
        ensures taken { result ≡ is_none (abi_fault
            (kept_with self.old.kept.items (keep number)) self.old.stack_pointer) }
        ensures kept { OnTrue result (self.new.kept.items
            ≡ kept_with self.old.kept.items (keep number)) }
        ensures stays { self.new.stack_pointer ≡ self.old.stack_pointer }
    {
        if self.kept.as_slice().contains(&number) {
            return true;
        }
        if self.stack_pointer == Some(number) || self.kept.is_full() {
            return false;
        }
        self.kept.push(number);
        true
    }

    /// Sets the stack pointer and returns true. If a stack pointer is set already, changes nothing
    /// and returns true. Returns false if none is set yet and the register is callee-saved.
    pub fn set_stack_pointer(&mut self, number: u16) -> bool
        ensures taken { result ≡ is_none (abi_fault self.old.kept.items
            (option_or self.old.stack_pointer (Some number))) }
        ensures named { OnTrue result (self.new.stack_pointer
            ≡ option_or self.old.stack_pointer (Some number)) }
        ensures stays { self.new.kept ≡ self.old.kept }
    {
        match self.stack_pointer {
            Some(_) => true,
            None if self.kept.as_slice().contains(&number) => false,
            None => {
                self.stack_pointer = Some(number);
                true
            }
        }
    }

    /// The ABI with these callee-saved registers and this stack pointer.
    pub fn abi(&self) -> Abi
        ensures { roles_of result ≡ abi_of self.now.kept.items self.now.stack_pointer }
    {
        match Abi::new(self.kept.as_slice(), self.stack_pointer) {
            Ok(abi) => abi,
            Err(_) => unreachable!(),
        }
    }
}
