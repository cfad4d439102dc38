//! Whether the return address is signed, while a program runs.

ghost use Rattle.std.specs.Prelude.{◌≡◌, ◌<◌, List, [], ◌∷◌, length};
ghost use Rattle.dw_frame.specs.Instructions.{Instruction, remember_state};
ghost use Rattle.dw_frame.specs.Records.{Cie};
ghost use Rattle.dw_frame.specs.Views.{instruction_of};
ghost use Rattle.dw_rules.specs.declared.remember_stack.TheConstants.{MAX_REMEMBERED};
ghost use Rattle.dw_signed_rows.specs.Signatures.{IsAfter};

use arrayvec::ArrayVec;
use dw_frame::CallFrameInstruction;
use dw_rules::MAX_REMEMBERED;
use std::marker::Model;

/// Whether the return address is signed, while a program runs, and what remember_states have saved.
#[derive(Drop)]
pub struct Signature {
    first: bool,
    is_signed: bool,
    remembered: ArrayVec<bool, MAX_REMEMBERED>,
}

impl Model for Signature {
    ghost use Rattle.std.specs.Prelude.{reverse};
    ghost use Rattle.dw_signed_rows.specs.Signatures.{SignatureState};

    ghost Value = { SignatureState };

    ghost view = { λ s. record {
      first = s.first;
      is_signed = s.is_signed;
      remembered = reverse s.remembered.items;
    } };
}

impl Signature {
    /// The beginning of a program. `first` says whether the return address is signed there.
    pub fn new(first: bool) -> Self
        ensures first { result.first ≡ first }
        ensures after { (cie : Cie) → IsAfter cie [] result }
    {
        Signature {
            first,
            is_signed: first,
            remembered: ArrayVec::new(),
        }
    }

    /// Whether the return address is signed now.
    #[inline(always)]
    pub fn is_signed(&self) -> bool
        ensures { result ≡ self.now.is_signed }
    {
        self.is_signed
    }

    /// Runs an instruction.
    pub fn run(&mut self, instruction: CallFrameInstruction<'_>)
        requires { instruction_of instruction ≡ remember_state
            → length self.old.remembered < MAX_REMEMBERED }
        ensures first { self.new.first ≡ self.old.first }
        ensures after { (cie : Cie) (before : List Instruction) → IsAfter cie before self.old
            → IsAfter cie (instruction_of instruction.entry ∷ before) self.new }
    {
        match instruction {
            CallFrameInstruction::NegateRaState => self.is_signed = !self.is_signed,
            CallFrameInstruction::RememberState => self.remembered.push(self.is_signed),
            CallFrameInstruction::RestoreState => {
                self.is_signed = self.remembered.pop().unwrap_or(self.first);
            }
            _ => {}
        }
    }
}
