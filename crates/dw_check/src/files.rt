//! Decodes the contents of a request's files: sections, expressions and state files.

ghost use Rattle.std.specs.Prelude.{◌≡◌, not, IfOk, IfErr, Ok, Some, map, length, slice_get};
ghost use Rattle.std.specs.Cow.{cow_slice_items};
ghost use Rattle.dw_check.specs.FileViews.{with_bytes};
ghost use Rattle.dw_check.specs.Files.{is_blank, without_blanks, section_bytes, state_facts, further_modules};
ghost use Rattle.dw_state.specs.StateViews.{IsStateOf};
ghost use Rattle.dw_check.specs.Stops.{AreBadModules, IsBadSection, IsBadState};

use crate::stop::RunFault;
use dw_bytes::Target;
use dw_state::{MachineState, StateFault, read_state};
use dw_unwind::Module;
use hex::FromHexError;
use std::alloc::{AllocError, Global};
use std::borrow::CowSlice;

/// The files of a request.
#[derive(Clone, Copy)]
pub(crate) struct Files<'a> {
    /// The byte order and address size of what the files contain.
    pub target: Target,
    /// Whether sections and the expression are hex text; a state file never is.
    pub hex: bool,
    /// The contents of each file, in the order of `Request::files`.
    pub contents: &'a [Vec<u8>],
}

fn is_not_blank(byte: u8) -> bool
    ensures { result ≡ not (is_blank byte) }
{
    !matches!(byte, 9 | 10 | 13 | 32)
}

fn drop_blanks(alloc: Global, text: &[u8]) -> Result<Vec<u8>, AllocError>
    ensures { IfOk result (λ v. v.items ≡ without_blanks text.now) }
{
    let mut bytes = Vec::from_slice(alloc, text)?;
    bytes.retain(|b| is_not_blank(*b));
    Ok(bytes)
}

impl<'a> Files<'a> {
    /// The bytes of the section or expression in the file at `index`, or no bytes if there is no
    /// such file. If `self.hex` is set, the file is decoded as hex text, in which spaces, tabs, CRs
    /// and LFs are ignored. Otherwise the bytes of the file are borrowed.
    pub fn section(&self, alloc: Global, index: usize) -> Result<CowSlice<'a, u8, Global>, RunFault>
        ensures bytes { IfOk result (λ bytes.
            section_bytes self.now.hex
            (slice_get (map (λ file. file.items) self.now.contents.now) index) ≡ Some
            (cow_slice_items bytes)) }
        ensures stop { IfErr result (IsBadSection
            (section_bytes self.now.hex
            (slice_get (map (λ file. file.items) self.now.contents.now) index)) index
            (length self.now.contents.now)) }
    {
        let Some(file) = self.contents.get(index) else {
            return Ok(CowSlice::Borrowed(&[]));
        };
        if !self.hex {
            return Ok(CowSlice::Borrowed(file.as_slice()));
        }
        match hex::decode(alloc, drop_blanks(alloc, file.as_slice())?.as_slice()) {
            Ok(bytes) => Ok(CowSlice::Owned(bytes)),
            Err(FromHexError::OutOfMemory) => Err(RunFault::Memory),
            Err(_) => Err(RunFault::BadHex(index)),
        }
    }

    /// The machine state in the state file at `index`. If there is no such file, nothing is known
    /// in that state.
    pub fn state(&self, alloc: Global, index: usize) -> Result<MachineState, RunFault>
        ensures state { IfOk result (IsStateOf (state_facts self.now.target
            (slice_get (map (λ file. file.items) self.now.contents.now) index))) }
        ensures stop { IfErr result (IsBadState (state_facts self.now.target
            (slice_get (map (λ file. file.items) self.now.contents.now) index))) }
    {
        match self.contents.get(index) {
            Some(file) => match read_state(alloc, self.target, file.as_slice()) {
                Ok(state) => Ok(state),
                Err(StateFault::Line(number)) => Err(RunFault::StateLine(number)),
                Err(StateFault::Memory) => Err(RunFault::Memory),
            },
            None => Ok(MachineState::new(alloc)),
        }
    }

    /// The modules that `--module` gives, one for each load address in `loads`. The first module's
    /// frame section is in the third file, the next one's in the fourth, and so on.
    #[tactic(auto, using(crate::proofs::FurtherModules::one_more_read))]
    pub fn further_modules(
        &self,
        alloc: Global,
        loads: &[u64],
    ) -> Result<Vec<Module<CowSlice<'a, u8, Global>>>, RunFault>
        ensures modules { IfOk result (λ modules.
            further_modules self.now.hex (map (λ file. file.items) self.now.contents.now) 2
            loads.now ≡ Ok (with_bytes modules.items)) }
        ensures stop { IfErr result (AreBadModules
            (further_modules self.now.hex (map (λ file. file.items) self.now.contents.now) 2
            loads.now) (length self.now.contents.now)) }
    {
        let mut modules = Vec::new(alloc);
        for (index, load) in loads.iter().enumerate() {
            let section = self.section(alloc, index + 2)?;
            modules.push(Module::new(section, *load))?;
        }
        Ok(modules)
    }
}
