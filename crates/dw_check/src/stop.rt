//! Why a run stops before all of its text is written.

ghost use Rattle.std.specs.Prelude.{◌≡◌, ◌⊎◌, Option, Some};
ghost use Rattle.dw_bytes.specs.Answers.{memory};
ghost use Rattle.dw_bytes.specs.declared.fault.Fault.{Fault as FoundFault};
ghost use Rattle.dw_check.specs.Stops.{stop_of, IsRefusal};
ghost use Rattle.dw_check.specs.declared.stop.ReportFault.TheVariants as faults;
ghost use Rattle.dw_check.specs.declared.stop.RunFault.TheVariants as stops;

use crate::sink::Stopped;
use dw_bytes::{Fault, FaultKind};
use dw_sections::Section;
use std::alloc::{AllocError, AllocFailed};
use thiserror::Error;

/// Why only a part of a text was written.
#[derive(Clone, Copy, Debug, PartialEq, Eq, Error)]
pub enum ReportFault {
    /// Memory ran out.
    #[error("out of memory")]
    Memory,
    /// The sink stopped.
    #[error("cannot write")]
    Write,
}

/// Why a run ends before all of its text is written.
#[derive(Clone, Copy)]
pub(crate) enum RunFault {
    /// An input has this fault.
    Refused(Section, Fault),
    /// The file at this index must be hex text and isn't.
    BadHex(usize),
    /// The state file's line with this number, counted from 1, is malformed, contradicts earlier
    /// lines, or names one callee-saved register too many.
    StateLine(u64),
    /// Memory ran out.
    Memory,
    /// The sink stopped.
    Output,
}

impl From<AllocError> for ReportFault {
    ghost from_gives = { λ _ e. e ≡ faults.Memory };

    fn from(_: AllocError) -> Self {
        ReportFault::Memory
    }
}

impl From<Stopped> for ReportFault {
    ghost from_gives = { λ _ e. e ≡ faults.Write };

    fn from(_: Stopped) -> Self {
        ReportFault::Write
    }
}

impl From<AllocError> for RunFault {
    ghost from_gives = { λ _ e. e ≡ stops.Memory };

    fn from(_: AllocError) -> Self {
        RunFault::Memory
    }
}

impl<T: Drop> From<AllocFailed<T>> for RunFault {
    ghost from_gives = { λ _ e. e ≡ stops.Memory };

    fn from(_: AllocFailed<T>) -> Self {
        RunFault::Memory
    }
}

impl From<ReportFault> for RunFault {
    ghost from_gives = { λ fault e. e ≡ stop_of fault };

    fn from(fault: ReportFault) -> Self {
        match fault {
            ReportFault::Memory => RunFault::Memory,
            ReportFault::Write => RunFault::Output,
        }
    }
}

impl RunFault {
    /// Why a run stops if checking `section` gives `fault`: memory ran out, or the input is
    /// refused.
    pub fn of_fault(section: Section, fault: Fault) -> RunFault
        ensures { (first : Option FoundFault) → (fault ≡ memory) ⊎ (first ≡ Some fault)
            → IsRefusal section first result }
    {
        if fault.kind == FaultKind::Memory {
            RunFault::Memory
        } else {
            RunFault::Refused(section, fault)
        }
    }
}
