//! A part of the right to read a process.

ghost use Rattle.std.specs.Prelude.{◌≡◌, ℕ, None, Some, Option, IsSome};
ghost use denote.RawPtr.{Ptr};
ghost use Rattle.dw_process.specs.Processes.{ProcessState};
ghost use Rattle.dwcheck_c.specs.Held.{lent_if, process_coded};

use crate::right_part::Part;
use dw_process::Process;
use std::marker::{Model, Send};

/// A part of the right to read the process that a pointer leads to; nothing if there is no process.
/// It takes no bytes. It is a field of a struct to which a call writes a result, so that C lends
/// the call this right together with the room for the result, and has both back when it returns.
#[repr(C)]
#[derive(Drop)]
pub struct Right {
    pub ghost at: { Ptr },
    pub ghost process: { Option ProcessState } by { process_coded },
    pub ghost round: { ℕ },
    pub ghost count: { ℕ },
}

impl Model for Right {
    ghost also_owns = { λ h. lent_if h.at h.round h.count h.process };
}

impl Right {
    /// A right to read nothing.
    pub fn none() -> Right
        ensures { result.process ≡ None }
    {
        Right {}
    }

    /// The right that `part` is, without its pointer.
    pub fn of_part(part: Part<Process>) -> Right
        ensures { (result.at ≡ part.ptr) × (result.process ≡ Some part.value)
            × (result.round ≡ part.round) × (result.count ≡ part.count) }
    {
        let Part { ptr: _ } = part;
        Right {}
    }

    /// The part that this right is, with its pointer.
    pub fn into_part(self, at: *const u8) -> Part<Process>
        requires open { IsSome self.process }
        requires at { self.at ≡ at }
        ensures { (self.at ≡ result.ptr) × (self.process ≡ Some result.value)
            × (self.round ≡ result.round) × (self.count ≡ result.count) }
    {
        let Right {} = self;
        Part {
            ptr: at as *const Process,
        }
    }
}

unsafe impl Send for Right {}
