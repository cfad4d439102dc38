//! The pointer to the modules of a process, which is a field of C's struct for a process.

ghost use Rattle.std.specs.Prelude.{◌≡◌, None, Some, Option, IsSome};
ghost use Rattle.dw_process.specs.Processes.{ProcessState};
ghost use Rattle.dwcheck_c.specs.Held.{held_if, process_coded};

mod parts;

use dw_process::Process;
use parts::Parts;
use std::alloc::Global;
use std::marker::{Model, Send};
use std::ptr::null_mut;

/// A `Box<Process>`, or a null pointer if there is no process. C doesn't know the type `Process`,
/// so the pointer is stored without its type.
#[repr(C)]
#[derive(Drop)]
pub struct Held {
    at: *mut u8,
    alloc: Global,
    pub ghost process: { Option ProcessState } by { process_coded },
}

impl Model for Held {
    ghost also_owns = { λ h. held_if h.alloc h.at h.process };
}

impl Held {
    /// A null pointer: there is no process.
    pub fn none(alloc: Global) -> Held
        ensures { result.process ≡ None }
    {
        Held {
            at: null_mut(),
            alloc,
        }
    }

    /// Takes ownership of `process`.
    pub fn of(process: Box<Process>) -> Held
        ensures { result.process ≡ Some process.value }
    {
        Held::of_parts(Parts::of(process))
    }

    /// Gives back the box that was passed to `of`.
    pub fn into_box(self) -> Box<Process>
        requires { IsSome self.process }
        ensures { self.process ≡ Some result.value }
    {
        self.into_parts().into_box()
    }

    fn of_parts(parts: Parts<Process, Global>) -> Held
        ensures { result.process ≡ Some parts.value }
    {
        let Parts { ptr, alloc } = parts;
        Held {
            at: ptr as *mut u8,
            alloc,
        }
    }

    fn into_parts(self) -> Parts<Process, Global>
        requires { IsSome self.process }
        ensures { self.process ≡ Some result.value }
    {
        let Held { at, alloc } = self;
        Parts {
            ptr: at as *mut Process,
            alloc,
        }
    }
}

unsafe impl Send for Held {}
