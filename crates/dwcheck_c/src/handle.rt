//! C's struct for a process, which C owns and passes to the calls.

ghost use Rattle.std.specs.Prelude.{◌≡◌, ◌↔◌, IsTrue, IsSome, None, Some, MatchOption};

use crate::modules_pointer::Held;
use dw_process::Process;
use std::alloc::Global;
use std::mem::replace;

/// A process: a pointer to its modules, and a flag that says whether it is open or closed. A closed
/// process has no modules. If all bytes of the struct are 0, the process is closed.
#[repr(C)]
pub struct CProcess {
    pub(crate) held: Held,
    is_open: bool,
    ghost tied: { IsTrue is_open ↔ IsSome held.process },
}

impl CProcess {
    ghost use Rattle.dwcheck_c.specs.Handles.{held_in};

    pub(crate) fn closed(alloc: Global) -> CProcess
        ensures { held_in result ≡ None }
    {
        CProcess {
            held: Held::none(alloc),
            is_open: false,
        }
    }

    pub(crate) fn open(process: Box<Process>) -> CProcess
        ensures { held_in result ≡ Some process.value }
    {
        CProcess {
            held: Held::of(process),
            is_open: true,
        }
    }

    fn into_box(self) -> Option<Box<Process>>
        ensures { MatchOption result (held_in self ≡ None) (λ b. held_in self ≡ Some b.value) }
    {
        let CProcess { held, is_open } = self;
        if is_open {
            Some(held.into_box())
        } else {
            drop(held);
            None
        }
    }

    /// Takes the modules out of `self`, which is closed afterwards. `None` if `self` was closed
    /// before.
    pub(crate) fn take(&mut self, alloc: Global) -> Option<Box<Process>>
        ensures taken { MatchOption result (held_in self.old ≡ None)
            (λ b. held_in self.old ≡ Some b.value) }
        ensures left { held_in self.new ≡ None }
    {
        let old = replace(self, CProcess::closed(alloc));
        old.into_box()
    }
}

impl Drop for CProcess {
    fn drop(self) {
        drop(self.into_box());
    }
}
