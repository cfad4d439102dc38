//! C's struct for a process, as a call sees it that only reads it.

ghost use Rattle.std.specs.Prelude.{◌≡◌, None, Some, MatchOption};
ghost use Rattle.dwcheck_c.specs.Lent.{Reads, loan_of, loan_by};

use crate::handle::CProcess;
use crate::read_right::Right;
use crate::right_part::Part;
use dw_process::Process;
use std::mem::replace;

/// A process that C passes by a pointer to const. It has the fields of `CProcess`, but owns
/// nothing: the right to read what it points to comes separately. So any number of calls may read
/// the same process at once, and none of them writes to it.
#[repr(C)]
pub struct LentProcess {
    pub(crate) at: *const u8,
    pub(crate) is_open: bool,
}

const _: () = prove!(size_of::<LentProcess>() == size_of::<CProcess>());

impl LentProcess {
    /// Takes the right to read this process out of `right`. `None`, and nothing is taken, if the
    /// process is closed.
    pub(crate) fn take(&self, right: &mut Right) -> Option<Part<Process>>
        requires { Reads right.old self.now }
        ensures { MatchOption result
            ((right.old.process ≡ None) × (loan_of right.new ≡ loan_of right.old))
            (λ p. (right.old.process ≡ Some p.value) × (loan_of right.old ≡ loan_by p)) }
    {
        if self.is_open {
            let old = replace(right, Right::none());
            Some(old.into_part(self.at))
        } else {
            None
        }
    }
}

/// Gives back what `take` took.
pub(crate) fn put(part: Part<Process>, right: &mut Right)
    ensures { loan_of right.new ≡ loan_by part }
{
    *right = Right::of_part(part);
}
