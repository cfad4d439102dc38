//! What a module's section says of its addresses besides their rows, which several processes share.

ghost use Rattle.std.specs.Prelude.{◌≡◌, IfSome};
ghost use Rattle.dw_eh_rows.specs.Signals.{is_signal_at};
ghost use Rattle.dw_signed_rows.specs.SignedRanges.{has_signed};
ghost use Rattle.dw_process.specs.Marks.{marks_of};

use dw_eh_rows::{SignalRange, is_signal_address};
use dw_signed_rows::SignedRanges;
use std::alloc::Global;
use std::marker::Model;
use std::sync::Arc;

/// What a section says of its addresses, as linked, besides their rows.
#[derive(Drop)]
pub struct FrameMarks {
    /// The addresses of the signal frames.
    pub signals: Vec<SignalRange>,
    /// The addresses at which return addresses are signed.
    pub signed: SignedRanges,
}

/// One of the owners that share the marks of a section. They are freed with their last owner.
#[derive(Drop)]
pub struct SharedMarks {
    marks: Arc<FrameMarks>,
}

impl Model for SharedMarks {
    ghost use Rattle.dw_process.specs.Marks.{Marks, marks_of};

    ghost Value = { Marks };

    ghost view = { λ s. marks_of s.marks.value };
}

impl SharedMarks {
    /// The first owner of these marks; none if there isn't enough memory.
    pub fn new(alloc: Global, marks: FrameMarks) -> Option<Self>
        ensures { IfSome result (λ owner. owner ≡ marks_of marks) }
    {
        match Arc::new(alloc, marks) {
            Ok(marks) => Some(SharedMarks { marks }),
            Err(_) => None,
        }
    }

    /// Makes another owner of the same marks; none if they already have 2^63 - 1 owners.
    pub fn share(&self) -> Option<Self>
        ensures { IfSome result (λ owner. owner ≡ self.now) }
    {
        match Arc::try_clone(&self.marks) {
            Ok(marks) => Some(SharedMarks { marks }),
            Err(_) => None,
        }
    }

    /// Whether an address, as linked, is one of a signal frame. O(signal frames), of which a
    /// library has at most a few.
    pub fn is_signal_frame(&self, address: u64) -> bool
        ensures { result ≡ is_signal_at self.now.signals address }
    {
        is_signal_address(self.marks.signals.as_slice(), address)
    }

    /// Whether the return address is signed at an address, as linked, in O(log n) steps for n
    /// stretches of code in which it is.
    pub fn is_signed(&self, address: u64) -> bool
        ensures { result ≡ has_signed self.now.signed address }
    {
        self.marks.signed.has(address)
    }
}
