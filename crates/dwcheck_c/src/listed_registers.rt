//! The registers of a caller in lists, for walks whose registers have no place in a cursor.

ghost use Rattle.std.specs.Prelude.{◌≡◌, [], Option, Some, option_map};
ghost use Rattle.dw_rules.specs.AbiViews.{roles_of};
ghost use Rattle.dw_unwind.specs.UnwoundViews.{caller_with};
ghost use Rattle.dw_unwind.specs.CallerViews.{answer_in};
ghost use Rattle.dw_unwind.specs.Walks.{UnwindsAt, content_of, contents_of};
ghost use Rattle.dw_c_types.specs.ProcessWalks.{looked_up_after as lookup_after, over_process, signal_at};
ghost use Rattle.dw_process.specs.Processes.{is_signal_in};

use dw_c_types::callers::caller_through;
use dw_eval::{Memory, Registers};
use dw_process::Process;
use dw_rules::Abi;
use dw_unwind::{Answer, PackedRegisters, Unwound};
use std::marker::Model;

/// The content of a register with this answer: its value, if it has one.
fn content(answer: Answer) -> Option<u64>
    ensures { result ≡ content_of (answer_in answer) }
{
    match answer {
        Answer::Value(value) => Some(value),
        _ => None,
    }
}

/// The content of a register, by a search of the list. None if the list has no value for it.
fn content_among(list: &PackedRegisters, number: u16) -> Option<u64>
    ensures { result ≡ contents_of list.now number }
{
    for index in 0..list.len() {
        let (found, answer) = list.get(index)?;
        if found == number {
            return content(answer);
        }
    }
    None
}

/// A list of registers as those of a frame: a register has a content if its answer is a value.
#[derive(Clone, Copy)]
struct Listed<'a> {
    list: &'a PackedRegisters,
}

impl<'a> Registers for Listed<'a> {
    ghost use Rattle.dw_unwind.specs.Walks.{contents_of};

    ghost contents = { λ l. contents_of l.list.now };

    fn register(&self, number: u16) -> Option<u64> {
        content_among(self.list, number)
    }
}

/// The registers of a caller. They take 8 KB: a step reads the registers in one list and writes
/// those of the next caller to the other.
#[derive(Drop)]
pub(crate) struct ListedRegisters {
    one: PackedRegisters,
    other: PackedRegisters,
    /// Whether the registers are in `other`; if not, they are in `one`.
    is_other: bool,
}

impl Model for ListedRegisters {
    ghost use Rattle.std.specs.Prelude.{ℕ, List, if◌then◌else◌};
    ghost use Rattle.dw_unwind.specs.Caller.{Answer};

    ghost Value = { List (ℕ × Answer) };

    ghost view = { λ r. if r.is_other then r.other else r.one };
}

/// Finds the caller of a frame, for which `looked_up` is looked up. None if no module has a row
/// there, or if there is no address to look up.
fn unwind<R: Registers, M: Memory>(
    process: &Process,
    abi: &Abi,
    looked_up: Option<u64>,
    registers: &R,
    memory: &M,
    into: &mut PackedRegisters,
) -> Option<Unwound>
    ensures { UnwindsAt (over_process (roles_of abi.now) (M.bytes memory.now) process.now)
        (R.contents registers.now) looked_up (option_map (caller_with into.new) result) }
{
    match looked_up {
        Some(address) => caller_through(process, abi, address, registers, memory, into),
        None => None,
    }
}

impl ListedRegisters {
    /// No registers.
    pub fn none() -> Self
        ensures { result ≡ [] }
    {
        ListedRegisters {
            one: PackedRegisters::none(),
            other: PackedRegisters::none(),
            is_other: false,
        }
    }

    /// Finds the caller of the frame with the registers `registers`, for which `looked_up` is
    /// looked up, and makes its registers those of the caller. If there is no caller, they are
    /// unspecified.
    pub fn begin<R: Registers, M: Memory>(
        &mut self,
        process: &Process,
        abi: &Abi,
        looked_up: Option<u64>,
        registers: &R,
        memory: &M,
    ) -> Option<Unwound>
        ensures { UnwindsAt (over_process (roles_of abi.now) (M.bytes memory.now) process.now)
            (R.contents registers.now) looked_up (option_map (caller_with self.new) result) }
    {
        self.is_other = false;
        unwind(process, abi, looked_up, registers, memory, &mut self.one)
    }

    /// The same for the frame that has these registers.
    pub fn advance<M: Memory>(
        &mut self,
        process: &Process,
        abi: &Abi,
        looked_up: Option<u64>,
        memory: &M,
    ) -> Option<Unwound>
        ensures { UnwindsAt (over_process (roles_of abi.now) (M.bytes memory.now) process.now)
            (contents_of self.old) looked_up (option_map (caller_with self.new) result) }
    {
        if self.is_other {
            let frame = Listed { list: &self.other };
            let unwound = unwind(process, abi, looked_up, &frame, memory, &mut self.one);
            self.is_other = false;
            unwound
        } else {
            let frame = Listed { list: &self.one };
            let unwound = unwind(process, abi, looked_up, &frame, memory, &mut self.other);
            self.is_other = true;
            unwound
        }
    }
}

/// The address that is looked up for a frame at `address`, the caller of a frame for which
/// `looked_up` was looked up.
pub(crate) fn looked_up_after(
    process: &Process,
    looked_up: Option<u64>,
    address: u64,
) -> Option<u64>
    ensures { result ≡ lookup_after (signal_at (is_signal_in process.now) looked_up) address }
{
    match looked_up {
        Some(callee) if process.is_signal_frame(callee) => Some(address),
        _ => address.checked_sub(1),
    }
}
