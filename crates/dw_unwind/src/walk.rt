//! A walk up the stack, frame by frame.

ghost use Rattle.std.specs.Prelude.{◌≡◌, ℕ, IfOk, IfSome, MatchResult, Some, option_map};
ghost use Rattle.std.specs.Option.{IsSomeAnd};
ghost use Rattle.dw_rules.specs.AbiViews.{roles_of};
ghost use Rattle.dw_unwind.specs.Caller.{value};
ghost use Rattle.dw_unwind.specs.CallerFits.{CallerFits, ProgressFits};
ghost use Rattle.dw_unwind.specs.CallerViews.{answer_in, caller_in};
ghost use Rattle.dw_unwind.specs.UnwoundViews.{caller_with, stop_of_unwound};
ghost use Rattle.dw_unwind.specs.Walks.{IsFrameAt, UnwindsAt, address_before, first_place};
ghost use Rattle.dw_unwind.specs.Contents.{place_before};
ghost use Rattle.dw_unwind.specs.WalkSteps.{GivesNext, UnwindsFrom, about_to_give, frame_at, has_given, having_given, stop_of};
ghost use Rattle.dw_unwind.specs.WalkViews.{frame_in};

use crate::frame_registers::FrameRegisters;
use crate::frames::{BriefFrame, Frame, Stop};
use crate::unwinder::Unwinder;
use crate::unwinding::{Answer, Caller, Unwound};
use dw_eval::{Memory, Registers};
use dw_rules::Abi;
use std::marker::Model;

/// A walk up the stack, frame by frame: from the first frame, whose address, registers and memory
/// are passed, to its caller, the caller's caller and so on (DWARF 5, sections 6.4.1 and 6.4.4). It
/// unwinds with a checked section, a compiled table, or the modules of a process.
///
/// A walk allocates nothing. It contains the registers of two frames, some 12 KB: a step reads one
/// set and writes the other, and writes only the registers that a frame's rules and the ABI name.
/// Moving a `Walk` copies all 12 KB, so keep it in one variable.
///
/// Take only as many frames as you need: if the frames of a stack form a cycle, the walk never
/// ends. For that reason `backtrace` takes a limit.
///
/// ```rust
/// let mut walk = Walk::new(modules.as_slice(), &abi, address, &registers, &memory);
/// for frame in walk.by_ref().take(64) {
///     println!(rt; "{:#x}", frame.address)?;
/// }
/// if walk.stop() == Some(Stop::ReturnUndefined) {
///     println!(rt; "that is all of them")?;
/// }
/// ```
#[derive(Drop)]
pub struct Walk<'w, U: Unwinder, M: Memory> {
    unwinder: U,
    abi: &'w Abi,
    memory: &'w M,
    /// The current frame: its address, what unwinding gave for it, and whether the frame has been
    /// given.
    address: u64,
    unwound: Option<Unwound>,
    is_given: bool,
    /// Whether `other` holds the registers of the current frame's caller; if not, `one` does.
    is_other: bool,
    one: FrameRegisters,
    other: FrameRegisters,
}

impl<'w, U: Unwinder, M: Memory> Model for Walk<'w, U, M> {
    ghost use Rattle.dw_unwind.specs.WalkSteps.{WalkState};

    ghost Value = { WalkState U M };

    ghost use Rattle.dw_unwind.specs.WalkViews.{frame_with, progress_with};

    ghost view = { λ w. record {
      unwinder = w.unwinder;
      abi = w.abi.now;
      memory = w.memory.now;
      progress = progress_with w.is_given (frame_with w.address w.is_other w.one w.other w.unwound);
    } };
}

/// Finds the caller of a frame other than a walk's first frame. The frame is at `address` and has
/// the registers `registers`. Looks up `address` minus 1, which is inside the call. None if no FDE
/// covers the address looked up, or if `address` is 0.
#[inline(always)]
fn unwind_caller<U: Unwinder, R: Registers, M: Memory>(
    unwinder: &U,
    abi: &Abi,
    address: u64,
    registers: &R,
    memory: &M,
    into: &mut FrameRegisters,
) -> Option<Unwound>
    ensures unwinds { UnwindsAt (U.unwinds unwinder.now (roles_of abi.now) (M.bytes memory.now))
        (R.contents registers.now) (address_before address)
        (option_map (caller_with into.new) result) }
    ensures fits { (bound : ℕ) → U.is_bound unwinder.now bound
        → IfSome (option_map (caller_with into.new) result) (CallerFits bound) }
{
    match address.checked_sub(1) {
        Some(before) => unwinder.unwind_into(abi, before, registers, memory, into),
        None => None,
    }
}

/// The return address that unwinding a frame gave, or why a walk ends with that frame.
#[inline(always)]
pub fn return_address(unwound: Option<Unwound>) -> Result<u64, Stop>
    ensures { MatchResult result
        (λ address. IsSomeAnd unwound (λ u. answer_in u.return_address ≡ value address))
        (λ stop. stop_of_unwound unwound ≡ Some stop) }
{
    let Some(unwound) = unwound else {
        return Err(Stop::NotCovered);
    };
    match unwound.return_address {
        Answer::Value(address) => Ok(address),
        Answer::Undefined => Err(Stop::ReturnUndefined),
        Answer::Unreadable => Err(Stop::ReturnUnreadable),
        Answer::DivisionByZero => Err(Stop::ReturnDivisionByZero),
    }
}

impl<'w, U: Unwinder, M: Memory> Walk<'w, U, M> {
    /// A walk that begins at the frame at `address`, with that frame's registers, and has given no
    /// frame yet. The first frame is looked up at its own address.
    pub fn new<R: Registers>(
        unwinder: U,
        abi: &'w Abi,
        address: u64,
        registers: &R,
        memory: &'w M,
    ) -> Self
        ensures over { result.unwinder ≡ unwinder }
        ensures abi { result.abi ≡ abi.now }
        ensures memory { result.memory ≡ memory.now }
        ensures begins { result.progress ≡ about_to_give (frame_at result.progress) }
        ensures first { IsFrameAt (U.unwinds unwinder (roles_of abi.now) (M.bytes memory.now))
            (first_place address (R.contents registers.now)) (frame_at result.progress) }
        ensures fits { (bound : ℕ) → U.is_bound unwinder bound
            → IfSome (frame_at result.progress).caller (CallerFits bound) }
    {
        let mut one = FrameRegisters::none();
        let unwound = unwinder.unwind_into(abi, address, registers, memory, &mut one);
        Walk {
            unwinder,
            abi,
            memory,
            address,
            unwound,
            is_given: false,
            is_other: false,
            one,
            other: FrameRegisters::none(),
        }
    }

    /// A walk that begins at a later frame: the caller of some frame, at the return address
    /// `address`, with that caller's registers. It has given no frame yet. Its first frame is
    /// looked up at `address` minus 1, as each later one is. So a walk that was left can be taken
    /// up again.
    pub fn at_caller<R: Registers>(
        unwinder: U,
        abi: &'w Abi,
        address: u64,
        registers: &R,
        memory: &'w M,
    ) -> Self
        ensures over { result.unwinder ≡ unwinder }
        ensures abi { result.abi ≡ abi.now }
        ensures memory { result.memory ≡ memory.now }
        ensures begins { result.progress ≡ about_to_give (frame_at result.progress) }
        ensures first { IsFrameAt (U.unwinds unwinder (roles_of abi.now) (M.bytes memory.now))
            (place_before address (R.contents registers.now)) (frame_at result.progress) }
        ensures fits { (bound : ℕ) → U.is_bound unwinder bound
            → IfSome (frame_at result.progress).caller (CallerFits bound) }
    {
        let mut one = FrameRegisters::none();
        let unwound = unwind_caller(&unwinder, abi, address, registers, memory, &mut one);
        Walk {
            unwinder,
            abi,
            memory,
            address,
            unwound,
            is_given: false,
            is_other: false,
            one,
            other: FrameRegisters::none(),
        }
    }

    /// Moves to the caller of the frame that was given last. `address` is the caller's address.
    #[inline(always)]
    fn go_to(&mut self, address: u64)
        requires { self.old.progress ≡ has_given (frame_at self.old.progress) }
        ensures goes { self.new ≡ having_given (record {
          address = address;
          caller = (frame_at self.new.progress).caller;
        }) self.old }
        ensures unwinds { UnwindsFrom
            (U.unwinds self.old.unwinder (roles_of self.old.abi) (M.bytes self.old.memory))
            (frame_at self.old.progress).caller address (frame_at self.new.progress).caller }
        ensures fits { (bound : ℕ) → U.is_bound self.old.unwinder bound
            → IfSome (frame_at self.new.progress).caller (CallerFits bound) }
    {
        self.address = address;
        if self.is_other {
            self.unwound = unwind_caller(
                &self.unwinder,
                self.abi,
                address,
                &self.other,
                self.memory,
                &mut self.one,
            );
            self.is_other = false;
        } else {
            self.unwound = unwind_caller(
                &self.unwinder,
                self.abi,
                address,
                &self.one,
                self.memory,
                &mut self.other,
            );
            self.is_other = true;
        }
    }

    /// Moves to the next frame, which on the first call is the first one, and marks it as given. If
    /// there is no next frame, returns the reason and changes nothing.
    #[inline(always)]
    pub(crate) fn advance(&mut self) -> Result<(), Stop>
        ensures gives { MatchResult result
            (λ _. GivesNext (U.unwinds self.old.unwinder (roles_of self.old.abi) (M.bytes self.old.memory))
            self.old self.new)
            (λ stop. (stop_of self.old.progress ≡ Some stop) × (self.new ≡ self.old)) }
        ensures fits { IfOk result (λ _. (bound : ℕ) → U.is_bound self.old.unwinder bound
            → ProgressFits bound self.old.progress → ProgressFits bound self.new.progress) }
    {
        if !self.is_given {
            self.is_given = true;
            return Ok(());
        }
        let address = return_address(self.unwound)?;
        self.go_to(address);
        Ok(())
    }

    /// Why the frame that was given last is the last frame. None if another frame follows, or if no
    /// frame has been given yet. Never `Limit`, since a walk has no limit.
    #[inline(always)]
    pub fn stop(&self) -> Option<Stop>
        ensures { result ≡ stop_of self.now.progress }
    {
        if self.is_given {
            return_address(self.unwound).err()
        } else {
            None
        }
    }

    /// The registers of the caller of the frame that was given last: each register that has a rule,
    /// with its answer. None if the frame has no caller (see `Frame`). If no frame has been given
    /// yet, the registers of the first frame's caller.
    pub fn caller_registers(&self) -> Option<&FrameRegisters>
        ensures { option_map (λ r. r.now) result
            ≡ option_map (λ c. c.registers) (frame_at self.now.progress).caller }
    {
        match self.unwound {
            Some(_) if self.is_other => Some(&self.other),
            Some(_) => Some(&self.one),
            None => None,
        }
    }

    /// The caller of the frame that was given last. If no frame has been given yet, the caller of
    /// the first frame.
    pub fn caller(&self) -> Option<Caller>
        ensures { option_map caller_in result ≡ (frame_at self.now.progress).caller }
    {
        let (Some(unwound), Some(registers)) = (self.unwound, self.caller_registers()) else {
            return None;
        };
        Some(Caller {
            cfa: unwound.cfa,
            registers: registers.to_list(),
            return_address: unwound.return_address,
        })
    }

    /// The frame that was given last, with its caller: some 6 KB. If no frame has been given yet,
    /// the first frame.
    pub fn frame(&self) -> Frame
        ensures { frame_in result ≡ frame_at self.now.progress }
    {
        Frame {
            address: self.address,
            caller: self.caller(),
        }
    }
}

impl<'w, U: Unwinder + Drop, M: Memory> Iterator for Walk<'w, U, M> {
    type Item = BriefFrame;

    ghost use Rattle.dw_rules.specs.AbiViews.{roles_of};
    ghost use Rattle.dw_unwind.specs.WalkViews.{NextFrame};

    /// What a call of `next` gives, and how it changes the walk (`NextFrame` in WalkViews.antt).
    ghost next_gives = { λ old frame new. NextFrame
        (U.unwinds old.unwinder (roles_of old.abi) (M.bytes old.memory)) (U.is_bound old.unwinder)
        old frame new };

    /// The next frame: first the frame that the walk begins at, then each time the caller of the
    /// frame before it. When there is no next frame, the result is none, `stop` gives the reason,
    /// and each later call gives none too.
    #[inline(always)]
    fn next(&mut self) -> Option<BriefFrame> {
        match self.advance() {
            Ok(()) => Some(BriefFrame {
                address: self.address,
                cfa: match self.unwound {
                    Some(unwound) => Some(unwound.cfa),
                    None => None,
                },
            }),
            Err(_) => None,
        }
    }
}
