//! C's structs for a frame and for what is known of a CFA, a return address or a register, and the
//! conversions to them.

ghost use Rattle.std.specs.Prelude.{◌≡◌};
ghost use Rattle.dw_unwind.specs.CallerViews.{answer_in};
ghost use Rattle.dw_unwind.specs.WalkViews.{brief_in};
ghost use Rattle.dw_c_types.specs.Frames.{canswer_of, cframe_by, stop_number};

use dw_unwind::{Answer, BriefFrame, Stop};

/// A CFA, a return address or the content of a register, if it is known. `kind` says whether it is.
/// 0: no FDE covers the address that was looked up. 1: it is known, and `value` is its value. 2: it
/// is undefined. 3: computing it requires a register or memory that isn't given, or memory past the
/// greatest address. 4: computing it divides by zero. `value` is 0 unless `kind` is 1.
#[repr(C)]
#[derive(Clone, Copy, Debug)]
pub struct CAnswer {
    pub value: u64,
    pub kind: u32,
    pub reserved: u32,
}

/// A frame: its address and its canonical frame address (CFA).
#[repr(C)]
#[derive(Clone, Copy, Debug)]
pub struct CFrame {
    pub address: u64,
    pub cfa: CAnswer,
}

fn of_kind(kind: u32, value: u64) -> CAnswer
    ensures { result ≡ record { value = value; kind = kind; reserved = 0 } }
{
    CAnswer {
        value,
        kind,
        reserved: 0,
    }
}

/// Converts what is known of a CFA, a return address or a register to C's struct.
pub fn c_answer_of(answer: Answer) -> CAnswer
    ensures { result ≡ canswer_of (answer_in answer) }
{
    match answer {
        Answer::Value(value) => of_kind(1, value),
        Answer::Undefined => of_kind(2, 0),
        Answer::Unreadable => of_kind(3, 0),
        Answer::DivisionByZero => of_kind(4, 0),
    }
}

/// Converts a frame's address and CFA to C's struct. The CFA has kind 0 if no FDE covers the
/// address that was looked up for the frame.
pub fn c_frame_of(frame: BriefFrame) -> CFrame
    ensures { result ≡ cframe_by (brief_in frame) }
{
    CFrame {
        address: frame.address,
        cfa: match frame.cfa {
            Some(cfa) => c_answer_of(cfa),
            None => of_kind(0, 0),
        },
    }
}

/// The number that C gets for the reason why a walk ended. c/include/dwcheck.h defines these
/// numbers as constants whose names begin with `DWCHECK_STOP_`.
pub fn stop_code(stop: Stop) -> u32
    ensures { result ≡ stop_number stop }
{
    match stop {
        Stop::Limit => 0,
        Stop::NotCovered => 1,
        Stop::ReturnUndefined => 2,
        Stop::ReturnUnreadable => 3,
        Stop::ReturnDivisionByZero => 4,
    }
}
