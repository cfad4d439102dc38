//! The context of an expression and its kind, as passed by C.

ghost use Rattle.std.specs.Prelude.{◌≡◌};
ghost use Rattle.dw_c_types.specs.Evaluated.{given_by, kind_by};

use dw_eval::Context;
use dw_stack::Kind;

/// The context of an expression: the CFA, the frame base and the object's address at a point in the
/// program. Each of them is given if its `has_` flag isn't 0.
#[repr(C)]
#[derive(Clone, Copy, Debug)]
pub struct CContext {
    pub cfa: u64,
    pub frame_base: u64,
    pub object: u64,
    pub has_cfa: u32,
    pub has_frame_base: u32,
    pub has_object: u32,
    pub reserved: u32,
}

/// `Some(number)`, or `None` if `flag` is 0.
fn given(flag: u32, number: u64) -> Option<u64>
    ensures { result ≡ given_by flag number }
{
    if flag == 0 { None } else { Some(number) }
}

/// Converts C's context to the library's `Context`.
pub fn context(c: &CContext) -> Context
    ensures cfa { result.cfa ≡ given_by c.now.has_cfa c.now.cfa }
    ensures frame_base { result.frame_base ≡ given_by c.now.has_frame_base c.now.frame_base }
    ensures object { result.object ≡ given_by c.now.has_object c.now.object }
{
    Context {
        cfa: given(c.has_cfa, c.cfa),
        frame_base: given(c.has_frame_base, c.frame_base),
        object: given(c.has_object, c.object),
    }
}

/// The kind of expression that C's `number` stands for, or `None` if the number is invalid.
pub fn kind(number: u32) -> Option<Kind>
    ensures { result ≡ kind_by number }
{
    match number {
        0 => Some(Kind::FrameCfa),
        1 => Some(Kind::FrameRegister),
        2 => Some(Kind::Location),
        _ => None,
    }
}
