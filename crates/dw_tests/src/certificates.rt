//! Certificates of expressions. A certificate has the state (the stack height and the like) before
//! each operation; `recheck` is passed these states.

ghost use Rattle.std.specs.Prelude.{◌<◌, ◌^◌, length};

use crate::inputs::LITTLE;
use dw_bytes::{Fault, FaultKind};
use dw_ops::Expression;
use dw_stack::{Kind, Mode, State, certify, recheck};
use std::alloc::{AllocError, Global};
use std::process::Abort;

/// The result of a check: an expression's greatest stack height and its number of operations, or
/// its first fault.
type Verdict = Result<(u8, u32), Fault>;

fn refusal(kind: FaultKind, at: u32) -> Verdict {
    Err(Fault { kind, at })
}

/// The result of checking an expression with the given `states`.
fn rechecked(alloc: Global, bytes: &[u8], kind: Kind, states: &[State]) -> Verdict
    requires { length bytes.now < 2 ^ 32 }
{
    let checked = recheck(alloc, Expression::new(bytes, LITTLE), kind, states)?;
    Ok((checked.depth(), checked.operation_count()))
}

/// The state before an operation, in the mode `Stack` and with no piece before.
fn state_at(offset: u8, height: u8) -> State {
    State {
        offset: u32::from(offset),
        height,
        mode: Mode::Stack,
        pieced: false,
    }
}

/// Asserts that a certificate has these states.
fn has_states(rt: &impl Abort, alloc: Global, bytes: &[u8], kind: Kind, states: &[State])
    requires { length bytes.now < 2 ^ 32 }
{
    match certify(alloc, Expression::new(bytes, LITTLE), kind) {
        Ok(certificate) => assert!(rt; certificate.states() == states),
        Err(_) => panic!(rt; "{bytes:?} is refused"),
    }
}

/// An expression that adds 2 and 3.
const SUM: [u8; 3] = [0x32, 0x33, 0x22];

/// A branch that skips a literal, so that two paths meet with different stack heights.
const MEETING: [u8; 6] = [0x30, 0x28, 0x01, 0x00, 0x31, 0x32];

/// Expressions with states, which are written as the offset of each operation and the stack height
/// before it: the depth and the number of operations, or the fault. In the last one the wrong state
/// is reported, although the kind doesn't allow the operation either.
const GIVEN: [(&[u8], Kind, &[u8], &[u8], Verdict); 9] = [
    (&SUM, Kind::Location, &[0, 1, 2], &[0, 1, 2], Ok((2, 3))),
    (
        &[0x12, 0x22],
        Kind::FrameRegister,
        &[0, 1],
        &[1, 2],
        Ok((2, 2)),
    ),
    (
        &SUM,
        Kind::Location,
        &[0, 1, 2],
        &[0, 1, 1],
        Err(Fault {
            kind: FaultKind::CertState,
            at: 2,
        }),
    ),
    (
        &SUM,
        Kind::Location,
        &[0, 1, 2],
        &[1, 1, 2],
        Err(Fault {
            kind: FaultKind::CertState,
            at: 0,
        }),
    ),
    (
        &SUM,
        Kind::Location,
        &[0, 1, 3],
        &[0, 1, 2],
        Err(Fault {
            kind: FaultKind::CertState,
            at: 2,
        }),
    ),
    (
        &SUM,
        Kind::Location,
        &[0, 1],
        &[0, 1],
        Err(Fault {
            kind: FaultKind::CertLength,
            at: 0,
        }),
    ),
    (
        &MEETING,
        Kind::Location,
        &[0, 1, 4, 5],
        &[0, 1, 0, 1],
        Err(Fault {
            kind: FaultKind::Mismatch,
            at: 5,
        }),
    ),
    (
        &MEETING,
        Kind::Location,
        &[0, 1, 4, 5],
        &[0, 1, 0, 0],
        Err(Fault {
            kind: FaultKind::Mismatch,
            at: 5,
        }),
    ),
    (
        &[0x9c],
        Kind::FrameCfa,
        &[0],
        &[1],
        Err(Fault {
            kind: FaultKind::CertState,
            at: 0,
        }),
    ),
];

#[test]
fn takes_the_states_of_an_expression(rt: HostRuntime) {
    for (bytes, kind, offsets, heights, wanted) in &GIVEN {
        assert!(rt; bytes.len() < 0x1_0000);
        let mut slots = [state_at(0, 0); 4];
        for ((slot, offset), height) in slots.iter_mut().zip(*offsets).zip(*heights) {
            *slot = state_at(*offset, *height);
        }
        let states = &slots[..offsets.len().min(4)];
        let found = rechecked(rt.alloc(), bytes, *kind, states);
        assert!(rt; found == *wanted, "{bytes:?} {heights:?}");
        if wanted.is_ok() {
            has_states(&rt, rt.alloc(), bytes, *kind, states);
        }
    }
}

/// The state of which one field is another: the offset or the height is a number of one byte, the
/// mode is another, or it is changed whether a piece came before.
fn other_state(state: State, field: u8, number: u8) -> State {
    match (field, number) {
        (0, _) => State {
            offset: u32::from(number),
            ..state
        },
        (1, _) => State {
            height: number,
            ..state
        },
        (2, 0) => State {
            mode: Mode::Stack,
            ..state
        },
        (2, 1) => State {
            mode: Mode::Register,
            ..state
        },
        (2, 2) => State {
            mode: Mode::Value,
            ..state
        },
        (2, 3) => State {
            mode: Mode::AfterPiece,
            ..state
        },
        _ => State {
            pieced: number != 0,
            ..state
        },
    }
}

/// Asserts that the states of an expression's certificate are the given ones, that they are
/// accepted, and that they are refused if one field of one state is changed, or if there is one
/// state more or one fewer.
fn takes_only_its_own(
    rt: &impl Abort,
    alloc: Global,
    bytes: &[u8],
    kind: Kind,
) -> Result<(), AllocError>
    requires { length bytes.now < 2 ^ 32 }
{
    let Ok(certificate) = certify(alloc, Expression::new(bytes, LITTLE), kind) else {
        panic!(rt; "{bytes:?} is refused")
    };
    let mut states = certificate.states().to_vec(alloc)?;
    assert!(rt; rechecked(alloc, bytes, kind, &states).is_ok());
    for i in 0..states.len() {
        let own = states[i];
        for field in 0..4u8 {
            for number in 0..=255u8 {
                let other = other_state(own, field, number);
                if other != own {
                    states[i] = other;
                    let found = rechecked(alloc, bytes, kind, &states);
                    assert!(rt; found == refusal(FaultKind::CertState, own.offset));
                }
            }
        }
        states[i] = own;
    }
    if let Some(last) = states.pop() {
        let fault = refusal(FaultKind::CertLength, 0);
        assert!(rt; rechecked(alloc, bytes, kind, &states) == fault);
        states.push(last)?;
        states.push(last)?;
        assert!(rt; rechecked(alloc, bytes, kind, &states) == fault);
    }
    Ok(())
}

/// Expressions that have no other states than those of their certificates.
const EXACT: [(&[u8], Kind); 4] = [
    (&SUM, Kind::Location),
    (&[0x31, 0x32, 0x28, 0x00, 0x00], Kind::Location),
    (&[0x50, 0x93, 0x04, 0x93, 0x04], Kind::Location),
    (&[0x12, 0x22], Kind::FrameRegister),
];

#[test]
fn takes_no_state_that_differs_in_one_place(rt: HostRuntime) -> Result<(), AllocError> {
    for (bytes, kind) in &EXACT {
        assert!(rt; bytes.len() < 0x1_0000);
        takes_only_its_own(&rt, rt.alloc(), bytes, *kind)?;
    }
    Ok(())
}
