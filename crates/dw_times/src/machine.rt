//! A machine whose registers and memory all have known contents.

ghost use Rattle.std.specs.Prelude.{◌+◌, Some};

use dw_bytes::Order;
use dw_eval::{Context, Memory, Registers};

/// A machine in which register N contains N + 7, and each byte of memory is 0x5a.
pub(crate) struct Known {}

impl Registers for Known {
    ghost contents = { λ _ n. Some (n + 7) };

    fn register(&self, number: u16) -> Option<u64> {
        Some(u64::from(number) + 7)
    }
}

impl Memory for Known {
    ghost bytes = { λ _ _. Some 0x5a };

    #[tactic(auto, unfolding(dw_eval::specs::World::bytes_from))]
    fn read(&self, address: u64, size: u8, order: Order) -> Option<u64> {
        let _ = (address, order);
        match size {
            1 => Some(0x5a),
            2 => Some(0x5a5a),
            4 => Some(0x5a5a_5a5a),
            8 => Some(0x5a5a_5a5a_5a5a_5a5a),
            _ => unreachable!(),
        }
    }
}

/// The CFA, frame base and object address that expressions are evaluated with.
pub(crate) const CONTEXT: Context = Context {
    cfa: Some(0x1000),
    frame_base: Some(0x2000),
    object: Some(0x3000),
};
