//! The inputs of an evaluation, and how operations read them.

ghost use Rattle.std.specs.Prelude.{◌≡◌, ◌+◌, ◌+ℤ◌, ◌^◌, ◌<◌, pos, Ok};
ghost use Rattle.dw_eval.specs.World.{IsSize, width};
ghost use Rattle.dw_eval.specs.Values.{push, if_present, load_bytes};
ghost use Rattle.dw_eval.specs.StackChanges.{one_of};
ghost use Rattle.dw_bytes.specs.Encoding.{bytes_of_address};
ghost use Rattle.dw_eval.specs.Environments.{world_in};

use crate::context::{Context, Memory, Registers};
use crate::evaluation_error::EvaluationError;
use crate::width::Width;
use dw_bytes::Target;

/// The inputs of an evaluation, and the target (byte order and address size) of its expression.
#[derive(Drop)]
pub struct Environment<'m, R: Registers, M: Memory> {
    pub target: Target,
    pub context: &'m Context,
    pub registers: &'m R,
    pub memory: &'m M,
}

impl<'m, R: Registers, M: Memory> Environment<'m, R, M> {
    /// The width of a stack entry.
    #[inline(always)]
    pub fn width(&self) -> Width
        ensures { result.size ≡ self.now.target.address_size }
    {
        Width {
            size: self.target.address_size,
        }
    }

    /// The size of an address-sized word in bytes.
    #[inline(always)]
    pub fn word(&self) -> u8
        ensures value { result ≡ bytes_of_address self.now.target.address_size }
        ensures size { IsSize result }
    {
        self.target.address_size.bytes()
    }

    /// `value` plus `offset`, modulo 2^w, w being the size of an address in bits. `Unreadable` if
    /// there is no value.
    #[inline(always)]
    pub fn sum(&self, value: Option<u64>, offset: i64) -> Result<u64, EvaluationError>
        ensures { one_of result ≡ if_present value
            (λ n. push (world_in R.contents M.bytes self.now) (pos n +ℤ offset)) }
    {
        match value {
            Some(number) => Ok(self.width().offset(number, offset)),
            None => Err(EvaluationError::Unreadable),
        }
    }

    /// `value` modulo 2^w, w being the size of an address in bits. `Unreadable` if there is no
    /// value.
    #[inline(always)]
    pub fn given(&self, value: Option<u64>) -> Result<u64, EvaluationError>
        ensures { one_of result ≡ if_present value
            (λ n. push (world_in R.contents M.bytes self.now) (pos n)) }
    {
        match value {
            Some(number) => Ok(self.width().reduce(number)),
            None => Err(EvaluationError::Unreadable),
        }
    }

    /// Reads the number in the `size` bytes from `address` on, modulo 2^w, w being the size of an
    /// address in bits. `Unreadable` if one of these bytes isn't known or lies past 2^w - 1.
    #[inline(always)]
    pub fn load(&self, address: u64, size: u8) -> Result<u64, EvaluationError>
        requires address { address < 2 ^ width (world_in R.contents M.bytes self.now) }
        requires size { IsSize size }
        ensures { one_of result ≡ load_bytes (world_in R.contents M.bytes self.now) address size }
    {
        let width = self.width();
        if address > width.max() - u64::from(size - 1) {
            return Err(EvaluationError::Unreadable);
        }
        match self.memory.read(address, size, self.target.order) {
            Some(number) => Ok(width.reduce(number)),
            None => Err(EvaluationError::Unreadable),
        }
    }
}
