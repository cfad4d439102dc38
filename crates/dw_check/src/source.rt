//! Byte sources, and reading them to the end.

ghost use Rattle.std.specs.Prelude.{◌≡◌, ◌<◌, ℕ, List, Option, length, IfOk, OnErr};
ghost use Rattle.std.specs.Io.{ReadsAtMost};
ghost use Rattle.std.specs.Io.KnownBytes.{ReadConsumes};
ghost use Rattle.dw_check.specs.SourceBytes.{GivesAll, GivesFront, reader_of, reading_of};
ghost use Rattle.dw_check.specs.SourceBytes.{reading_after, reading_after_load};
ghost use Rattle.dw_check.specs.declared.source.LoadFault.TheVariants as faults;

use crate::sink::Stopped;
use std::alloc::{AllocError, Global};
use std::io::Read;
use thiserror::Error;

/// How far a source has been read.
#[derive(Clone, Copy, Debug, PartialEq, Eq)]
pub enum Reading {
    /// The source may have more bytes.
    Open,
    /// The source has given all its bytes.
    Ended,
    /// A read failed.
    Failed,
}

/// A source of bytes.
pub trait Source {
    ghost use Rattle.dw_check.specs.declared.source.Reading.{Reading};

    /// The bytes that reads will give from here on, if they are known.
    ghost left: { Self → Option (List ℕ) };

    /// How far the source has been read.
    ghost reading: { Self → Reading };

    /// How far the source has been read.
    fn state(&self) -> Reading
        ensures { result ≡ reading self.now };

    /// Reads the next bytes into the front of `buf`, and returns their number. Afterwards the
    /// source is `Failed` if the call failed, `Ended` if it returned 0, and else `Open`.
    fn read(&mut self, buf: &mut [u8]) -> Result<usize, Stopped>
        requires open { reading self.old ≡ Reading.Open }
        requires room { 0 < length buf.old }
        ensures bound { ReadsAtMost result buf.new }
        ensures bytes { ReadConsumes (left self.old) (left self.new) result buf.new }
        ensures reading { reading self.new ≡ reading_after result };
}

/// A source that reads from a std `Read`. Any read error makes the source `Failed`, even
/// `Interrupted`.
#[derive(Drop)]
pub struct Reads<Rd: Read> {
    inner: Rd,
    reading: Reading,
}

impl<Rd: Read> Reads<Rd> {
    /// A source that reads from `inner`, in state `Open`.
    pub fn new(inner: Rd) -> Self
        ensures inner { reader_of result ≡ inner }
        ensures open { reading_of result ≡ Reading.Open }
    {
        Reads {
            inner,
            reading: Reading::Open,
        }
    }
}

impl<Rd: Read> Source for Reads<Rd> {
    ghost left = { λ r. Rd.remaining r.inner };

    ghost reading = { λ r. r.reading };

    fn state(&self) -> Reading {
        self.reading
    }

    fn read(&mut self, buf: &mut [u8]) -> Result<usize, Stopped> {
        match self.inner.read(buf) {
            Ok(n) => {
                if n == 0 {
                    self.reading = Reading::Ended;
                }
                Ok(n)
            }
            Err(_) => {
                self.reading = Reading::Failed;
                Err(Stopped)
            }
        }
    }
}

/// Why `load` failed.
#[derive(Clone, Copy, Debug, PartialEq, Eq, Error)]
pub enum LoadFault {
    /// A read failed.
    #[error("cannot read")]
    Read,
    /// Memory ran out.
    #[error("out of memory")]
    Memory,
}

impl From<Stopped> for LoadFault {
    ghost from_gives = { λ _ e. e ≡ faults.Read };

    fn from(_: Stopped) -> Self {
        LoadFault::Read
    }
}

impl From<AllocError> for LoadFault {
    ghost from_gives = { λ _ e. e ≡ faults.Memory };

    fn from(_: AllocError) -> Self {
        LoadFault::Memory
    }
}

/// The number of bytes that one read asks for.
const PIECE: usize = 65_536;

/// Reads all remaining bytes of an open source. If that succeeds, the source is `Ended`. If the
/// error is `Read`, the source is `Failed`. If the error is `Memory`, the source is still `Open`,
/// and the bytes read so far are lost.
#[tactic(auto, using(crate::proofs::Loading::consumes_more))]
pub fn load<S: Source>(alloc: Global, source: &mut S) -> Result<Vec<u8>, LoadFault>
    requires open { S.reading source.old ≡ Reading.Open }
    ensures all { IfOk result
        (λ bytes. GivesAll (S.left source.old) (S.left source.new) bytes.items) }
    ensures front { OnErr result (GivesFront (S.left source.old) (S.left source.new)) }
    ensures reading { S.reading source.new ≡ reading_after_load result }
{
    let mut bytes = Vec::new(alloc);
    let mut piece = [0; PIECE];
    loop {
        let n = source.read(&mut piece)?;
        if n == 0 {
            return Ok(bytes);
        }
        bytes.extend_from_slice(&piece[..n])?;
    }
}
