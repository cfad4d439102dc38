//! A destination for bytes, which can stop accepting them.

ghost use Rattle.std.specs.Prelude.{◌≡◌, ℕ, ◌≤◌, Bool, List, Option, true, false, take, length, MatchResult, OnOk, OnErr, IfOk};
ghost use Rattle.std.specs.Io.KnownBytes.{Appends, Keeps};
ghost use Rattle.dw_check.specs.SinkBytes.{AppendsFront, stops, writer_of, has_failed};

use std::error::Error;
use std::fmt;
use std::io::Write;

/// The error of a sink that accepts no more bytes, and of a source whose read failed.
#[derive(Clone, Copy, Debug, PartialEq, Eq)]
pub struct Stopped;

impl fmt::Display for Stopped {
    ghost use Rattle.std.specs.Prelude.{Some, codes};

    ghost output = { λ _. Some (codes "stopped") };

    fn fmt<W: fmt::Write>(&self, f: &mut fmt::Formatter<W>) -> fmt::Result {
        f.write_str("stopped")
    }
}

impl Error for Stopped {}

/// A destination for bytes.
pub trait Sink {
    /// The bytes accepted so far, if they are known.
    ghost taken: { Self → Option (List ℕ) };

    /// Whether the sink has stopped.
    ghost has_stopped: { Self → Bool };

    /// Whether the sink has stopped.
    fn stopped(&self) -> bool
        ensures { result ≡ has_stopped self.now };

    /// Accepts the first n bytes of `bytes`, where the sink chooses n, and returns n. If the call
    /// fails, no bytes are accepted. The sink stops if the call fails, or if it returns 0 although
    /// `bytes` isn't empty, and in no other case.
    fn write(&mut self, bytes: &[u8]) -> Result<usize, Stopped>
        requires { has_stopped self.old ≡ false }
        ensures bound { IfOk result (λ n. n ≤ length bytes.now) }
        ensures taken { MatchResult result
            (λ n. Appends (taken self.old) (taken self.new) (take n bytes.now))
            (λ _. Keeps (taken self.old) (taken self.new)) }
        ensures stops { has_stopped self.new ≡ stops result (length bytes.now) };
}

/// A sink that writes to a std `Write`. The sink stops at the first write error, even
/// `Interrupted`, and also if the writer accepts none of the bytes passed to a write.
#[derive(Drop)]
pub struct Through<W: Write> {
    inner: W,
    has_failed: bool,
}

impl<W: Write> Through<W> {
    /// A sink that writes to `inner` and hasn't stopped.
    pub fn new(inner: W) -> Self
        ensures inner { writer_of result ≡ inner }
        ensures runs { has_failed result ≡ false }
    {
        Through {
            inner,
            has_failed: false,
        }
    }

    /// The writer that the sink wrote to.
    pub fn into_inner(self) -> W
        ensures { result ≡ writer_of self }
    {
        let Through {
            inner,
            has_failed: _,
        } = self;
        inner
    }
}

impl<W: Write> Sink for Through<W> {
    ghost taken = { λ t. W.contents t.inner };

    ghost has_stopped = { λ t. t.has_failed };

    fn stopped(&self) -> bool {
        self.has_failed
    }

    fn write(&mut self, bytes: &[u8]) -> Result<usize, Stopped> {
        match self.inner.write(bytes) {
            Ok(n) => {
                self.has_failed = n == 0 && bytes.len() != 0;
                Ok(n)
            }
            Err(_) => {
                self.has_failed = true;
                Err(Stopped)
            }
        }
    }
}

/// Writes `bytes` to the sink, until all are accepted or the sink has stopped.
pub(crate) fn write_all<S: Sink>(sink: &mut S, bytes: &[u8]) -> Result<(), Stopped>
    requires { S.has_stopped sink.old ≡ false }
    ensures all { OnOk result (Appends (S.taken sink.old) (S.taken sink.new) bytes.now) }
    ensures runs { OnOk result (S.has_stopped sink.new ≡ false) }
    ensures front { OnErr result (AppendsFront (S.taken sink.old) (S.taken sink.new) bytes.now) }
    ensures stopped { OnErr result (S.has_stopped sink.new ≡ true) }
{
    let mut done = 0;
    while done < bytes.len() {
        let n = sink.write(&bytes[done..])?;
        if n == 0 {
            return Err(Stopped);
        }
        done += n;
    }
    Ok(())
}
