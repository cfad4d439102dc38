//! What a command line asks for (`Request`), why it is rejected (`Usage`), and how a run ends
//! (`End`).

ghost use Rattle.std.specs.Prelude.{◌≡◌, length, map};
ghost use Rattle.std.specs.String.{string_bytes};
ghost use Rattle.dw_requests.specs.LongFiles.{needed_length};
ghost use Rattle.dw_requests.specs.Requests.{Asked};
ghost use Rattle.dw_requests.specs.Statuses.{status_of_usage, status_of_end};
ghost use Rattle.dw_requests.specs.declared.requests.Usage.TheVariants.{Memory};

use dw_bytes::Target;
use dw_stack::Kind;
use std::alloc::{AllocError, AllocFailed};
use std::error::Error;
use std::fmt;
use std::marker::Model;

/// A look-up in a section of location lists.
#[derive(Clone, Copy, Debug)]
pub struct ListLookup {
    /// The offset of the list's first byte in the section.
    pub list: u32,
    /// The base address of the unit.
    pub base: u64,
    /// The address to look up.
    pub address: u64,
}

/// What to do with the files of a request.
#[derive(Clone, Copy, Debug)]
pub enum Task {
    /// Check a frame section and a section of location lists, and report on them.
    Check,
    /// Show each FDE of a frame section and its rows.
    Rows,
    /// Show the row of an address in a frame section.
    Row { address: u64 },
    /// Show the expressions of a location list that apply at an address, and their outcomes.
    Locs { lookup: ListLookup },
    /// Evaluate an expression of this kind.
    Eval { kind: Kind },
    /// Show the caller of the frame at an address.
    Unwind { address: u64 },
    /// Show the frame at an address, its caller, that caller's caller and so on: at most `limit`
    /// frames.
    Backtrace { address: u64, limit: u32 },
}

/// What a command line asks for.
#[derive(Debug, Drop)]
pub struct Request {
    /// What to do.
    pub task: Task,
    /// The byte order and address size of the sections, expressions and state files.
    pub target: Target,
    /// The load address of the module whose frame section is the first file: the value of `--load`,
    /// or 0 without that option.
    pub load: u64,
    /// The load addresses of the further modules, in the order of their `--module` options.
    pub module_loads: Vec<u64>,
    /// Whether sections and the expression are hex text; a state file never is.
    pub hex: bool,
    /// The names of the files: first each file that is a word of the command, then the file of
    /// `--state` if given, and then the files of the further modules.
    pub files: Vec<String>,
}

impl Model for Request {
    ghost Value = { Asked };

    ghost view = { λ r. record {
      task = r.task;
      target = r.target;
      load = r.load;
      module_loads = r.module_loads.items;
      hex = r.hex;
      files = map (λ s. string_bytes s) r.files.items;
    } };
}

impl Request {
    /// The names of the files whose contents `run` needs, in the order in which they are passed to
    /// it.
    pub fn files(&self) -> &[String]
        ensures names { map (λ s. string_bytes s) result.now ≡ self.now.files }
        ensures count { length result.now ≡ length self.now.files }
    {
        self.files.as_slice()
    }

    /// How many bytes at the front of the file at index `place` in `files` are enough for `run`:
    /// its result doesn't depend on any byte after them. The number is 2^32 for a section or an
    /// expression, which is refused as too long if it has that many bytes. `None` for hex text and
    /// for a state file, which have to be read in full.
    pub fn needed_length(&self, place: usize) -> Option<u64>
        ensures { result ≡ needed_length self.now.task self.now.hex place }
    {
        let is_state = !matches!(self.task, Task::Check) && place == 1;
        if self.hex || is_state {
            None
        } else {
            Some(1 << 32)
        }
    }
}

/// Why no request could be made from a command line.
#[derive(Debug, Drop)]
pub enum Usage {
    /// clap rejects the words, or they ask for help. The string is clap's text.
    Line(String),
    /// An argument is malformed.
    BadArgument,
    /// Memory ran out.
    Memory,
}

impl Usage {
    /// The exit status.
    pub fn status(&self) -> u8
        ensures { result ≡ status_of_usage self.now }
    {
        match self {
            Usage::Line(_) | Usage::BadArgument => 2,
            Usage::Memory => 3,
        }
    }
}

/// For `Line` the text from clap, for `BadArgument` `bad argument`, for `Memory` `out of memory`.
impl fmt::Display for Usage {
    ghost use Rattle.std.specs.Prelude.{Some};
    ghost use Rattle.dw_requests.specs.Statuses.{usage_text};

    ghost output = { λ usage. Some (usage_text usage) };

    fn fmt<W: fmt::Write>(&self, f: &mut fmt::Formatter<W>) -> fmt::Result {
        match self {
            Usage::Line(text) => f.write_str(text.as_str()),
            Usage::BadArgument => f.write_str("bad argument"),
            Usage::Memory => f.write_str("out of memory"),
        }
    }
}

impl Error for Usage {}

impl From<AllocError> for Usage {
    ghost from_gives = { λ _ e. e ≡ Memory };

    fn from(_: AllocError) -> Self {
        Usage::Memory
    }
}

impl<T: Drop> From<AllocFailed<T>> for Usage {
    ghost from_gives = { λ _ e. e ≡ Memory };

    fn from(_: AllocFailed<T>) -> Self {
        Usage::Memory
    }
}

/// How a run ends.
#[derive(Clone, Copy, Debug, PartialEq, Eq)]
pub enum End {
    /// All of the text was written.
    Done,
    /// An input is refused, and the line that says why was written.
    Refused,
    /// The file at this index in `Request::files` must be hex text and isn't.
    BadHex(usize),
    /// The state file's line with this number, counted from 1, is malformed, contradicts earlier
    /// lines, or names one callee-saved register too many.
    StateLine(u64),
    /// Memory ran out.
    Memory,
    /// The sink stopped.
    Output,
}

impl End {
    /// The exit status.
    pub fn status(&self) -> u8
        ensures { result ≡ status_of_end self.now }
    {
        match self {
            End::Done => 0,
            End::Refused => 1,
            End::StateLine(_) => 2,
            End::BadHex(_) | End::Memory | End::Output => 3,
        }
    }
}
