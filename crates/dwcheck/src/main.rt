//! The `dwcheck` program: reads its arguments and files, writes to standard output and standard
//! error, and sets the exit status.
#![tactic(auto)]

ghost use Rattle.std.specs.Prelude.{◌≡◌, length, vec_len, IfOk};
ghost use Rattle.dw_check.specs.Runs.{IsPlaceIn};

use dw_check::{End, LoadFault, Reads, Request, Through, Usage, load};
use std::alloc::{AllocError, AllocFailed};
use std::io::{BufWriter, ErrorKind, Read, Write};
use std::process::ExitCode;
use std::rt::{Env, Files};
use std::{env, fs, io};

/// How the program ends.
#[derive(Debug, Drop)]
enum Ending {
    /// No request could be made from the arguments.
    Usage(Usage),
    /// An argument isn't UTF-8.
    NotUtf8,
    /// The file with this name can't be read.
    CannotRead(String),
    /// The file with this name must be hex text and isn't.
    NotHex(String),
    /// The run ended in any other way, or memory ran out.
    Run(End),
}

impl Ending {
    /// The exit status.
    fn status(&self) -> u8 {
        match self {
            Ending::Usage(usage) => usage.status(),
            Ending::NotUtf8 => 2,
            Ending::CannotRead(_) | Ending::NotHex(_) => 3,
            Ending::Run(end) => end.status(),
        }
    }
}

impl From<Usage> for Ending {
    fn from(usage: Usage) -> Self {
        Ending::Usage(usage)
    }
}

impl From<AllocError> for Ending {
    fn from(_: AllocError) -> Self {
        Ending::Run(End::Memory)
    }
}

impl<T: Drop> From<AllocFailed<T>> for Ending {
    fn from(_: AllocFailed<T>) -> Self {
        Ending::Run(End::Memory)
    }
}

/// Whether this program's allocator ran out of memory. If the operating system did, the error has
/// an OS error number.
fn is_out_of_memory(error: &io::Error) -> bool {
    error.kind() == ErrorKind::OutOfMemory && error.raw_os_error().is_none()
}

/// The arguments, the program's name first. If the system passes none, only the program's name.
fn words_of(rt: &(impl Env + AllocGlobal)) -> Result<Vec<String>, Ending> {
    let mut words: Vec<String> = match env::args(rt) {
        Ok(given) => given.collect(rt.alloc())?,
        Err(e) if is_out_of_memory(&e) => return Err(Ending::Run(End::Memory)),
        Err(_) => return Err(Ending::NotUtf8),
    };
    if words.is_empty() {
        words.push(String::from_str(rt.alloc(), "dwcheck")?)?;
    }
    Ok(words)
}

/// The first bytes of a file, at most `most` of them.
fn file_content(
    rt: &(impl Files + AllocGlobal),
    name: &String,
    most: u64,
) -> Result<Vec<u8>, Ending> {
    let file = match fs::open(rt, name.as_str()) {
        Ok(file) => file,
        Err(e) if is_out_of_memory(&e) => return Err(Ending::Run(End::Memory)),
        Err(_) => return Err(Ending::CannotRead(name.clone()?)),
    };
    match load(rt.alloc(), &mut Reads::new(file.take(most))) {
        Ok(bytes) => Ok(bytes),
        Err(LoadFault::Memory) => Err(Ending::Run(End::Memory)),
        Err(LoadFault::Read) => Err(Ending::CannotRead(name.clone()?)),
    }
}

/// The contents of each file of a request. At most as many bytes of a file are read as
/// `Request::needed_length` says, or all of them if it gives `None`.
fn file_contents(rt: &(impl Files + AllocGlobal), request: &Request) -> Result<Vec<Vec<u8>>, Ending>
    ensures { IfOk result (λ contents. vec_len contents ≡ length request.now.files) }
{
    let mut contents = Vec::new(rt.alloc());
    for name in request.files() {
        let most = request.needed_length(contents.len()).unwrap_or(u64::MAX);
        contents.push(file_content(rt, name, most)?)?;
    }
    Ok(contents)
}

/// Runs the request, writing to standard output.
fn run_to_output(rt: &(impl Print + AllocGlobal), request: &Request, files: &[Vec<u8>]) -> End
    requires { length files.now ≡ length request.now.files }
    ensures { IsPlaceIn (length request.now.files) result }
{
    let Ok(out) = BufWriter::new(rt.alloc(), io::writer(rt)) else {
        return End::Memory;
    };
    let mut sink = Through::new(out);
    let end = dw_check::run(rt.alloc(), request, files, &mut sink);
    let flushed = sink.into_inner().flush();
    match (end, flushed) {
        (End::Done | End::Refused, Err(_)) => End::Output,
        (end, _) => end,
    }
}

/// Does what the arguments ask for.
fn do_words(rt: &(impl Env + Files + Print + AllocGlobal)) -> Result<Ending, Ending> {
    let request = dw_check::request(rt.alloc(), words_of(rt)?)?;
    let files = file_contents(rt, &request)?;
    match run_to_output(rt, &request, files.as_slice()) {
        End::BadHex(place) => Ok(Ending::NotHex(request.files()[place].clone()?)),
        end => Ok(Ending::Run(end)),
    }
}

/// Prints the line for an ending on standard error, if it has one.
fn print_ending(rt: &impl Eprint, ending: &Ending) -> io::Result<()> {
    match ending {
        Ending::Usage(Usage::Line(text)) => eprint!(rt; "{text}"),
        Ending::Usage(Usage::BadArgument) => eprintln!(rt; "dwcheck: bad argument"),
        Ending::NotUtf8 => eprintln!(rt;
            "error: invalid UTF-8 was detected in one or more arguments"
        ),
        Ending::CannotRead(name) => eprintln!(rt; "dwcheck: cannot read {name}"),
        Ending::NotHex(name) => eprintln!(rt; "dwcheck: not hex: {name}"),
        Ending::Run(End::StateLine(n)) => eprintln!(rt; "dwcheck: state line {n}"),
        Ending::Usage(Usage::Memory) | Ending::Run(End::Memory) => {
            eprintln!(rt; "dwcheck: out of memory")
        }
        Ending::Run(End::Output) => eprintln!(rt; "dwcheck: cannot write"),
        Ending::Run(End::Done | End::Refused | End::BadHex(_)) => Ok(()),
    }
}

fn main(rt: HostRuntime) -> ExitCode {
    let ending = match do_words(&rt) {
        Ok(ending) | Err(ending) => ending,
    };
    let _ = print_ending(&rt, &ending);
    ExitCode::from(ending.status())
}
