// The arguments of a program: how many there are; whether they ask for files only, for help, or for an option that the program does not have; and the
// files that they name. (Proved: it is safe and ends. Its answers are tested by running the programs.)

#![tactic(auto)]

ghost use Rattle.std.specs.Prelude.{◌≡◌, IfOk, IfErr};
ghost use Rattle.io.specs.Counts.{IsPrefixLen};

use std::env::{Env, FillError};
use std::{fs, io};

// What an option asks for. Its own enum, since it is no Option: a program says its usage in both cases, on
// standard output or on standard error.
#[derive(Clone, Copy)]
pub enum Asked {
    Help,
    Unknown,
}

// A file that an argument names, and the length of its name.
#[derive(Drop)]
pub struct Opened<F> {
    pub file: F,
    pub size: usize,
}

// The longest argument.
pub const LONGEST: usize = 4096;

const HELP: &[u8] = b"--help";

// The system's number of the error that a name is too long.
const NAME_TOO_LONG: i32 = 36;

// What an argument asks for, if it is an option that is not the program's own. An option begins with '-' and is longer than that.
fn asked_by(argument: &[u8], own: Option<&[u8]>) -> Option<Asked> {
    if argument.len() < 2 || argument[0] != b'-' || own == Some(argument) {
        return None;
    }
    if argument == HELP {
        return Some(Asked::Help);
    }
    Some(Asked::Unknown)
}

// Copies argument i to the start of `out`. Gives its length, or 0 if it has no room.
fn copy_at(rt: &impl Env, i: usize, out: &mut [u8]) -> usize
    ensures { IsPrefixLen result out.new }
{
    rt.arg(i, out).unwrap_or(0)
}

// What argument i asks for. A fixed array, since a program's buffers have a fixed size, on the stack.
fn asked_at(rt: &impl Env, i: usize, own: Option<&[u8]>) -> Option<Asked> {
    let mut argument = [0u8; LONGEST];
    let n = copy_at(rt, i, &mut argument);
    asked_by(&argument[..n], own)
}

// How many arguments there are, the program's name among them. By index, since the system gives an argument by its index alone.
pub fn count(rt: &impl Env) -> usize {
    for i in 0..usize::MAX {
        if let Err(FillError::NotPresent) = rt.arg(i, &mut []) {
            return i;
        }
    }
    usize::MAX
}

// Whether argument i is these bytes. A fixed array, since a program's buffers have a fixed size, on the stack.
pub fn is_at(rt: &impl Env, i: usize, other: &[u8]) -> bool {
    let mut argument = [0u8; LONGEST];
    let n = copy_at(rt, i, &mut argument);
    &argument[..n] == other
}

// The first option among the arguments.
pub fn first_option(rt: &impl Env, count: usize) -> Option<Asked> {
    (1..count).find_map(|i| asked_at(rt, i, None))
}

// The first option among the arguments that is not the program's own.
pub fn first_option_but(rt: &impl Env, count: usize, own: &[u8]) -> Option<Asked> {
    (1..count).find_map(|i| asked_at(rt, i, Some(own)))
}

// How many of the arguments are these bytes.
pub fn how_many(rt: &impl Env, count: usize, argument: &[u8]) -> usize {
    (1..count).filter(|i| is_at(rt, *i, argument)).count()
}

// Writes the usage: on standard output if help is asked for, and on standard error if an option is not known.
pub fn tell_usage(rt: &HostRuntime, asked: Asked, usage: &str) {
    let _ = match asked {
        Asked::Help => rt.stdout().write_all(usage.as_bytes()),
        Asked::Unknown => rt.stderr().write_all(usage.as_bytes()),
    };
}

// Opens the file that argument i names, and copies its name to the start of `path`. If it cannot open the file, it says so on standard error, and gives
// the length of the name.
pub fn open_at(rt: &HostRuntime, i: usize, path: &mut [u8]) -> Result<Opened<fs::File>, usize>
    ensures opened { IfOk result (λ opened. IsPrefixLen opened.size path.new) }
    ensures not_opened { IfErr result (λ size. IsPrefixLen size path.new) }
{
    match rt.arg(i, path) {
        Ok(size) => open_named(rt, path, size),
        Err(_) => {
            failures::tell(rt, b"argument", io::Error::from_raw_os_error(NAME_TOO_LONG));
            Err(0)
        }
    }
}

// Opens the file whose name is the first `size` bytes of `path`, or says why it cannot.
fn open_named(rt: &HostRuntime, path: &[u8], size: usize) -> Result<Opened<fs::File>, usize>
    requires { IsPrefixLen size path.now }
    ensures opened { IfOk result (λ opened. opened.size ≡ size) }
    ensures not_opened { IfErr result (λ length. length ≡ size) }
{
    match open(rt, &path[..size]) {
        Ok(file) => Ok(Opened { file, size }),
        Err(why) => {
            failures::tell(rt, &path[..size], why);
            Err(size)
        }
    }
}

// The library opens files by names that are text in UTF-8 only.
fn open(rt: &HostRuntime, name: &[u8]) -> io::Result<fs::File> {
    match std::str::from_utf8(name) {
        Ok(path) => fs::open(rt, path),
        Err(_) => Err(io::Error::new(io::ErrorKind::InvalidFilename, "its name is not in UTF-8")),
    }
}
