// The beginning of a file that an argument of the program names. What failed is said on standard error, in one line.
#![tactic(auto)]

ghost use Rattle.std.specs.Prelude.{length};
ghost use Rattle.input.specs.Within.{ReadWithin};

use input::read_front;
use std::env::FillError;
use std::fmt::InlineText;
use std::io::Write;
use std::rt::{Env, Files};
use std::{fs, io};

// Linux passes no longer name of a file.
const LONGEST_NAME: usize = 4096;

// Linux's numbers of what an argument that cannot be had is refused with.
const EINVAL: i32 = 22;

const ENAMETOOLONG: i32 = 36;

// The system's words for an error, and the number that std writes behind them.
const LONGEST_WORDS: usize = 128;

// Says what failed, and why: in the system's own words, without the number that std writes behind them. Nothing can be said of a failure to say so.
fn fail<W: Write>(errors: &mut W, what: &[u8], error: &io::Error) {
    let text = InlineText::<LONGEST_WORDS>::of(*error);
    let why = text.as_str();
    let why = match why.split_once(" (os error ") {
        Some((words, _)) => words,
        None => why,
    };
    let _ = errors.write_all(what);
    let _ = errors.write_all(b": ");
    let _ = errors.write_all(why.as_bytes());
    let _ = errors.write_all(b"\n");
}

// Opens the file of that name to read it. std takes no name that is not UTF-8.
fn open<R: Files>(rt: &R, name: &[u8]) -> io::Result<R::File> {
    match str::from_utf8(name) {
        Ok(path) => fs::open(rt, path),
        Err(_) => Err(io::Error::new(io::ErrorKind::InvalidFilename, "the name is not UTF-8")),
    }
}

// Reads the beginning of the file of that name.
fn read_file<R: Files>(rt: &R, name: &[u8], buffer: &mut [u8]) -> io::Result<usize>
    ensures { ReadWithin result (length buffer.new) }
{
    let mut file = open(rt, name)?;
    read_front(&mut file, buffer)
}

// The name that an argument is, put into the buffer; how long it is.
fn name_of<R: Env>(rt: &R, i: usize, name: &mut [u8]) -> io::Result<usize>
    ensures { ReadWithin result (length name.new) }
{
    rt.arg(i, name).map_err(|error| {
        io::Error::from_raw_os_error(match error {
            FillError::NotPresent => EINVAL,
            FillError::TooLong => ENAMETOOLONG,
        })
    })
}

// The same of the file that an argument names.
pub fn read_argument<R: Env + Files, W: Write>(
    rt: &R,
    errors: &mut W,
    i: usize,
    buffer: &mut [u8],
) -> io::Result<usize>
    ensures { ReadWithin result (length buffer.new) }
{
    let mut name = [0u8; LONGEST_NAME];
    let length = name_of(rt, i, &mut name).inspect_err(|error| fail(
        errors,
        b"the name of a file",
        error,
    ))?;
    read_file(rt, &name[..length], buffer).inspect_err(|error| fail(errors, &name[..length], error))
}

// Whether the program was started with an argument of that number. The program's own name is argument 0.
pub fn is_given<R: Env>(rt: &R, i: usize) -> bool {
    !matches!(rt.arg(i, &mut []), Err(FillError::NotPresent))
}
