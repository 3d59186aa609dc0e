// The files that a program's arguments name, each of them a case.
ghost use Rattle.io.specs.Counts.{IsPrefixLen};
ghost use Rattle.program_io.specs.Input.{count_of};

use crate::report::{Cut, read_all, say, write_all};
use std::env::FillError;
use std::io::{Error, ErrorKind, Write};
use std::rt::{Env, Files};
use std::str::from_utf8;
use std::{fs, io};

// Room for any path.
pub const NAME_ROOM: usize = 4096;

// Room for the numbers that a tool takes, and for one byte more than a session may have.
pub const CASE_ROOM: usize = 65700;

// A file open for reading, none where that failed, and how long its name is.
#[derive(Drop)]
pub struct Case<F> {
    pub file: Option<F>,
    pub length: usize,
}

fn why_no_argument(error: FillError) -> Error {
    match error {
        FillError::NotPresent => Error::from(ErrorKind::InvalidInput),
        FillError::TooLong => Error::from(ErrorKind::InvalidFilename),
    }
}

// A path has to be text.
fn open<R: Files>(rt: &R, name: &[u8]) -> io::Result<R::File> {
    match from_utf8(name) {
        Ok(path) => fs::open(rt, path),
        Err(_) => Err(Error::from(ErrorKind::InvalidFilename)),
    }
}

// The line of a case's name; whether it was written.
fn print_name(name: &[u8], to: &mut impl Write, errors: &mut impl Write) -> bool {
    let what = b"output";
    write_all(to, b"# ", what, errors)
        && write_all(to, name, what, errors)
        && write_all(to, b"\n", what, errors)
}

// Stays (5): handle, number and writers are no struct; three functions pass them, once each.
// Writes # and the i-th argument, and opens the file of that name. What fails is said on standard error.
pub fn open_case<R: Env + Files>(
    rt: &R,
    i: usize,
    name: &mut [u8],
    to: &mut impl Write,
    errors: &mut impl Write,
) -> Case<R::File>
    ensures { IsPrefixLen result.length name.new }
{
    let length = match rt.arg(i, name) {
        Ok(length) => length,
        Err(e) => {
            say(errors, b"argument", why_no_argument(e));
            return Case {
                file: None,
                length: 0,
            };
        }
    };
    let text = &name[..length];
    print_name(text, to, errors);
    match open(rt, text) {
        Ok(file) => Case {
            file: Some(file),
            length,
        },
        Err(e) => {
            say(errors, text, e);
            Case { file: None, length }
        }
    }
}

// The same, and reads the file.
pub fn read_case<R: Env + Files>(
    rt: &R,
    i: usize,
    file: &mut [u8],
    to: &mut impl Write,
    errors: &mut impl Write,
) -> Result<usize, Cut>
    ensures { IsPrefixLen (count_of result) file.new }
{
    let mut name = [0; NAME_ROOM];
    let case = open_case(rt, i, &mut name, to, errors);
    let length = case.length;
    match case.file {
        None => Err(Cut { count: 0 }),
        Some(mut from) => read_all(&mut from, file, &name[..length], errors),
    }
}
