// A file's bytes, or why it cannot be read. What cannot be read to its end is not read.
#![tactic(auto)]

ghost use Rattle.std.specs.Prelude.{◌≤◌, length, IfOk, IfSome};

use print::room::{ROOM, use_library};
use print::{quoted_to, tell_to};
use std::io::{ErrorKind, Read, Write};
use std::rt::Files;
use std::{fs, io, str};

// What a file is read into: a byte more than a program has room for, so that a longer file is seen.
pub const LENT: usize = ROOM + 1;

// A name that is no text is InvalidData, since `std` opens no file by one; no file's own error is that.
fn why(to: &mut impl Write, error: &io::Error) -> io::Result<()> {
    match error.kind() {
        ErrorKind::NotFound => tell_to(to, b"there is no such file\n"),
        ErrorKind::PermissionDenied => tell_to(to, b"that is not allowed\n"),
        ErrorKind::IsADirectory => tell_to(to, b"it is a folder\n"),
        ErrorKind::InvalidFilename => tell_to(to, b"its name is too long\n"),
        ErrorKind::InvalidData => tell_to(to, b"its name is not UTF-8\n"),
        _ => tell_to(to, b"the system refuses\n"),
    }
}

fn cannot(to: &mut impl Write, path: &[u8]) -> io::Result<()> {
    tell_to(to, b"cannot read ")?;
    quoted_to(to, path)?;
    tell_to(to, b": ")
}

fn failed(to: &mut impl Write, path: &[u8], error: &io::Error) -> io::Result<()> {
    cannot(to, path)?;
    why(to, error)
}

// The same of standard input, after some words.
pub fn input_failed(to: &mut impl Write, before: &[u8], error: &io::Error) -> io::Result<()> {
    tell_to(to, before)?;
    tell_to(to, b"cannot read standard input: ")?;
    why(to, error)
}

fn too_long(to: &mut impl Write, path: &[u8]) -> io::Result<()> {
    cannot(to, path)?;
    tell_to(to, b"it is")?;
    use_library(to, ROOM, b" bytes")?;
    tell_to(to, b"\n")
}

// As much of what can be read as there is room for. A read that fails, the first or a later one, is the answer, and what came before it is not counted.
pub fn read(from: &mut impl Read, out: &mut [u8]) -> io::Result<usize>
    ensures { IfOk result (λ len. len ≤ length out.new) }
{
    // No `for`: a read gives as many bytes as it likes.
    let mut len: usize = 0;
    while len < out.len() {
        let n = from.read(&mut out[len..])?;
        if n == 0 {
            return Ok(len);
        }
        len += n;
    }
    Ok(len)
}

// The file of a name.
pub fn open<R: Files>(rt: &R, path: &[u8]) -> io::Result<R::File> {
    match str::from_utf8(path) {
        Ok(name) => fs::open(rt, name),
        Err(_) => Err(io::Error::from(ErrorKind::InvalidData)),
    }
}

// A line to standard error: the file that a program needs, and why it cannot be had.
pub fn fail(rt: &impl Eprint, path: &[u8], error: &io::Error) -> io::Result<()> {
    match str::from_utf8(path) {
        Ok(name) => eprintln!(rt; "{name}: {error}"),
        Err(_) => eprintln!(rt; "{error}"),
    }
}

fn read_file(rt: &impl Files, path: &[u8], out: &mut [u8]) -> io::Result<usize>
    ensures { IfOk result (λ len. len ≤ length out.new) }
{
    read(&mut open(rt, path)?, out)
}

// All of a file, and how long it is; None where it cannot be read, and why goes to `to`.
pub fn load_to(
    rt: &impl Files,
    to: &mut impl Write,
    path: &[u8],
    out: &mut [u8; LENT],
) -> io::Result<Option<usize>>
    ensures len_bound { IfOk result (λ file. IfSome file (λ len. len ≤ ROOM)) }
    ensures len_in_bounds { IfOk result (λ file. IfSome file (λ len. len ≤ length out.new)) }
{
    match read_file(rt, path, out) {
        Err(error) => {
            failed(to, path, &error)?;
            Ok(None)
        }
        Ok(file_len) => {
            if ROOM < file_len {
                too_long(to, path)?;
                return Ok(None);
            }
            Ok(Some(file_len))
        }
    }
}

pub fn load(
    rt: &(impl Files + Print),
    path: &[u8],
    out: &mut [u8; LENT],
) -> io::Result<Option<usize>>
    ensures len_bound { IfOk result (λ file. IfSome file (λ len. len ≤ ROOM)) }
    ensures len_in_bounds { IfOk result (λ file. IfSome file (λ len. len ≤ length out.new)) }
{
    load_to(rt, &mut io::writer(rt), path, out)
}

// The same of standard input, or of what is read in its place.
pub fn input(
    from: &mut impl Read,
    to: &mut impl Write,
    out: &mut [u8; LENT],
) -> io::Result<Option<usize>>
    ensures len_bound { IfOk result (λ file. IfSome file (λ len. len ≤ ROOM)) }
    ensures len_in_bounds { IfOk result (λ file. IfSome file (λ len. len ≤ length out.new)) }
{
    match read(from, out) {
        Err(error) => {
            input_failed(to, b"", &error)?;
            Ok(None)
        }
        Ok(text_len) => {
            if ROOM < text_len {
                tell_to(to, b"standard input is")?;
                use_library(to, ROOM, b" bytes")?;
                tell_to(to, b"\n")?;
                return Ok(None);
            }
            Ok(Some(text_len))
        }
    }
}
