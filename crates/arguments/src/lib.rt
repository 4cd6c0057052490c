// The words that a command was given, into rooms lent. What is too long for its room gets a message to standard output.
#![tactic(auto)]

ghost use Rattle.std.specs.Prelude.{◌≤◌, length, IfOk, IfSome};

use print::room::{ROOM, longer_than, use_library};
use print::{say, tell};
use std::env::{Env, FillError};
use std::io;

// How many words there are, the program's name among them.
pub fn count(rt: &impl Env) -> usize {
    for i in 0..usize::MAX {
        match rt.arg(i, &mut []) {
            Err(FillError::NotPresent) => return i,
            _ => {}
        }
    }
    usize::MAX
}

// A word of the command: the first so many bytes of the room lent, none where it is missing; and None where it does not fit.
// One that is longer than the room is not taken: cut short it would name another file.
pub fn argument(rt: &(impl Env + Print), i: usize, out: &mut [u8]) -> io::Result<Option<usize>>
    ensures { IfOk result (λ word. IfSome word (λ len. len ≤ length out.new)) }
{
    match rt.arg(i, out) {
        Ok(len) => Ok(Some(len)),
        Err(FillError::NotPresent) => Ok(Some(0)),
        Err(FillError::TooLong) => {
            say(rt, b"argument ", i)?;
            tell(rt, b" is")?;
            longer_than(&mut io::writer(rt), out.len(), b" bytes")?;
            tell(rt, b"\n")?;
            Ok(None)
        }
    }
}

// The names that were gathered: the first `len` bytes of a run, and the first `count` ends.
#[derive(Clone, Copy)]
pub struct Names {
    pub len: usize,
    pub count: usize,
}

fn too_long(rt: &impl Print, count: usize) -> io::Result<()> {
    if count == 5 {
        tell(rt, b"NAME is")?;
    } else {
        tell(rt, b"the names together are")?;
    }
    use_library(&mut io::writer(rt), ROOM, b" bytes")?;
    tell(rt, b"\n")
}

// Of `count` arguments those after DICT and OBJECT, as far as there is room for their ends; None where they do not fit.
pub fn gather(
    rt: &(impl Env + Print),
    count: usize,
    run: &mut [u8],
    ends: &mut [u32],
) -> io::Result<Option<Names>>
    requires { length run.old ≤ ROOM }
    ensures { IfOk result (λ all. IfSome all (λ names. (names.len ≤ length run.new) × (names.count ≤ length ends.new))) }
{
    let names = count.saturating_sub(4).min(ends.len());
    let mut at: usize = 0;
    for k in 0..names {
        match rt.arg(4 + k, &mut run[at..]) {
            Err(_) => {
                too_long(rt, count)?;
                return Ok(None);
            }
            Ok(n) => {
                at += n;
                ends[k] = at as u32;
            }
        }
    }
    Ok(Some(Names {
        len: at,
        count: names,
    }))
}
