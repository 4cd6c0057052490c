// Lines of standard input, into a room that may be shorter than they are.
#![tactic(auto)]

ghost use Rattle.std.specs.Prelude.{◌≤◌, length, IfOk};

use std::io;
use std::io::Read as Reader;

// What was read and not yet taken: the bytes of the chunk from `at` to `have`.
#[derive(Clone, Copy)]
pub struct Source {
    at: usize,
    have: usize,
}

// Before the first line: nothing was read.
pub fn start() -> Source {
    Source { at: 0, have: 0 }
}

// The next byte; None where the input has ended.
fn take(rt: &impl Input, chunk: &mut [u8], source: &mut Source) -> io::Result<Option<u8>> {
    let at = source.at;
    if at < source.have && at < chunk.len() {
        source.at += 1;
        return Ok(Some(chunk[at]));
    }
    let have = rt.reader().read(chunk)?;
    if have == 0 {
        return Ok(None);
    }
    *source = Source { at: 1, have };
    Ok(Some(chunk[0]))
}

// A line: its first `len` bytes are in the room lent. It is long where there were more, and the last where the input ended. Of a line that
// could not be read to its end there is nothing.
#[derive(Drop)]
pub struct Read {
    pub len: usize,
    pub long: bool,
    pub last: bool,
    pub source: Source,
}

// The last line.
fn ended(len: usize, long: bool, source: Source) -> Read
    ensures { result.len ≤ len }
{
    Read {
        len,
        long,
        last: true,
        source,
    }
}

// Why standard input cannot be read, on a line of its answers.
fn failed(rt: &impl Print, error: &io::Error) -> io::Result<()> {
    files::input_failed(&mut io::writer(rt), b"? ", error)
}

pub fn read_line(
    rt: &(impl Input + Print),
    chunk: &mut [u8],
    line: &mut [u8],
    from: Source,
) -> io::Result<Read>
    ensures { IfOk result (λ read. read.len ≤ length line.new) }
{
    let mut source = from;
    let mut len: usize = 0;
    let mut long = false;
    for _ in 0..u64::MAX {
        match take(rt, chunk, &mut source) {
            Err(error) => {
                failed(rt, &error)?;
                return Ok(ended(0, false, source));
            }
            Ok(None) => return Ok(ended(len, long, source)),
            Ok(Some(b'\n')) => {
                return Ok(Read {
                    len,
                    long,
                    last: false,
                    source,
                });
            }
            Ok(Some(b)) => {
                if len < line.len() {
                    line[len] = b;
                    len += 1;
                } else {
                    long = true;
                }
            }
        }
    }
    Ok(ended(len, long, source))
}
