// Questions from standard input, a line each, and their answers to standard output.
use cases::ENDS;
use lines::read_line;
use print::room::{ROOM, use_library};
use print::{room, tell};
use std::io;

// How much of standard input is read at once.
const CHUNK: usize = 65_536;

// The characters of the longest line that is answered.
const LINE: usize = 300_000;

fn answer(rt: &impl Print, line: &[u8]) -> io::Result<()> {
    let mut ends = [0u32; ENDS];
    let mut lent = room::words();
    let words: &mut [u32] = &mut lent;
    let outcome = cases::answer(
        line,
        &mut room::bytes(),
        &mut room::bytes(),
        &mut room::bytes(),
        &mut ends,
        words,
    );
    outcomes::write(rt, outcome, words, ROOM)?;
    tell(rt, b"\n")
}

fn answer_line(rt: &impl Print, line: &[u8], long: bool) -> io::Result<()> {
    if long {
        tell(rt, b"? the line is")?;
        use_library(&mut io::writer(rt), LINE, b" characters")?;
        tell(rt, b"\n")
    } else {
        answer(rt, line)
    }
}

// The lines of standard input, through rooms for a chunk of it and for a line.
fn answer_lines(rt: &(impl Input + Print), chunk: &mut [u8], line: &mut [u8]) -> io::Result<()> {
    let mut source = lines::start();
    for _ in 0..u64::MAX {
        let read = read_line(rt, chunk, line, source)?;
        if read.last && read.len == 0 {
            return Ok(());
        }
        let n = read.len;
        answer_line(rt, &line[0..n], read.long)?;
        if read.last {
            return Ok(());
        }
        source = read.source;
    }
    Ok(())
}

fn line_room() -> [u8; LINE] {
    [0; LINE]
}

fn chunk_room() -> [u8; CHUNK] {
    [0; CHUNK]
}

pub fn run(rt: &(impl Input + Print)) -> io::Result<()> {
    answer_lines(rt, &mut chunk_room(), &mut line_room())
}
