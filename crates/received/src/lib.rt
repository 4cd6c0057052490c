// A dictionary that is received in pieces, and what is said of it to standard output: what is here promises safety only.
#![tactic(auto)]

use answers::Answer;
use ask_pieces::MORE;
use print::room::{ROOM, use_library};
use print::{counted, room, tell};
use reasons::{number, verdict, why};
use std::io;
use std::io::Read;
use strip::STRIP;

// How much of the input is read at once.
const CHUNK: usize = 4096;

// The pieces that `input` hands over, until the verdict settles or there are no more; what comes after is not read. Each has a byte or more, so
// that the last turn has one more than there is room for. It is the last answer, or why the input could not be read.
fn receive(input: &mut impl Read, chunk: &mut [u8], store: &mut [u8; ROOM]) -> io::Result<Answer> {
    let mut strip = [0u8; STRIP];
    let mut answer = ask_pieces::begin(&mut strip);
    for _ in 0..=ROOM {
        let n = input.read(chunk)?;
        if n == 0 {
            return Ok(answer);
        }
        answer = ask_pieces::feed(store, &chunk[0..n], &mut strip);
        if answer.code != MORE {
            return Ok(answer);
        }
    }
    Ok(answer)
}

// The input ended while more was wanted: what came is refused as if it were the whole.
fn wanting(rt: &impl Print, held: usize, wanted: usize) -> io::Result<()> {
    if held == 0 {
        why(rt, 11, 0)?;
    } else {
        why(rt, 13, 0)?;
    }
    counted(rt, b"; ", held, b" byte came", b" bytes came")?;
    counted(
        rt,
        b", at least ",
        wanted,
        b" is wanted\n",
        b" are wanted\n",
    )
}

fn too_long(rt: &impl Print) -> io::Result<()> {
    number(rt, 44, 0)?;
    tell(rt, b"the dictionary is")?;
    use_library(&mut io::writer(rt), ROOM, b" bytes")?;
    tell(rt, b"\n")
}

fn say(rt: &impl Print, a: Answer) -> io::Result<()> {
    if a.code == MORE {
        wanting(rt, a.number, a.end)
    } else if a.code == 44 {
        too_long(rt)
    } else {
        verdict(rt, a)
    }
}

// What `input` gives is fed piece by piece, and its verdict said.
pub fn check(rt: &impl Print, input: &mut impl Read) -> io::Result<()> {
    match receive(input, &mut [0; CHUNK], &mut room::bytes()) {
        Ok(last) => say(rt, last),
        Err(error) => files::input_failed(&mut io::writer(rt), b"", &error),
    }
}
