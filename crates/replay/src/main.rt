// Replays answers of the Rust's that were written down (data/answers; rust/README.md says how the list is made and what a line means) and
// compares ours with each. No Rust is at hand.
#![tactic(auto)]

mod told;

use outcomes::Outcome;
use std::io;
use tally::{Tally, with};
use text::find;

fn agrees(question: &[u8], words: &[u8]) -> bool {
    let mut dict = [0u8; 256];
    let mut object = [0u8; 256];
    let mut query = [0u8; 256];
    let mut numbers = [0u32; 16];
    let mut room = [0u32; 64];
    let rows: &mut [u32] = &mut room;
    let outcome = cases::answer(
        question,
        &mut dict,
        &mut object,
        &mut query,
        &mut numbers,
        rows,
    );
    match outcome {
        Ok(Outcome::Answered(a)) => told::agrees(words, a),
        Ok(Outcome::Listed { answer, filled }) => told::agrees_rows(words, answer, rows, filled),
        Err(_) => false,
    }
}

// A line `question => what the Rust says`.
fn line_agrees(line: &[u8]) -> bool {
    let n = line.len();
    let equals = find(line, 0, b'=');
    let after = find(line, equals, b'>');
    if after == n {
        return false;
    }
    let from = after + 1;
    agrees(&line[0..equals], &line[from..n])
}

fn judge(rt: &impl Print, t: Tally, line: &[u8]) -> io::Result<Tally> {
    if line_agrees(line) {
        return Ok(with(t, true));
    }
    print::tell(rt, b"we do not agree: ")?;
    print::tell(rt, line)?;
    print::tell(rt, b"\n")?;
    Ok(with(t, false))
}

fn run(rt: &impl Print, text: &[u8]) -> io::Result<Tally> {
    let mut t = tally::none();
    for piece in text.split_inclusive(|b| *b == b'\n') {
        t = judge(rt, t, piece.strip_suffix(b"\n").unwrap_or(piece))?;
    }
    Ok(t)
}

// As many bytes as the answers have, and some.
fn room() -> [u8; 352_256] {
    [0; 352_256]
}

fn main(rt: HostRuntime) -> io::Result<()> {
    let mut text = room();
    let n = tally::load(&rt, b"answers", &mut text)?;
    let t = run(&rt, &text[0..n])?;
    println!(&rt;
        "{} answers of the Rust's, {} differ from ours",
        t.cases, t.wrong
    )
}
