// Runs the worked cases that the tables of starred cases do not prove, and the vectors of the Rust's documentation, each against the
// answer that is expected of it. Most are lines of data/cases, data/object_cases and data/piece_cases, `name: question = answer`; those of
// what stands in rooms lent are lines of data/children, data/paths, data/writes, data/objects and data/states, and the others are in
// special.rt, with their answers. A line a case: its name, the answer, and whether it is as expected.
//
// The vectors of builder.rs and of variant.rs's objects are the bytes that the Rust's builder makes in those examples.
#![tactic(auto)]

mod children;
mod paths;
mod report;
mod special;
mod states;
mod writes;

use crate::writes::What;
use operands::Fault;
use outcomes::Outcome;
use std::io;
use std::rt::Files;
use tally::Tally;
use text::find;

// As many bytes as a word of the table has, and some; and as many words as an answer of it has.
const ROOM: usize = 320;

// The bytes of a table, and more.
const TABLE: usize = 65_536;

fn judge(
    rt: &impl Print,
    t: Tally,
    want: &[u8],
    outcome: Result<Outcome, Fault>,
    words: &[u32],
) -> io::Result<Tally> {
    outcomes::write(rt, outcome, words, ROOM)?;
    if outcomes::expected::is(want, outcome, words) {
        return report::good(rt, t);
    }
    print::tell(rt, b": NOT as expected:")?;
    print::tell(rt, want)?;
    report::bad(rt, t)
}

fn answer(rt: &impl Print, t: Tally, question: &[u8], want: &[u8]) -> io::Result<Tally> {
    let mut dict = [0u8; ROOM];
    let mut object = [0u8; ROOM];
    let mut query = [0u8; ROOM];
    let mut ends = [0u32; 32];
    let mut room = [0u32; ROOM];
    let words: &mut [u32] = &mut room;
    let outcome = cases::answer(
        question,
        &mut dict,
        &mut object,
        &mut query,
        &mut ends,
        words,
    );
    judge(rt, t, want, outcome, words)
}

// A line of the table, without its end. One that is no case is not as expected.
fn question(rt: &impl Print, t: Tally, line: &[u8]) -> io::Result<Tally> {
    let colon = find(line, 0, b':');
    print::tell(rt, &line[0..colon])?;
    print::tell(rt, b": ")?;
    let equals = find(line, colon, b'=');
    let n = line.len();
    if equals == n {
        return report::no_case(rt, t);
    }
    let from = colon + 1;
    let after = equals + 1;
    if equals < from {
        return report::no_case(rt, t);
    }
    answer(rt, t, &line[from..equals], &line[after..n])
}

// Each line of a table to what judges such a line.
fn run<F: Fn(Tally, &[u8]) -> io::Result<Tally>>(
    tally: Tally,
    text: &[u8],
    case: F,
) -> io::Result<Tally>
    requires { F.IsAlwaysCallable case }
{
    let mut t = tally;
    for piece in text.split_inclusive(|b| *b == b'\n') {
        t = case(t, piece.strip_suffix(b"\n").unwrap_or(piece))?;
    }
    Ok(t)
}

fn table_room() -> [u8; TABLE] {
    [0; TABLE]
}

fn table<F: Fn(Tally, &[u8]) -> io::Result<Tally>>(
    rt: &(impl Files + Print + Eprint),
    t: Tally,
    file: &[u8],
    case: F,
) -> io::Result<Tally>
    requires { F.IsAlwaysCallable case }
{
    let mut text = table_room();
    let n = tally::load(rt, file, &mut text)?;
    run(t, &text[0..n], case)
}

fn main(rt: HostRuntime) -> io::Result<()> {
    let questions = |t, line: &[u8]| question(&rt, t, line);
    let t = table(&rt, tally::none(), b"cases", questions)?;
    let t = special::rooms(&rt, t)?;
    let t = table(
        &rt,
        t,
        b"children",
        |t, line: &[u8]| children::case(&rt, t, line),
    )?;
    let t = special::run(&rt, t)?;
    let t = table(&rt, t, b"paths", |t, line: &[u8]| paths::case(&rt, t, line))?;
    let t = table(&rt, t, b"writes", |t, line: &[u8]| {
        writes::case(&rt, t, What::Dictionary, line)
    })?;
    let t = table(&rt, t, b"object_cases", questions)?;
    let t = table(&rt, t, b"objects", |t, line: &[u8]| {
        writes::case(&rt, t, What::Object, line)
    })?;
    let t = table(&rt, t, b"piece_cases", questions)?;
    let t = table(
        &rt,
        t,
        b"states",
        |t, line: &[u8]| states::case(&rt, t, line),
    )?;
    report::close(&rt, t)
}
