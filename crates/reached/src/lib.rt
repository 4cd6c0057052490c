// What stands at the end of a path, or why nothing does, as words to standard output: what is here promises safety only.
#![tactic(auto)]

use answers::Answer;
use ask_into::STEPS;
use print::{quoted, room, tell, wide};
use slices::part_of;
use speak::bits_of;
use std::io;

// The first word of a step.
const BY_NAME: u32 = 0;

const BY_INDEX: u32 = 1;

// What the words hold before the call, and past those of the steps after it.
const NO_STEP: u32 = 2;

// A step, by the part of the names that it is from `start` to `end`, or by an index.
#[derive(Clone, Copy)]
enum Step {
    Name { start: usize, end: usize },
    Index(usize),
}

// Step k, if there are so many.
fn step_at(words: &[u32], k: usize) -> Option<Step> {
    if words.len() / 3 <= k {
        return None;
    }
    let at = 3 * k;
    let low = wide(words[at + 1]);
    let high = wide(words[at + 2]);
    match words[at] {
        BY_NAME => Some(Step::Name {
            start: low,
            end: high,
        }),
        BY_INDEX => Some(Step::Index(bits_of(low, high))),
        _ => None,
    }
}

// The last step; the empty path has none.
fn last(words: &[u32]) -> Option<Step> {
    let mut last = None;
    for k in 0..words.len() {
        let next = step_at(words, k);
        if next.is_none() {
            return last;
        }
        last = next;
    }
    last
}

// What a step asks of a value that has no such.
fn wrong_kind(rt: &impl Print, names: &[u8], step: Step) -> io::Result<()> {
    match step {
        Step::Name { start, end } => {
            tell(rt, b"it asks for the name ")?;
            quoted(rt, part_of(names, start, end))?;
            tell(rt, b" of a value that is no object")
        }
        Step::Index(index) => {
            print!(rt; "it asks for element {index} of a value that is no list")
        }
    }
}

// 20 and 21 are of any value that is stepped into.
fn meaning(rt: &impl Print, a: Answer, names: &[u8], words: &[u32]) -> io::Result<()> {
    let code = a.code;
    match code {
        20 => reasons::above_limit(&mut io::writer(rt), b"a value on the way"),
        21 => tell(rt, b"a value on the way has no bytes"),
        53 => match step_at(words, a.place) {
            Some(step) => wrong_kind(rt, names, step),
            None => reasons::meaning(rt, code),
        },
        _ => reasons::meaning(rt, code),
    }
}

fn refused(rt: &impl Print, a: Answer, names: &[u8], words: &[u32]) -> io::Result<()> {
    reasons::number(rt, a.code, a.place)?;
    meaning(rt, a, names, words)?;
    tell(rt, b"\n")
}

// What was found, by the last step.
fn found(rt: &impl Print, whole: &[u8], a: Answer, last: Option<Step>) -> io::Result<()> {
    match last {
        Some(Step::Name { .. }) => speak::field(rt, whole, a),
        Some(Step::Index(_)) => {
            print!(rt; "found: element {}, its value", a.number)?;
            speak::standing(rt, whole, a.start, a.end)
        }
        None => {
            tell(rt, b"found: the whole value,")?;
            speak::standing(rt, whole, a.start, a.end)
        }
    }
}

pub fn get(rt: &impl Print, dict: &[u8], value: &[u8], path: &[u8]) -> io::Result<()> {
    let mut names = room::bytes();
    let mut steps = [NO_STEP; STEPS];
    let words: &mut [u32] = &mut steps;
    let a = ask_into::path(dict, value, path, &mut names, words);
    if a.code == 0 {
        found(rt, value, a, last(words))
    } else if a.code == 1 {
        tell(rt, b"absent\n")
    } else {
        refused(rt, a, &names, words)
    }
}
