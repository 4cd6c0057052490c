// Each answer as a sentence to standard output: what is here promises safety only.
#![tactic(auto)]

ghost use Rattle.std.specs.Prelude.{◌≡◌, length};

use answers::Answer;
use print::{counted, quoted, tell, wide};
use reasons::{refused, verdict, why};
use slices::part_of;
use std::io;

pub fn check_dictionary(rt: &impl Print, dict: &[u8]) -> io::Result<()> {
    verdict(rt, ask::dictionary(dict))
}

// A refusal is of the whole value, or of one inside it, to which the steps are told.
pub fn check_tree(rt: &impl Print, dict: &[u8], value: &[u8]) -> io::Result<()> {
    let a = ask::tree(dict, value);
    if a.code == 0 {
        return counted(rt, b"accepted: ", a.end, b" byte\n", b" bytes\n");
    }
    why(rt, a.code, a.place)?;
    if 0 < a.start {
        print!(rt; "; in the value from byte {} on, at ", a.start)?;
        trail::write(rt, dict, value, a.start)?;
    }
    tell(rt, b"\n")
}

pub fn name(rt: &impl Print, dict: &[u8], entry: usize) -> io::Result<()> {
    let a = ask::name(dict, entry);
    if a.code != 0 {
        return refused(rt, a.code, a.place);
    }
    print!(rt; "entry {entry} is at bytes {} to {}: ", a.start, a.end)?;
    quoted(rt, part_of(dict, a.start, a.end))?;
    tell(rt, b"\n")
}

// What a lookup answers.
fn found(rt: &impl Print, object: &[u8], a: Answer) -> io::Result<()> {
    if a.code == 1 {
        return tell(rt, b"absent\n");
    }
    if a.code != 0 {
        return refused(rt, a.code, a.place);
    }
    speak::field(rt, object, a)
}

pub fn find(rt: &impl Print, dict: &[u8], object: &[u8], name: &[u8]) -> io::Result<()> {
    found(rt, object, ask::lookup(dict, object, name))
}

// The name that was looked for, before what was found of it.
pub fn sought(rt: &impl Print, name: &[u8]) -> io::Result<()> {
    tell(rt, b"find ")?;
    quoted(rt, name)?;
    tell(rt, b": ")
}

// What the five words of a name say, as if it had been asked alone.
fn row(words: &[u32]) -> Answer
    requires { length words.now ≡ 5 }
{
    Answer {
        code: wide(words[0]),
        number: wide(words[1]),
        id: wide(words[2]),
        start: wide(words[3]),
        end: wide(words[4]),
        place: 0,
    }
}

// A line a name, in the order asked.
fn rows(
    rt: &impl Print,
    object: &[u8],
    names: &[u8],
    ends: &[u32],
    words: &[u32],
) -> io::Result<()> {
    let mut begin: usize = 0;
    let (fives, _) = words.as_chunks::<5>();
    for (end, five) in ends.iter().zip(fives) {
        let end = wide(*end);
        sought(rt, part_of(names, begin, end))?;
        found(rt, object, row(five))?;
        begin = end;
    }
    Ok(())
}

// The names that a run of bytes holds, `ends` where each ends, looked up at one check. There is room for the words of 64.
pub fn find_all(
    rt: &impl Print,
    dict: &[u8],
    object: &[u8],
    names: &[u8],
    ends: &[u32],
) -> io::Result<()> {
    let mut room = [0u32; 320];
    let words: &mut [u32] = &mut room;
    let a = ask_into::lookup_all(dict, object, names, ends, words);
    if a.code != 0 {
        return refused(rt, a.code, a.place);
    }
    rows(rt, object, names, ends, words)
}
