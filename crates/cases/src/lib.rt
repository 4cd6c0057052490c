// A question on a line, and its answer:
//
//     dictionary D     name D N     layer D O     lookup D O NAME     list D O ROOM     all D O RUN ROOM END ..     value V     tree D V
//     path D V PATH     write RUN ROOM END ..     write-object D BYTES ROOM WORD ..     pieces ROOM PIECE ..
//
// D, O, NAME, RUN, V, PATH, BYTES and PIECE are bytes in hex, `-` for none; N is an entry's number, ROOM how many words the answer may fill, of
// what is written how many bytes, and of what comes in pieces how many bytes the store has. RUN is names, one after another, to be looked up or
// written, and after ROOM comes where each ends; of an object come the words of its pairs, id, start and end in BYTES. Of pieces the answer is the
// one to the last.
#![tactic(auto)]

mod fed;

use answers::Answer;
use ask_into::STEPS;
use operands::{Fault, Operands, Tail};
use outcomes::Outcome;
use part::Span;
use print::room;
use slices::{first, part_of, spread};
use text::word;

// The most ends, or words of pairs, that a program has room for: so many names are sorted with scratch.
pub const ENDS: usize = 16_384;

// What is asked of words that are read before the call. Of pieces each is read and fed.
#[derive(Clone, Copy)]
enum Verb {
    Dictionary,
    Name,
    Layer,
    Lookup,
    List,
    All,
    Value,
    Tree,
    Path,
    Write,
    WriteObject,
}

fn verb_of(word: &[u8]) -> Result<Verb, Fault> {
    match word {
        b"dictionary" => Ok(Verb::Dictionary),
        b"name" => Ok(Verb::Name),
        b"layer" => Ok(Verb::Layer),
        b"lookup" => Ok(Verb::Lookup),
        b"list" => Ok(Verb::List),
        b"all" => Ok(Verb::All),
        b"value" => Ok(Verb::Value),
        b"tree" => Ok(Verb::Tree),
        b"path" => Ok(Verb::Path),
        b"write" => Ok(Verb::Write),
        b"write-object" => Ok(Verb::WriteObject),
        _ => Err(Fault::Unknown),
    }
}

// How many of its words are bytes.
fn rooms(verb: Verb) -> usize {
    match verb {
        Verb::Dictionary | Verb::Name | Verb::Value | Verb::Write => 1,
        Verb::Layer | Verb::List | Verb::Tree | Verb::WriteObject => 2,
        Verb::Lookup | Verb::All | Verb::Path => 3,
    }
}

// And what comes after them.
fn tail(verb: Verb) -> Tail {
    match verb {
        Verb::Name | Verb::List => Tail::Number,
        Verb::All | Verb::Write | Verb::WriteObject => Tail::Numbers,
        Verb::Dictionary | Verb::Layer | Verb::Lookup | Verb::Value | Verb::Tree | Verb::Path =>
            Tail::Nothing,
    }
}

// By path, with room for the steps of the longest.
fn walk(dict: &[u8], value: &[u8], path: &[u8]) -> Answer {
    let mut names = room::bytes();
    let mut words = [0u32; STEPS];
    ask_into::path(dict, value, path, &mut names, &mut words)
}

// The answer with the first `filled` words, where it has some.
fn listed(answer: Answer, filled: usize) -> Outcome {
    if answer.code == 0 {
        return Outcome::Listed { answer, filled };
    }
    Outcome::Answered(answer)
}

// How many of `room` words so many rows fill; none where they have no room.
fn filled(rows: usize, width: usize, room: usize) -> usize {
    match rows.checked_mul(width) {
        Some(n) if n <= room => n,
        _ => 0,
    }
}

// The first `n` of what is lent.
fn room_of<T>(lent: &mut [T], n: usize) -> Result<&mut [T], Fault> {
    if lent.len() < n {
        return Err(Fault::NoRoom);
    }
    Ok(&mut lent[0..n])
}

// Room for `n` bytes, which is no more than there are words for them.
fn byte_room<'a>(lent: &'a mut [u8], n: usize, words: &[u32]) -> Result<&'a mut [u8], Fault> {
    if words.len() < n {
        return Err(Fault::NoRoom);
    }
    room_of(lent, n)
}

fn list(dict: &[u8], object: &[u8], room: usize, words: &mut [u32]) -> Result<Outcome, Fault> {
    let a = ask_into::list(dict, object, room_of(words, room)?);
    Ok(listed(a, filled(a.number, 3, room)))
}

fn all(
    dict: &[u8],
    object: &[u8],
    run: &[u8],
    ends: &[u32],
    room: usize,
    words: &mut [u32],
) -> Result<Outcome, Fault> {
    let a = ask_into::lookup_all(dict, object, run, ends, room_of(words, room)?);
    Ok(listed(a, filled(ends.len(), 5, room)))
}

// The dictionary of names, with scratch for the most ends.
fn compose(run: &[u8], ends: &[u32], n: usize, words: &mut [u32]) -> Result<Outcome, Fault> {
    let mut lent = room::bytes();
    let bytes: &mut [u8] = &mut lent;
    let room = byte_room(bytes, n, words)?;
    let mut order = [0u32; ENDS];
    let mut spare = [0u32; ENDS];
    let a = ask_into::write_dictionary(run, ends, &mut order, &mut spare, room);
    Ok(listed(a, spread(part_of(bytes, 0, a.end), words)))
}

// And the object of pairs.
fn assemble(
    dict: &[u8],
    children: &[u8],
    pairs: &[u32],
    n: usize,
    words: &mut [u32],
) -> Result<Outcome, Fault> {
    let mut lent = room::bytes();
    let bytes: &mut [u8] = &mut lent;
    let room = byte_room(bytes, n, words)?;
    let mut order = [0u32; ENDS];
    let mut spare = [0u32; ENDS];
    let a = ask_into::write_object(dict, children, pairs, &mut order, &mut spare, room);
    Ok(listed(a, spread(part_of(bytes, 0, a.end), words)))
}

// What is asked of the operands that were read.
fn asked(
    verb: Verb,
    read: Operands,
    one: &[u8],
    two: &[u8],
    three: &[u8],
    ends: &[u32],
    words: &mut [u32],
) -> Result<Outcome, Fault> {
    let one = part_of(one, 0, read.one);
    let two = part_of(two, 0, read.two);
    let three = part_of(three, 0, read.three);
    let ends = first(ends, read.more);
    let n = read.number;
    let answer = match verb {
        Verb::Dictionary => ask::dictionary(one),
        Verb::Name => ask::name(one, n),
        Verb::Layer => ask::layer(one, two),
        Verb::Lookup => ask::lookup(one, two, three),
        Verb::List => return list(one, two, n, words),
        Verb::All => return all(one, two, three, ends, n, words),
        Verb::Value => ask::value(one),
        Verb::Tree => ask::tree(one, two),
        Verb::Path => walk(one, two, three),
        Verb::Write => return compose(one, ends, n, words),
        Verb::WriteObject => return assemble(one, two, ends, n, words),
    };
    Ok(Outcome::Answered(answer))
}

// The answer to a line. The bytes and the ends go into the rooms lent, and the words that are filled to the start of `words`.
pub fn answer(
    line: &[u8],
    one: &mut [u8],
    two: &mut [u8],
    three: &mut [u8],
    ends: &mut [u32],
    words: &mut [u32],
) -> Result<Outcome, Fault> {
    let Span { start, end } = word(line, 0);
    let first = &line[start..end];
    if matches!(first, b"pieces") {
        return fed::pieces(line, end, one, two);
    }
    let verb = verb_of(first)?;
    let read = operands::read(line, end, rooms(verb), tail(verb), one, two, three, ends)?;
    asked(verb, read, one, two, three, ends, words)
}
