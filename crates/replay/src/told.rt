// What the Rust says on a line, held against our six numbers, and of many names and of what is written against our words, too:
//
//     accepts COUNT END     child COUNT END     at START END     found FIELD ID START END     absent     refuses NUMBER     refuses NUMBER START
//     rows COUNT END : CODE FIELD ID START END ..     reads KIND LOW HIGH     writes COUNT LENGTH : BYTE ..
//     lays COUNT START LENGTH : BYTE ..     wants HELD
use answers::Answer;
use operands::ends;
use outcomes::expected::{has_filled, see, see_all};
use part::Span;
use text::word;

// Whether the text has just these numbers.
fn just(text: &[u8], wants: &[usize]) -> bool {
    see_all(text, 0, wants).is_some_and(|next| ends(text, next))
}

// Whether the words between code and place are 0, but for the start.
fn gives_nothing(a: Answer) -> bool {
    a.number == 0 && a.id == 0 && a.end == 0
}

// The number, and of a tree the start of the value that it is of; where none is told, it is 0.
fn refused(text: &[u8], a: Answer) -> bool {
    let Some(next) = see(text, 0, a.code) else {
        return false;
    };
    let start_is_told = if ends(text, next) {
        a.start == 0
    } else {
        see(text, next, a.start).is_some_and(|next| ends(text, next))
    };
    gives_nothing(a) && start_is_told
}

fn accepted(verb: &[u8], rest: &[u8], a: Answer) -> bool {
    if a.place != 0 {
        return false;
    }
    match verb {
        b"found" => just(rest, &[a.number, a.id, a.start, a.end]),
        b"reads" => a.id == 0 && just(rest, &[a.number, a.start, a.end]),
        b"accepts" | b"child" => a.id == 0 && just(rest, &[a.number, a.end]),
        b"at" => a.id == 0 && a.number == 0 && just(rest, &[a.start, a.end]),
        _ => false,
    }
}

fn absent(a: Answer) -> bool {
    a.place == 0 && a.start == 0 && gives_nothing(a)
}

// Of pieces, how many bytes are held; how many are wanted is not told.
fn wants(rest: &[u8], a: Answer) -> bool {
    a.id == 0 && a.start == 0 && a.place == 0 && just(rest, &[a.number])
}

pub fn agrees(words: &[u8], a: Answer) -> bool {
    let Span { start, end } = word(words, 0);
    let verb = &words[start..end];
    let rest = &words[end..];
    match (a.code, verb) {
        (_, b"refuses") => refused(rest, a),
        (0, _) => accepted(verb, rest, a),
        (1, b"absent") => absent(a),
        (3, b"wants") => wants(rest, a),
        _ => false,
    }
}

// Whether the text has these numbers, and after them the `n` words that we filled.
fn filled(text: &[u8], wants: &[usize], words: &[u32], n: usize) -> bool {
    see_all(text, 0, wants).is_some_and(|next| has_filled(text, next, words, n))
}

// Of many names, and of what is written. A dictionary has no start.
pub fn agrees_rows(text: &[u8], a: Answer, words: &[u32], n: usize) -> bool {
    let Span { start, end } = word(text, 0);
    let rest = &text[end..];
    if a.id != 0 || a.place != 0 {
        return false;
    }
    match &text[start..end] {
        b"rows" => filled(rest, &[a.number, a.end], words, n),
        b"lays" => filled(rest, &[a.number, a.start, a.end], words, n),
        b"writes" => a.start == 0 && filled(rest, &[a.number, a.end], words, n),
        _ => false,
    }
}
