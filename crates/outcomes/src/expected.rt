// Whether an answer is the one that a text has, written as `write` writes it.
use crate::Outcome;
use answers::Answer;
use operands::{Fault, ends};
use part::Span;
use print::wide;
use text::{number, word};

// Where the text goes on after the number, if that stands there.
pub fn see(text: &[u8], from: usize, want: usize) -> Option<usize> {
    let Span { start, end } = word(text, from);
    if number(&text[start..end])? == want {
        Some(end)
    } else {
        None
    }
}

// And after numbers, one after another.
pub fn see_all(text: &[u8], from: usize, wants: &[usize]) -> Option<usize> {
    let mut at = from;
    for &want in wants {
        at = see(text, at, want)?;
    }
    Some(at)
}

fn see_six(text: &[u8], a: Answer) -> Option<usize> {
    see_all(text, 0, &[a.code, a.number, a.id, a.start, a.end, a.place])
}

// Whether the text from `from` on has the words, and no more.
fn has_words(text: &[u8], from: usize, words: &[u32]) -> bool {
    let mut at = from;
    for &want in words {
        let Some(next) = see(text, at, wide(want)) else {
            return false;
        };
        at = next;
    }
    ends(text, at)
}

// Whether the text from `from` on has a colon, the first `n` words, and no more.
pub fn has_filled(text: &[u8], from: usize, words: &[u32], n: usize) -> bool {
    let Span { start, end } = word(text, from);
    matches!(&text[start..end], b":") && n <= words.len() && has_words(text, end, &words[0..n])
}

pub fn is(text: &[u8], outcome: Result<Outcome, Fault>, words: &[u32]) -> bool {
    match outcome {
        Ok(Outcome::Answered(a)) => see_six(text, a).is_some_and(|next| ends(text, next)),
        Ok(Outcome::Listed { answer, filled }) => {
            see_six(text, answer).is_some_and(|next| has_filled(text, next, words, filled))
        }
        Err(_) => false,
    }
}
