// The words of a question after its verb: bytes in hex, `-` for none, into rooms lent; then numbers.
#![tactic(auto)]

ghost use Rattle.std.specs.Prelude.{◌≤◌, ◌<◌, min, length, IfOk};

use part::Span;
use text::{hex, number, word};

pub mod faults;

// Why a line is no question: why a word spells no bytes, or what is wrong with the words.
#[derive(Clone, Copy)]
pub enum Fault {
    Hex(text::Fault),
    Unknown,
    Missing,
    TooMany,
    NoNumber,
    NoRoom,
    ManyNumbers,
}

impl From<text::Fault> for Fault {
    fn from(fault: text::Fault) -> Fault {
        Fault::Hex(fault)
    }
}

// A word that was read: how many bytes it spells, or its number; and where the text goes on.
#[derive(Clone, Copy)]
pub struct Operand {
    pub value: usize,
    pub next: usize,
}

// Bytes in hex, to the start of `out`. Where they are read the text goes on after their word, so that a reader of words ends.
pub fn bytes_at(text: &[u8], from: usize, out: &mut [u8]) -> Result<Operand, Fault>
    ensures len_in_bounds { IfOk result (λ read. read.value ≤ length out.new) }
    ensures text_bound { IfOk result (λ read. (min from (length text.now) < read.next) × (read.next ≤ length text.now)) }
{
    let Span { start, end } = word(text, from);
    if start == end {
        return Err(Fault::Missing);
    }
    let len = hex(&text[start..end], out)?;
    Ok(Operand {
        value: len,
        next: end,
    })
}

pub fn number_at(text: &[u8], from: usize) -> Result<Operand, Fault> {
    let Span { start, end } = word(text, from);
    if start == end {
        return Err(Fault::Missing);
    }
    let value = number(&text[start..end]).ok_or(Fault::NoNumber)?;
    Ok(Operand { value, next: end })
}

// Whether no word is left.
pub fn ends(text: &[u8], from: usize) -> bool {
    let Span { start, end } = word(text, from);
    start == end
}

// Which of the first `count` words of a text the word is.
pub fn which(text: &[u8], count: usize, wanted: &[u8]) -> Option<usize> {
    let mut at = 0;
    for k in 0..count {
        let Span { start, end } = word(text, at);
        if check::same(&text[start..end], wanted) {
            return Some(k);
        }
        at = end;
    }
    None
}

// No word may follow the last one.
fn end_at(text: &[u8], from: usize) -> Result<(), Fault> {
    if ends(text, from) {
        return Ok(());
    }
    Err(Fault::TooMany)
}

// All numbers from `from` on, to the start of `out`, and how many they are.
fn numbers_at(text: &[u8], from: usize, out: &mut [u32]) -> Result<usize, Fault>
    ensures { IfOk result (λ len. len ≤ length out.new) }
{
    // No `for`: a word is as long as it is, and the next starts behind it.
    let mut at = from;
    let mut len = 0;
    while !ends(text, at) {
        if len == out.len() {
            return Err(Fault::ManyNumbers);
        }
        let read = number_at(text, at)?;
        out[len] = u32::try_from(read.value).ok().ok_or(Fault::NoNumber)?;
        len += 1;
        at = read.next;
    }
    Ok(len)
}

// What comes after the bytes: nothing, a number, or a number and any more of them.
#[derive(Clone, Copy)]
pub enum Tail {
    Nothing,
    Number,
    Numbers,
}

// The numbers that were read: the first, and how many more there are.
#[derive(Clone, Copy)]
struct Numbers {
    first: usize,
    more: usize,
}

fn tail_at(text: &[u8], from: usize, tail: Tail, out: &mut [u32]) -> Result<Numbers, Fault>
    ensures { IfOk result (λ numbers. numbers.more ≤ length out.new) }
{
    match tail {
        Tail::Nothing => {
            end_at(text, from)?;
            Ok(Numbers { first: 0, more: 0 })
        }
        Tail::Number => {
            let only = number_at(text, from)?;
            end_at(text, only.next)?;
            Ok(Numbers {
                first: only.value,
                more: 0,
            })
        }
        Tail::Numbers => {
            let first = number_at(text, from)?;
            let more = numbers_at(text, first.next, out)?;
            Ok(Numbers {
                first: first.value,
                more,
            })
        }
    }
}

// The word at `from`, where it is wanted.
fn bytes_if(wanted: bool, text: &[u8], from: usize, out: &mut [u8]) -> Result<Operand, Fault>
    ensures { IfOk result (λ read. read.value ≤ length out.new) }
{
    if wanted {
        return bytes_at(text, from, out);
    }
    Ok(Operand {
        value: 0,
        next: from,
    })
}

// What a question has after its verb: bytes in the first `one`, `two` and `three` of three rooms, a number, and more of them in the first
// `more` of a room of words. All are 0 where they are not wanted.
#[derive(Clone, Copy)]
pub struct Operands {
    pub one: usize,
    pub two: usize,
    pub three: usize,
    pub number: usize,
    pub more: usize,
}

// From `from` on: bytes for the first `rooms` of the three rooms, and what comes after them.
pub fn read(
    text: &[u8],
    from: usize,
    rooms: usize,
    tail: Tail,
    one: &mut [u8],
    two: &mut [u8],
    three: &mut [u8],
    more: &mut [u32],
) -> Result<Operands, Fault>
    ensures one_in_bounds { IfOk result (λ read. (read.one ≤ length one.new) × (read.two ≤ length two.new) × (read.three ≤ length three.new)) }
    ensures more_in_bounds { IfOk result (λ read. read.more ≤ length more.new) }
{
    let first = bytes_at(text, from, one)?;
    let second = bytes_if(1 < rooms, text, first.next, two)?;
    let third = bytes_if(2 < rooms, text, second.next, three)?;
    let numbers = tail_at(text, third.next, tail, more)?;
    Ok(Operands {
        one: first.value,
        two: second.value,
        three: third.value,
        number: numbers.first,
        more: numbers.more,
    })
}
