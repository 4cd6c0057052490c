// Runs utf8::check on inputs of boundary bytes and on all proper beginnings of characters, and compares with data/answers, which another
// decoder made: Python's strict utf-8 codec, by tools/utf8_boundaries.py. Boundary bytes are both ends of each range of bytes in RFC 3629,
// one below and one above.
//
// The list has one mark a case, 100 to a line, and the cases are counted as the script counts them; it says which they are. So a case's
// number, taken apart, is its bytes. The mark is a digit, the length of the longest text; or a letter, `a` for 0, where it is cut there.
#![tactic(auto)]

ghost use Rattle.std.specs.Prelude.{◌≡◌, ◌≤◌, ◌<◌, length, IfSome};

use print::{tell, write_hex};
use std::io;
use std::io::Read;
use utf8::Flaw;

// How many cases there are of each kind: of 1 and 2 bytes, and of 3 and 4 boundary bytes.
const ONES: usize = 256;

const TWOS: usize = 256 * 256;

const THREES: usize = 38 * 38 * 38;

const FOURS: usize = 7 * 38 * 38 * 4;

// Beginnings of 2 bytes with one that does not fit, of 3 alone, and of 3 with one that does not fit.
const UNFIT_PAIRS: usize = 21 * 64 * 2;

const TRIPLES: usize = 5 * 64 * 64;

const UNFIT_TRIPLES: usize = 5 * 64 * 64 * 2;

// In all: 225,224, the number that the contracts have.
const CASES: usize = ONES + TWOS + THREES + FOURS + UNFIT_PAIRS + TRIPLES + UNFIT_TRIPLES;

// How long the list is: 100 marks to a line, and each line's end.
const LIST: usize = CASES + CASES / 100 + 1;

// An input: the first `len` of `bytes`.
#[derive(Drop)]
struct Case {
    bytes: [u8; 4],
    len: usize,
    ghost within: { len ≤ length bytes },
}

// How many cases were compared, how many of them differ, and the first that does.
#[derive(Clone, Copy)]
struct Tally {
    compared: usize,
    differ: usize,
    first: Option<usize>,
}

// The boundary byte that the last digit of `n` stands for.
fn edge(n: usize) -> u8 {
    let edges =
        b"\x00\x01\x7E\x7F\x80\x81\x8E\x8F\x90\x91\x9E\x9F\xA0\xA1\xBE\xBF\xC0\xC1\xC2\xC3\xDE\xDF\xE0\xE1\xE2\xEB\xEC\xED\xEE\xEF\xF0\xF1\xF2\xF3\xF4\xF5\xFE\xFF";
    edges[n % 38]
}

fn first_of_four(n: usize) -> u8 {
    let firsts = b"\xEF\xF0\xF1\xF2\xF3\xF4\xF5";
    firsts[n % 7]
}

fn fourth(n: usize) -> u8 {
    let fourths = b"\x7F\x80\xBF\xC0";
    fourths[n % 4]
}

// Any byte; one that continues a character; one that fits nowhere.
fn any(n: usize) -> u8 {
    (n % 256) as u8
}

fn tail(n: usize) -> u8 {
    (0x80 + n % 64) as u8
}

fn unfit(n: usize) -> u8 {
    let bytes = b"\x7F\xC0";
    bytes[n % 2]
}

// The first byte of a character of 3 or 4 bytes, and of one of 4.
fn lead(n: usize) -> u8 {
    (0xE0 + n % 21) as u8
}

fn long_lead(n: usize) -> u8 {
    (0xF0 + n % 5) as u8
}

fn of_three(a: u8, b: u8, c: u8) -> Case {
    Case {
        bytes: [a, b, c, 0],
        len: 3,
    }
}

fn of_four(a: u8, b: u8, c: u8, d: u8) -> Case {
    Case {
        bytes: [a, b, c, d],
        len: 4,
    }
}

// The beginnings of 2 bytes that are not alone, and those of 3.
fn beginning(number: usize) -> Case {
    if number < UNFIT_PAIRS {
        return of_three(lead(number / 128), tail(number / 2), unfit(number));
    }
    let three = number - UNFIT_PAIRS;
    if three < TRIPLES {
        return of_three(long_lead(three / 4096), tail(three / 64), tail(three));
    }
    let four = three - TRIPLES;
    of_four(
        long_lead(four / 8192),
        tail(four / 128),
        tail(four / 2),
        unfit(four),
    )
}

// The case of a number below CASES.
fn case_of(number: usize) -> Case {
    if number < ONES {
        return Case {
            bytes: [any(number), 0, 0, 0],
            len: 1,
        };
    }
    let two = number - ONES;
    if two < TWOS {
        return Case {
            bytes: [any(two / 256), any(two), 0, 0],
            len: 2,
        };
    }
    let three = two - TWOS;
    if three < THREES {
        return of_three(edge(three / 1444), edge(three / 38), edge(three));
    }
    let four = three - THREES;
    if four < FOURS {
        return of_four(
            first_of_four(four / 5776),
            edge(four / 152),
            edge(four / 4),
            fourth(four),
        );
    }
    beginning(four - FOURS)
}

// The mark of a place, and one that the list does not have for a place that no case has.
fn mark(marks: &[u8], place: usize) -> u8 {
    marks.get(place).copied().unwrap_or(b'?')
}

// The mark of what utf8::check answers to a case.
fn answer(number: usize) -> u8 {
    let Case { bytes, len } = case_of(number);
    match utf8::check(&bytes[..len]) {
        Ok(()) => mark(b"01234", len),
        Err(Flaw::Cut(p)) => mark(b"abcd", p),
        Err(Flaw::Broken(p)) => mark(b"01234", p),
    }
}

// The list's mark: a blank where it has none for the case.
fn listed(list: &[u8], number: usize) -> u8
    requires { number < 225224 }
{
    list.get(number + number / 100).copied().unwrap_or(b' ')
}

// Compares every case.
fn run(list: &[u8]) -> Tally
    ensures all { result.compared ≡ 225224 }
    ensures first { IfSome result.first (λ number. number < 225224) }
{
    let mut compared = 0;
    let mut differ = 0;
    let mut first = None;
    for number in 0..CASES {
        compared += 1;
        if answer(number) != listed(list, number) {
            differ += 1;
            first = first.or(Some(number));
        }
    }
    Tally {
        compared,
        differ,
        first,
    }
}

fn report(rt: &impl Print, list: &[u8], t: Tally) -> io::Result<()>
    requires { IfSome t.first (λ number. number < 225224) }
{
    println!(rt; "{} cases compared, {} differ", t.compared, t.differ)?;
    let Some(number) = t.first else {
        return Ok(());
    };
    let Case { bytes, len } = case_of(number);
    tell(rt, b"the first is")?;
    write_hex(rt, &bytes[..len])?;
    tell(rt, b" with ")?;
    tell(rt, &[answer(number)])?;
    tell(rt, b" found and ")?;
    tell(rt, &[listed(list, number)])?;
    tell(rt, b" listed\n")
}

// Compares with the list that a file has.
fn compare(rt: &impl Print, file: &mut impl Read) -> io::Result<()> {
    // more room than the list needs, so that a longer one is noticed
    let mut text = [0u8; 262144];
    let n = files::read(file, &mut text)?;
    if n != LIST {
        return println!(rt; "{n} bytes are not a whole list");
    }
    let list = &text[0..n];
    report(rt, list, run(list))
}

fn main(rt: HostRuntime) -> io::Result<()> {
    let path = b"answers";
    match files::open(&rt, path) {
        Ok(mut file) => compare(&rt, &mut file),
        Err(error) => files::fail(&rt, path, &error),
    }
}
