// Why nothing is written of lines, as words to `to`: what is here promises safety only.
#![tactic(auto)]

use pairing::Fault;
use print::room::use_library;
use print::tell_to;
use reasons::{above_limit, meaning_of_dictionary, number_to};
use std::io;
use std::io::Write;

// That there is room for `most` bytes, and not for this.
fn no_room(to: &mut impl Write, what: &[u8], most: usize) -> io::Result<()> {
    tell_to(to, what)?;
    tell_to(to, b" is")?;
    use_library(to, most, b" bytes")
}

fn meaning_of_names(to: &mut impl Write, code: usize, most: usize) -> io::Result<()> {
    match code {
        10 => above_limit(to, b"the dictionary"),
        46 => no_room(to, b"the dictionary", most),
        _ => tell_to(to, b"it is not UTF-8"),
    }
}

// 25 and 45 no line gives: its name is an entry, and its child lies in the bytes.
fn meaning_of_pairs(to: &mut impl Write, code: usize, most: usize) -> io::Result<()> {
    match code {
        20 => above_limit(to, b"the object"),
        26 => tell_to(to, b"its name is that of an earlier line"),
        28 => tell_to(to, b"its child has no bytes"),
        46 => no_room(to, b"the object", most),
        _ => meaning_of_dictionary(to, code),
    }
}

// The line of a name, or of a pair, where each has one: these are counted from 0, and lines from 1, as editors do.
fn line_of(number: usize) -> usize {
    number.saturating_add(1)
}

// Of a dictionary that was to be written of names that are lines.
pub fn dictionary(to: &mut impl Write, code: usize, place: usize, most: usize) -> io::Result<()> {
    number_to(to, code, place)?;
    if code == 45 {
        write!(to, ", line {}", line_of(place))?;
    }
    tell_to(to, b": ")?;
    meaning_of_names(to, code, most)?;
    tell_to(to, b"\n")
}

// The number, and which pair of which line it is of.
fn pair_number(to: &mut impl Write, code: usize, place: usize) -> io::Result<()> {
    write!(
        to,
        "refused {code} at pair {place}, line {}",
        line_of(place)
    )
}

// Of an object that was to be written of pairs that are lines.
pub fn object(to: &mut impl Write, code: usize, place: usize, most: usize) -> io::Result<()> {
    match code {
        26 | 28 => pair_number(to, code, place)?,
        _ => number_to(to, code, place)?,
    }
    tell_to(to, b": ")?;
    meaning_of_pairs(to, code, most)?;
    tell_to(to, b"\n")
}

fn meaning_of_fault(to: &mut impl Write, fault: Fault) -> io::Result<()> {
    match fault {
        Fault::Hex(text::Fault::Odd) => tell_to(to, b"an odd number of hex digits"),
        Fault::Hex(text::Fault::NoDigit) => tell_to(to, b"a character that is no hex digit"),
        Fault::Hex(text::Fault::Long) => tell_to(to, b"more bytes than there is room for"),
        Fault::NoSpace => tell_to(to, b"no space between a name and hex digits"),
        Fault::NoEntry => tell_to(to, b"its name is no entry of the dictionary"),
    }
}

// Of a line that is no pair: the line's number from 0 on, and its fault.
pub fn pair(to: &mut impl Write, line: usize, fault: Fault) -> io::Result<()> {
    write!(to, "line {}: ", line_of(line))?;
    meaning_of_fault(to, fault)?;
    tell_to(to, b"\n")
}
