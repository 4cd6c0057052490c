// Why something is refused, as words to standard output, or to `to`: what is here promises safety only. A refusal is told by its number, as the
// C interface has it, since programs take it out of a strip.
#![tactic(auto)]

use answers::Answer;
use print::{counted, tell, tell_to};
use std::io;
use std::io::Write;

// That something is longer than any that the library reads or writes.
pub fn above_limit(to: &mut impl Write, what: &[u8]) -> io::Result<()> {
    tell_to(to, what)?;
    write!(to, " is longer than {} bytes", dictionary::LIMIT)
}

// Why a dictionary is refused.
pub fn meaning_of_dictionary(to: &mut impl Write, code: usize) -> io::Result<()> {
    match code {
        10 => above_limit(to, b"the dictionary"),
        11 => tell_to(to, b"the dictionary is empty"),
        12 => tell_to(to, b"the dictionary's version is not 1"),
        13 => tell_to(to, b"the dictionary is cut short"),
        14 => tell_to(to, b"a sum in the dictionary is above the u32 range"),
        15 => tell_to(to, b"the dictionary's first offset is not 0"),
        16 => tell_to(to, b"not UTF-8"),
        17 => tell_to(
            to,
            b"its offsets fall, pass the value region or cut a character",
        ),
        18 => tell_to(
            to,
            b"the dictionary is sorted, and it is not above the one before",
        ),
        19 => tell_to(to, b"the text ends inside a character; ask for the rest"),
        _ => tell_to(to, b"the dictionary has no such entry"),
    }
}

fn meaning_of_object(rt: &impl Print, code: usize) -> io::Result<()> {
    match code {
        20 => above_limit(&mut io::writer(rt), b"the object"),
        21 => tell(rt, b"the object is empty"),
        22 => tell(rt, b"the basic type is not 2, that of an object"),
        23 => tell(rt, b"the object is cut short"),
        24 => tell(rt, b"a sum in the object is above the u32 range"),
        25 => tell(rt, b"its id is no entry of the dictionary"),
        26 => tell(rt, b"its name is not above the one before"),
        27 => tell(rt, b"its offset is above the value region's length"),
        28 => tell(rt, b"its child has no bytes"),
        41 => tell(rt, b"the answer has more words than there is room for"),
        43 => tell(
            rt,
            b"its child is of no known type, or its own length passes the object's end",
        ),
        _ => tell(rt, b"its end falls or passes the bytes of the names"),
    }
}

// Why a value is refused, or a tree for the value.
pub fn meaning_of_value(rt: &impl Print, code: usize) -> io::Result<()> {
    match code {
        50 => tell(rt, b"it is cut short, or longer than the u32 range"),
        51 => tell(rt, b"its primitive type is unknown"),
        52 => tell(rt, b"it is an object or a list inside 32 others"),
        54 => tell(rt, b"its text is not UTF-8"),
        60 => tell(rt, b"the list is cut short"),
        61 => tell(rt, b"a sum in the list is above the u32 range"),
        _ => tell(
            rt,
            b"its offset is above the next one or the value region's length",
        ),
    }
}

// Why a path is none.
fn meaning_of_path(rt: &impl Print, code: usize) -> io::Result<()> {
    match code {
        70 => tell(rt, b"the path is not UTF-8"),
        71 => tell(rt, b"the path starts with a dot"),
        72 => tell(rt, b"the path ends with a dot"),
        73 => tell(
            rt,
            b"the path has no name after a dot, or closes a bracket that is not open",
        ),
        74 => tell(rt, b"the path has a bracket that is not closed"),
        75 => tell(
            rt,
            b"the path has brackets around what is neither quoted nor a number below 18446744073709551616",
        ),
        _ => tell(
            rt,
            b"the path has more steps or longer names than there is room for",
        ),
    }
}

// Where it is, for those that have a place.
fn write_place(to: &mut impl Write, code: usize, place: usize) -> io::Result<()> {
    match code {
        16 | 19 => write!(to, " at byte {place} of the value region"),
        17 | 18 => write!(to, " at entry {place}"),
        25..=28 | 43 => write!(to, " at field {place}"),
        45 => write!(to, " at name {place}"),
        53 => write!(to, " at step {place}"),
        62 => write!(to, " at element {place}"),
        _ => Ok(()),
    }
}

pub fn meaning(rt: &impl Print, code: usize) -> io::Result<()> {
    match code {
        20..=28 | 41 | 43 | 45 => meaning_of_object(rt, code),
        50..=62 => meaning_of_value(rt, code),
        70..=76 => meaning_of_path(rt, code),
        _ => meaning_of_dictionary(&mut io::writer(rt), code),
    }
}

// What comes before the meaning: the number, and where it is.
pub fn number_to(to: &mut impl Write, code: usize, place: usize) -> io::Result<()> {
    write!(to, "refused {code}")?;
    write_place(to, code, place)
}

pub fn number(rt: &impl Print, code: usize, place: usize) -> io::Result<()> {
    number_to(&mut io::writer(rt), code, place)?;
    tell(rt, b": ")
}

pub fn why(rt: &impl Print, code: usize, place: usize) -> io::Result<()> {
    number(rt, code, place)?;
    meaning(rt, code)
}

pub fn refused(rt: &impl Print, code: usize, place: usize) -> io::Result<()> {
    why(rt, code, place)?;
    tell(rt, b"\n")
}

// What a dictionary's check answers, accepted or refused.
pub fn verdict(rt: &impl Print, a: Answer) -> io::Result<()> {
    if a.code != 0 {
        return refused(rt, a.code, a.place);
    }
    counted(rt, b"accepted: ", a.number, b" name", b" names")?;
    println!(rt; ", the end at byte {}", a.end)
}
