// The kinds of value that are bytes, in words: what they spell, or how many there are.
ghost use Rattle.layout.specs.Steps.{Few};

use crate::numbers::write_signed;
use crate::start_of;
use encoding::Header;
use layout::Widths;
use print::{counted, quoted, tell, write_hex};
use slices::part_of;
use std::io;
use utf8::Flaw;

// How many bytes of a string are shown.
const SHOWN: usize = 64;

// As many whole characters as the bytes start with.
fn whole_characters(s: &[u8]) -> &[u8] {
    match utf8::check(s) {
        Ok(()) => s,
        Err(Flaw::Cut(n) | Flaw::Broken(n)) => part_of(s, 0, n),
    }
}

fn text(rt: &impl Print, s: &[u8]) -> io::Result<()> {
    if s.len() <= SHOWN {
        tell(rt, b"string ")?;
        return quoted(rt, s);
    }
    print!(rt; "string of {} bytes that starts ", s.len())?;
    quoted(rt, whole_characters(part_of(s, 0, SHOWN)))
}

fn no_text(rt: &impl Print, s: &[u8]) -> io::Result<()> {
    print!(rt; "string of {} bytes that are not UTF-8:", s.len())?;
    start_of(rt, s)
}

// Reading a value does not check a string: what is no text does not reach a terminal as it is.
fn string(rt: &impl Print, s: &[u8]) -> io::Result<()> {
    match utf8::check(s) {
        Ok(()) => text(rt, s),
        Err(_) => no_text(rt, s),
    }
}

fn binary(rt: &impl Print, s: &[u8]) -> io::Result<()> {
    counted(rt, b"binary of ", s.len(), b" byte:", b" bytes:")?;
    start_of(rt, s)
}

// The scale, and the number as if it had no decimals. One of 16 bytes is no number of 64 bits: its bytes are shown.
fn decimal(rt: &impl Print, s: &[u8]) -> io::Result<()> {
    let Some((scale, number)) = s.split_first() else {
        return Ok(());
    };
    print!(rt; "decimal with scale {scale}")?;
    if number.len() == 16 {
        tell(rt, b", a number of 16 bytes, the lowest first:")?;
        return write_hex(rt, number);
    }
    tell(rt, b": ")?;
    write_signed(rt, number)
}

fn name_of_time(rt: &impl Print, t: usize) -> io::Result<()> {
    match t {
        12 | 18 => tell(rt, b"timestamp, "),
        13 | 19 => tell(rt, b"timestamp without time zone, "),
        _ => tell(rt, b"time, "),
    }
}

fn unit_of_time(rt: &impl Print, t: usize) -> io::Result<()> {
    match t {
        18 | 19 => tell(rt, b" nanoseconds"),
        _ => tell(rt, b" microseconds"),
    }
}

fn date(rt: &impl Print, s: &[u8]) -> io::Result<()> {
    tell(rt, b"date, day ")?;
    write_signed(rt, s)
}

fn time(rt: &impl Print, t: usize, s: &[u8]) -> io::Result<()> {
    name_of_time(rt, t)?;
    write_signed(rt, s)?;
    unit_of_time(rt, t)
}

// How many fields or elements there are, by what the header byte says of the numbers after it.
fn count_by(s: &[u8], w: Widths) -> usize
    requires { Few w }
{
    layout::read(s, w).map_or(0, |l| l.count)
}

fn count_of(s: &[u8]) -> usize {
    let Some(first) = s.first() else {
        return 0;
    };
    match encoding::header_of(*first) {
        Header::Object(w) | Header::List(w) => count_by(s, w),
        _ => 0,
    }
}

// A value of the kind `t` whose own bytes are `s`.
pub fn write(rt: &impl Print, t: usize, s: &[u8]) -> io::Result<()> {
    match t {
        8..=10 => decimal(rt, s),
        11 => date(rt, s),
        12..=13 | 17..=19 => time(rt, t, s),
        15 => binary(rt, s),
        16 | 257 => string(rt, s),
        20 => {
            tell(rt, b"uuid")?;
            write_hex(rt, s)
        }
        258 => counted(rt, b"object of ", count_of(s), b" field", b" fields"),
        _ => counted(rt, b"list of ", count_of(s), b" element", b" elements"),
    }
}
