// A value in words, to standard output: what is here promises safety only.
#![tactic(auto)]

mod kinds;
mod numbers;

use answers::Answer;
use print::{tell, write_hex};
use reasons::meaning_of_value;
use slices::part_of;
use std::io;

// The first bytes in hex.
pub fn start_of(rt: &impl Print, s: &[u8]) -> io::Result<()> {
    if s.len() <= 16 {
        return write_hex(rt, s);
    }
    write_hex(rt, &s[0..16])?;
    tell(rt, b" ..")
}

// The two words of a number: each has 32 bits.
pub fn bits_of(low: usize, high: usize) -> usize {
    low % 0x1_0000_0000 + high % 0x1_0000_0000 * 0x1_0000_0000
}

// The kinds are numbers of the C interface, since a program takes them out of a strip.
fn read(rt: &impl Print, bytes: &[u8], a: Answer) -> io::Result<()> {
    let kind = a.number;
    match kind {
        0 => tell(rt, b"null"),
        1 => tell(rt, b"true"),
        2 => tell(rt, b"false"),
        3..=7 | 14 => numbers::write(rt, kind, bits_of(a.start, a.end)),
        _ => kinds::write(rt, kind, part_of(bytes, a.start, a.end)),
    }
}

// What the value at the start of `bytes` is read as, or why it is not.
pub fn value(rt: &impl Print, bytes: &[u8]) -> io::Result<()> {
    let a = ask::value(bytes);
    if a.code == 0 {
        tell(rt, b", read as ")?;
        return read(rt, bytes, a);
    }
    print!(rt; ", refused {}: ", a.code)?;
    meaning_of_value(rt, a.code)
}

// Where a value stands in the whole, its first bytes, and what it is read as.
pub fn standing(rt: &impl Print, whole: &[u8], start: usize, end: usize) -> io::Result<()> {
    print!(rt; " from byte {start} to byte {end}")?;
    if start == end {
        return tell(rt, b", no bytes\n");
    }
    tell(rt, b":")?;
    let bytes = part_of(whole, start, end);
    start_of(rt, bytes)?;
    value(rt, bytes)?;
    tell(rt, b"\n")
}

// A field that was found.
pub fn field(rt: &impl Print, whole: &[u8], a: Answer) -> io::Result<()> {
    print!(rt;
        "found: field {}, entry {} of the dictionary, its value",
        a.number, a.id
    )?;
    standing(rt, whole, a.start, a.end)
}
