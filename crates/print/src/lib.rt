// What programs write, which promises safety only, and how much they hold. Where it says nothing else it goes to standard output.
#![tactic(auto)]

ghost use Rattle.std.specs.Prelude.{◌≡◌};

pub mod room;

use std::io;
use std::io::Write;

// Words to a writer: standard error, or what stands for it.
pub fn tell_to(to: &mut impl Write, words: &[u8]) -> io::Result<()> {
    to.write_all(words)
}

// A number after some words, to a writer.
pub fn say_to(to: &mut impl Write, words: &[u8], n: usize) -> io::Result<()> {
    tell_to(to, words)?;
    write!(to, "{n}")
}

pub fn tell(rt: &impl Print, words: &[u8]) -> io::Result<()> {
    tell_to(&mut io::writer(rt), words)
}

pub fn say(rt: &impl Print, words: &[u8], n: usize) -> io::Result<()> {
    say_to(&mut io::writer(rt), words, n)
}

// So many of these after some words: one, or more or none.
pub fn counted(rt: &impl Print, words: &[u8], n: usize, one: &[u8], more: &[u8]) -> io::Result<()> {
    say(rt, words, n)?;
    if n == 1 {
        tell(rt, one)
    } else {
        tell(rt, more)
    }
}

// The bytes of `s` in hex, a space before each.
pub fn write_hex(rt: &impl Print, s: &[u8]) -> io::Result<()> {
    for b in s {
        print!(rt; " {b:02x}")?;
    }
    Ok(())
}

// A word of 32 bits as a number.
pub fn wide(x: u32) -> usize
    ensures { result ≡ x }
{
    x as usize
}

// The words of `s`, a space before each.
pub fn write_words(rt: &impl Print, s: &[u32]) -> io::Result<()> {
    for word in s {
        print!(rt; " {word}")?;
    }
    Ok(())
}

// A byte of a name. What would end the quotes or reach a terminal as a control is written `\xNN`.
fn letter(to: &mut impl Write, b: u8) -> io::Result<()> {
    match b {
        0..=31 | b'"' | b'\\' | 127 => write!(to, "\\x{b:02x}"),
        _ => tell_to(to, &[b]),
    }
}

// A name in quotes, to a writer.
pub fn quoted_to(to: &mut impl Write, name: &[u8]) -> io::Result<()> {
    tell_to(to, b"\"")?;
    for b in name {
        letter(to, *b)?;
    }
    tell_to(to, b"\"")
}

pub fn quoted(rt: &impl Print, name: &[u8]) -> io::Result<()> {
    quoted_to(&mut io::writer(rt), name)
}
