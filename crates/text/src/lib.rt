// Words, bytes in hex and decimal numbers out of a line of text.
#![tactic(auto)]

ghost use Rattle.std.specs.Prelude.{◌≡◌, ◌/◌, ◌≤◌, eqb, length};
ghost use Rattle.std.proofs.lemmas.List.Edits.{sets};
ghost use Rattle.text.specs.Text.{is_blank, digit_of, no_digit, before, pairs, hex_of, number_of};
ghost use Rattle.text.specs.Steps.{stops_at, Reaches, WordOf, Read};

use part::Span;

// What a hex digit stands for, and 16 for any other byte.
fn digit(b: u8) -> u8
    ensures { (result ≡ digit_of b) × (result ≤ 16) }
{
    match b {
        b'0'..=b'9' => b - 48,
        b'A'..=b'F' => b - 55,
        b'a'..=b'f' => b - 87,
        _ => 16,
    }
}

// The bytes at which a run ends.
#[derive(Clone, Copy)]
enum Stop {
    Blank,
    Letter,
    NoDigit,
    At(u8),
}

#[tactic(auto, unfolding(crate::specs::Text::is_blank))]
fn is_blank(b: u8) -> bool
    ensures { result ≡ is_blank b }
{
    matches!(b, b' ' | b'\t' | b'\r')
}

fn stops(stop: Stop, b: u8) -> bool
    ensures { result ≡ stops_at stop b }
{
    match stop {
        Stop::Blank => is_blank(b),
        Stop::Letter => !is_blank(b),
        Stop::NoDigit => 15 < digit(b),
        Stop::At(x) => b == x,
    }
}

// Where the run from `from` on ends: at the first byte that stops it, or with the text.
fn run(text: &[u8], from: usize, stop: Stop) -> usize
    ensures { Reaches (stops_at stop) text.now from result }
{
    for i in from..text.len() {
        if stops(stop, text[i]) {
            return i;
        }
    }
    text.len()
}

// Where `b` first stands at or after `from`, or the length.
pub fn find(text: &[u8], from: usize, b: u8) -> usize
    ensures { Reaches (λ x. eqb x b) text.now from result }
{
    run(text, from, Stop::At(b))
}

// The first word at or after `from`; empty at the end where there is none.
pub fn word(text: &[u8], from: usize) -> Span
    ensures { WordOf text.now from result }
{
    let start = run(text, from, Stop::Letter);
    let end = run(text, start, Stop::Blank);
    Span { start, end }
}

// Why a word spells no bytes.
#[derive(Clone, Copy)]
pub enum Fault {
    Odd,
    NoDigit,
    Long,
}

// The bytes of the pairs of digits, to the start of `out`, and how many they are.
fn decode(text: &[u8], out: &mut [u8]) -> usize
    requires { (before no_digit text.now ≡ length text.now) × (length text.now / 2 ≤ length out.old) }
    ensures value { result ≡ length (pairs text.now) }
    ensures out_after { out.new ≡ sets out.old 0 (pairs text.now) }
{
    let count = text.len() / 2;
    for n in 0..count {
        out[n] = digit(text[2 * n]) * 16 + digit(text[2 * n + 1]);
    }
    count
}

// The bytes that the digits of `text` spell, to the start of `out`, and how many they are; `-` spells none. With a fault nothing is written.
pub fn hex(text: &[u8], out: &mut [u8]) -> Result<usize, Fault>
    ensures { Read (hex_of text.now (length out.old)) out.old result out.new }
{
    if check::same(text, b"-") {
        return Ok(0);
    }
    if text.len() % 2 != 0 {
        return Err(Fault::Odd);
    }
    if out.len() < text.len() / 2 {
        return Err(Fault::Long);
    }
    if run(text, 0, Stop::NoDigit) < text.len() {
        return Err(Fault::NoDigit);
    }
    Ok(decode(text, out))
}

// The number that decimal digits spell, below 2^32.
pub fn number(text: &[u8]) -> Option<usize>
    ensures { result ≡ number_of text.now }
{
    if text.len() == 0 {
        return None;
    }
    let mut value: usize = 0;
    for &b in text {
        let d = width::wide(digit(b));
        if 9 < d {
            return None;
        }
        value = value * 10 + d;
        if 0xFFFF_FFFF < value {
            return None;
        }
    }
    Some(value)
}
