// A float in decimal, to standard output: the shortest that reads back as the same float, by its bits and with whole numbers alone. What
// is here promises safety only.
//
// A float is m * 2^e. All that reads back as it lies between the middles to its neighbours, (4m - 2) * 2^(e - 2), or (4m - 1) * 2^(e - 2)
// where the one below is nearer, and (4m + 2) * 2^(e - 2). Where e - 2 is below zero, 2^(e - 2) is as many decimals of a power of five.
#![tactic(auto)]

ghost use Rattle.std.specs.Prelude.{◌≤◌};

mod digits;
mod shortest;

use digits::{Base, PLACES, end_of, first_of, put, raise};
use print::tell;
use std::io;

// How the bits of a float say its number: the bit that stands before the fraction, the exponent of infinity and of what is no number, and
// the one at which a quarter of the last bit is one.
#[derive(Drop)]
struct Shape {
    unit: usize,
    last: usize,
    quarter: usize,
}

fn write_places(rt: &impl Print, digits: &[u8; PLACES], from: usize, to: usize) -> io::Result<()>
    requires { (from ≤ to) × (to ≤ 800) }
{
    for digit in &digits[from..to] {
        print!(rt; "{digit}")?;
    }
    Ok(())
}

// Digits with the point before place `point`.
fn write_plain(
    rt: &impl Print,
    digits: &[u8; PLACES],
    first: usize,
    point: usize,
    end: usize,
) -> io::Result<()>
    requires { (point ≤ 800) × (end ≤ 800) }
{
    if first < point {
        write_places(rt, digits, first, point)?;
    } else {
        tell(rt, b"0")?;
    }
    if point < end {
        tell(rt, b".")?;
        write_places(rt, digits, point, end)?;
    }
    Ok(())
}

// One digit before the point, and the exponent.
fn write_exponent(
    rt: &impl Print,
    digits: &[u8; PLACES],
    first: usize,
    end: usize,
    decimals: usize,
) -> io::Result<()>
    requires { (first ≤ 799) × (end ≤ 800) × (decimals ≤ 2047) }
{
    let second = first + 1;
    write_places(rt, digits, first, second)?;
    if second < end {
        tell(rt, b".")?;
        write_places(rt, digits, second, end)?;
    }
    let whole = PLACES - first;
    if decimals < whole {
        print!(rt; "e{}", whole - 1 - decimals)
    } else {
        print!(rt; "e-{}", 1 + decimals - whole)
    }
}

// The place that the decimals start at; the first where there are more of them than places.
fn point_of(decimals: usize) -> usize
    ensures { result ≤ 800 }
{
    PLACES.saturating_sub(decimals)
}

// A number whose last so many digits are decimals: from 0.0001 to below 10^16 plainly, any other with its exponent, as Rust's `{:?}` does.
fn write_number(rt: &impl Print, digits: &[u8; PLACES], decimals: usize) -> io::Result<()>
    requires { decimals ≤ 2047 }
{
    let Some(first) = first_of(digits) else {
        return Ok(());
    };
    let end = end_of(digits);
    let whole = PLACES - first;
    if decimals + 16 < whole || whole + 3 < decimals {
        write_exponent(rt, digits, first, end, decimals)
    } else {
        write_plain(rt, digits, first, point_of(decimals), end)
    }
}

// A power of two, or of five with as many decimals.
#[derive(Clone, Copy)]
struct Scale {
    base: Base,
    by: usize,
}

fn scale_of(exponent: usize, quarter: usize) -> Scale
    requires { (exponent ≤ 2047) × (quarter ≤ 2047) }
    ensures { result.by ≤ 2047 }
{
    if exponent < quarter {
        return Scale {
            base: Base::Five,
            by: quarter - exponent,
        };
    }
    Scale {
        base: Base::Two,
        by: exponent - quarter,
    }
}

fn decimals_of(s: Scale) -> usize
    ensures { result ≤ s.by }
{
    match s.base {
        Base::Two => 0,
        Base::Five => s.by,
    }
}

fn scaled(digits: &mut [u8; PLACES], n: usize, s: Scale) {
    put(digits, n);
    raise(digits, s.base, s.by);
}

// How far the middle to the one below is, in quarters of the last bit.
fn below(narrow: bool) -> usize
    ensures { result ≤ 2 }
{
    if narrow {
        return 1;
    }
    2
}

// m of the last bit. An even one is read back from the middles too.
fn write_finite(rt: &impl Print, m: usize, narrow: bool, s: Scale) -> io::Result<()>
    requires { (1 ≤ m) × (m ≤ 9007199254740991) × (s.by ≤ 2047) }
{
    let mut low = [0u8; PLACES];
    let mut exact = [0u8; PLACES];
    let mut high = [0u8; PLACES];
    let mut out = [0u8; PLACES];
    scaled(&mut low, 4 * m - below(narrow), s);
    scaled(&mut exact, 4 * m, s);
    scaled(&mut high, 4 * m + 2, s);
    shortest::find(&low, &exact, &high, m % 2 == 0, &mut out);
    write_number(rt, &out, decimals_of(s))
}

// The exponent 0 has no bit before the fraction, and is the 1 otherwise.
fn write_float(
    rt: &impl Print,
    negative: bool,
    exponent: usize,
    fraction: usize,
    shape: Shape,
) -> io::Result<()>
    requires { (exponent ≤ 2047) × (fraction ≤ 4503599627370495) × (1 ≤ shape.unit) × (shape.unit ≤ 4503599627370496) × (shape.quarter ≤ 2047) }
{
    if exponent == shape.last && 0 < fraction {
        return tell(rt, b"not a number");
    }
    if negative {
        tell(rt, b"-")?;
    }
    if exponent == shape.last {
        tell(rt, b"infinity")
    } else if 0 < exponent {
        let narrow = fraction == 0 && 1 < exponent;
        write_finite(
            rt,
            shape.unit + fraction,
            narrow,
            scale_of(exponent, shape.quarter),
        )
    } else if 0 < fraction {
        write_finite(rt, fraction, false, scale_of(1, shape.quarter))
    } else {
        tell(rt, b"0")
    }
}

// A float by its 32 bits.
pub fn write_single(rt: &impl Print, bits: usize) -> io::Result<()> {
    let shape = Shape {
        unit: 0x80_0000,
        last: 0xFF,
        quarter: 152,
    };
    let rest = bits % 0x8000_0000;
    write_float(
        rt,
        0x8000_0000 <= bits,
        rest / 0x80_0000,
        rest % 0x80_0000,
        shape,
    )
}

// A double by its 64 bits.
pub fn write_double(rt: &impl Print, bits: usize) -> io::Result<()> {
    let shape = Shape {
        unit: 0x10_0000_0000_0000,
        last: 0x7FF,
        quarter: 1077,
    };
    let rest = bits % 0x8000_0000_0000_0000;
    write_float(
        rt,
        0x8000_0000_0000_0000 <= bits,
        rest / 0x10_0000_0000_0000,
        rest % 0x10_0000_0000_0000,
        shape,
    )
}
