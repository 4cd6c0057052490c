// How long a value's own encoding is, by its first bytes (variant.rs, decoder.rs).
#![tactic(auto)]

ghost use Rattle.std.specs.Prelude.{◌≡◌, ◌≤◌, length};
ghost use Rattle.layout.specs.Steps.{Few};
ghost use Rattle.encoding.specs.declared.Header.TheVariants as header;
ghost use Rattle.lengths.specs.Lengths.{length_by};
ghost use Rattle.lengths.specs.Steps.{sized};
ghost use Rattle.lengths.specs.Promises.{HoldsPromise, FixedPromise, LengthPromise, KnownPromise, BytesPromise};

use encoding::{Header, header_of};

// Why a value has no own length: it has no bytes or a cut header, a sum above the 32-bit range, an unknown primitive type,
// or more bytes than are at hand.
#[derive(Clone, Copy)]
pub enum Flaw {
    Cut,
    Sum,
    Unknown,
    Longer,
}

impl From<layout::Flaw> for Flaw {
    ghost use Rattle.std.specs.Prelude.{◌≡◌};
    ghost use Rattle.lengths.specs.Lengths.{of_layout};

    ghost from_gives = { λ lower flaw. flaw ≡ of_layout lower };

    fn from(flaw: layout::Flaw) -> Flaw {
        match flaw {
            layout::Flaw::Cut => Flaw::Cut,
            layout::Flaw::Sum => Flaw::Sum,
            layout::Flaw::Longer => Flaw::Longer,
        }
    }
}

// Bytes after the header byte, by primitive type. Types 15 and 16, whose four bytes are a length, have as many more.
const PAYLOADS: [u8; 21] = [
    0, // null
    0, // true
    0, // false
    1, // int8
    2, // int16
    4, // int32
    8, // int64
    8, // double
    5, // decimal4
    9, // decimal8
    17, // decimal16
    4, // date
    8, // timestamp
    8, // timestamp without time zone
    4, // float
    4, // binary: its length
    4, // string: its length
    8, // time
    8, // timestamp in nanoseconds
    8, // the same without time zone
    16, // uuid
];

// n bytes, where so many are at hand.
fn within(len: usize, n: usize) -> Result<usize, Flaw>
    ensures { result ≡ sized len n }
{
    if width::U32_MAX < n {
        return Err(Flaw::Sum);
    }
    if len < n {
        return Err(Flaw::Longer);
    }
    Ok(n)
}

// Whether a primitive's first four bytes are the length of the others.
pub fn holds_length(t: usize) -> bool
    ensures { HoldsPromise t result }
{
    if t == 15 {
        return true;
    }
    t == 16
}

// The bytes of a primitive where its type alone says them: it is known, and holds no length.
pub fn fixed_length(t: usize) -> Option<usize>
    ensures { FixedPromise t result }
{
    if 20 < t {
        return None;
    }
    if holds_length(t) {
        return None;
    }
    Some(1 + width::wide(PAYLOADS[t]))
}

fn primitive_length(s: &[u8], t: usize) -> Result<usize, Flaw>
    requires { 1 ≤ length s.now }
    ensures { result ≡ length_by (header.Primitive t) s.now }
{
    if 21 <= t {
        return Err(Flaw::Unknown);
    }
    let payload = width::wide(PAYLOADS[t]);
    if holds_length(t) {
        if s.len() < 5 {
            return Err(Flaw::Cut);
        }
        let held = width::unpack_u32(s, 1, 4);
        return within(s.len(), 1 + payload + held);
    }
    within(s.len(), 1 + payload)
}

fn layout_length(s: &[u8], w: layout::Widths) -> Result<usize, Flaw>
    requires { Few w }
    ensures { result ≡ length_by (header.Object w) s.now }
{
    let l = layout::read(s, w)?;
    Ok(l.end)
}

// The own length of the value that the bytes begin with, by its first bytes alone.
pub fn own_length(s: &[u8]) -> Result<usize, Flaw>
    ensures { LengthPromise s.now result }
{
    if s.len() < 1 {
        return Err(Flaw::Cut);
    }
    let h = header_of(s[0]);
    match h {
        Header::Primitive(t) => primitive_length(s, t),
        Header::ShortString(n) => within(s.len(), 1 + n),
        Header::Object(w) => layout_length(s, w),
        Header::List(w) => layout_length(s, w),
    }
}

// Whether a length is known.
pub fn is_known(l: Result<usize, Flaw>) -> bool
    ensures { KnownPromise l result }
{
    l.is_ok()
}

// The bytes of a length that is known; none of any other.
pub fn bytes_of(l: Result<usize, Flaw>) -> usize
    ensures { BytesPromise l result }
{
    l.unwrap_or(0)
}
