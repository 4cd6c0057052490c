// Keys of names: their first bytes as numbers, and whether names are the same whose keys are.
#![tactic(auto)]

ghost use Rattle.std.specs.Prelude.{◌≡◌, ◌≤◌, ◌<◌, length, get_or};
ghost use Rattle.part.specs.Part.{part};
ghost use Rattle.eights.specs.Steps.{be, Alike};
ghost use Rattle.names.specs.Search.{same};
ghost use Rattle.keys.specs.Steps.{KeyOf};

use eights::{alike, raw, word};

// Byte k of a name; 0 past its end.
fn byte_or_zero(s: &[u8], k: usize) -> usize
    ensures { (result ≡ get_or s.now k 0) × (result < 256) }
{
    if k < s.len() {
        return width::wide(s[k]);
    }
    0
}

// As `eights::half`, with zeros past the end.
fn padded_half(s: &[u8], at: usize) -> usize
    requires { at ≤ 4 }
    ensures { (result ≡ be s.now at 4) × (result < 4294967296) }
{
    let two = byte_or_zero(s, at) * 256 + byte_or_zero(s, at + 1);
    (two * 256 + byte_or_zero(s, at + 2)) * 256 + byte_or_zero(s, at + 3)
}

// All keys are below this.
pub const KEYS: usize = 0x8000_0000_0000_0000;

// The key of the name that stands in `s` from one place to another: its first eight bytes as a number, with zeros where it is shorter, without
// the lowest bit. Keys that differ are in the order of their names. No branch depends on a length above 0, but for the last bytes of `s`.
pub fn key(s: &[u8], from: usize, to: usize) -> usize
    requires { (from ≤ to) × (to ≤ length s.now) }
    ensures { KeyOf (part s.now from to) result }
{
    let n = to - from;
    if n == 0 {
        return 0;
    }
    if s.len() - from < 8 {
        let name = &s[from..to];
        return (padded_half(name, 0) * 0x1_0000_0000 + padded_half(name, 4)) / 2;
    }
    let past = 64 - 8 * n.min(8);
    (word(s, from) >> past << past) / 2
}

// Whether two names are the same whose first seven bytes are, with zeros where they are shorter.
pub fn same_rest(a: &[u8], b: &[u8]) -> bool
    requires { Alike a.now b.now 7 }
    ensures { result ≡ same a.now b.now }
{
    let n = a.len();
    if n != b.len() {
        return false;
    }
    if n < 8 {
        return true;
    }
    if raw(a, 0) != raw(b, 0) {
        return false;
    }
    let i = alike(a, b, n);
    raw(a, i) == raw(b, i)
}
