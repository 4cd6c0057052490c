// Characters of UTF-8 by RFC 3629: the one that starts at a place, and whether what is left is the beginning of one.
#![tactic(auto)]

ghost use Rattle.std.specs.Prelude.{◌≡◌, ◌≤◌, drop, length};
ghost use Rattle.chars.specs.Rfc3629.{tails_of};
ghost use Rattle.chars.specs.Promises.{CharAtPromise, BeginsAtPromise};

use leads::{Lead, classify};

// Whether `rest` bytes stand at `from`, the first from `first` to `last` and the others from 0x80 to 0xBF.
fn tails(s: &[u8], from: usize, first: u8, last: u8, rest: usize) -> bool
    requires { from ≤ length s.now }
    ensures { result ≡ tails_of first last rest (drop from s.now) }
{
    if s.len() - from < rest {
        return false;
    }
    let mut lo = first;
    let mut hi = last;
    for at in from..from + rest {
        let byte = s[at];
        if byte < lo {
            return false;
        }
        if hi < byte {
            return false;
        }
        lo = 0x80;
        hi = 0xBF;
    }
    true
}

// The length of the character that starts at `at`; 0 where none does. Most are one byte: these are told before the table is asked.
pub fn char_at(s: &[u8], at: usize) -> usize
    ensures { CharAtPromise s.now at result }
{
    if s.len() <= at {
        return 0;
    }
    let first = s[at];
    if first < 0x80 {
        return 1;
    }
    match classify(first) {
        None => 0,
        Some(Lead { lo, hi, rest }) => {
            if tails(s, at + 1, lo, hi, rest) {
                rest + 1
            } else {
                0
            }
        }
    }
}

// Whether what stands from `at` to the end is a proper beginning of a character: fewer bytes than the first one asks for, and all of them fit.
pub fn begins_at(s: &[u8], at: usize) -> bool
    ensures { BeginsAtPromise s.now at result }
{
    if s.len() <= at {
        return false;
    }
    match classify(s[at]) {
        None => false,
        Some(Lead { lo, hi, rest }) => {
            let left = s.len() - at - 1;
            if rest <= left {
                return false;
            }
            tails(s, at + 1, lo, hi, left)
        }
    }
}
