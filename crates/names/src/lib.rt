// Names in order, as the Rust compares `str`: byte by byte, unsigned, and a proper prefix first.
#![tactic(auto)]

ghost use Rattle.std.specs.Prelude.{◌≡◌, min, length};
ghost use Rattle.names.specs.Promises.{ComparePromise, IsBelowPromise};

use eights::{alike, word};
use std::cmp::Ordering;

// Both are read up to the length of the shorter one; where they agree that far, the lengths decide.
fn compare_bytes(a: &[u8], b: &[u8], shared: usize) -> Ordering
    requires { shared ≡ min (length a.now) (length b.now) }
    ensures { ComparePromise a.now b.now result }
{
    for i in 0..shared {
        let x = a[i];
        let y = b[i];
        if x != y {
            return x.cmp(&y);
        }
    }
    a.len().cmp(&b.len())
}

// The first eight bytes decide between most names; then those that `alike` finds, or the lengths.
pub fn compare(a: &[u8], b: &[u8]) -> Ordering
    ensures { ComparePromise a.now b.now result }
{
    let shared = a.len().min(b.len());
    if shared < 8 {
        return compare_bytes(a, b, shared);
    }
    let p = word(a, 0);
    let q = word(b, 0);
    if p != q {
        return p.cmp(&q);
    }
    let i = alike(a, b, shared);
    word(a, i).cmp(&word(b, i)).then(a.len().cmp(&b.len()))
}

// Whether `a` comes before `b`: as `compare` goes, but with no `Ordering` on the way, which is faster.
pub fn is_below(a: &[u8], b: &[u8]) -> bool
    ensures { IsBelowPromise a.now b.now result }
{
    let shared = a.len().min(b.len());
    if shared < 8 {
        return compare_bytes(a, b, shared).is_lt();
    }
    let p = word(a, 0);
    let q = word(b, 0);
    if p != q {
        return p < q;
    }
    let i = alike(a, b, shared);
    let x = word(a, i);
    let y = word(b, i);
    if x != y {
        return x < y;
    }
    a.len() < b.len()
}
