// The shortest decimal between two others, and of those as short the nearest to a third.
ghost use Rattle.std.specs.Prelude.{◌≤◌};

use crate::digits::{PLACES, first_of, keep, lift};

// Whether `a` is below `b`, or the same where that will do. Places of the same number compare as numbers do.
fn reaches(a: &[u8; PLACES], b: &[u8; PLACES], same: bool) -> bool {
    if same { a <= b } else { a < b }
}

// Whether the first `count` digits are nearer with one more at the last; of two that are as near it is that one, as in Rust.
fn is_nearer_above(exact: &[u8; PLACES], count: usize) -> bool {
    if PLACES <= count {
        return false;
    }
    5 <= exact[count]
}

// The first `count` digits, with one more at the last or not.
fn round(exact: &[u8; PLACES], count: usize, above: bool, out: &mut [u8; PLACES])
    requires { count ≤ 800 }
{
    keep(exact, count, out);
    if above {
        lift(out, count);
    }
}

// Whether one of the two numbers of `count` digits about `exact` lies between; the nearer is tried first.
fn fits(
    low: &[u8; PLACES],
    exact: &[u8; PLACES],
    high: &[u8; PLACES],
    closed: bool,
    count: usize,
    out: &mut [u8; PLACES],
) -> bool
    requires { count ≤ 800 }
{
    let above = is_nearer_above(exact, count);
    round(exact, count, above, out);
    if reaches(low, out, closed) && reaches(out, high, closed) {
        return true;
    }
    round(exact, count, !above, out);
    reaches(low, out, closed) && reaches(out, high, closed)
}

// `low` and `high` are among the numbers between them where `closed` says so.
pub fn find(
    low: &[u8; PLACES],
    exact: &[u8; PLACES],
    high: &[u8; PLACES],
    closed: bool,
    out: &mut [u8; PLACES],
) {
    for before in first_of(exact).unwrap_or(PLACES)..PLACES {
        if fits(low, exact, high, closed, before + 1, out) {
            return;
        }
    }
}
