// A whole number as decimal digits, the highest first. What passes the first place is lost: no number of a float is so long.
ghost use Rattle.std.specs.Prelude.{◌≤◌, ◌<◌, IfSome};

use width::wide;

// The longest is a number below 2^56 times the 1,076th power of five: 769 digits.
pub const PLACES: usize = 800;

pub fn put(digits: &mut [u8; PLACES], n: usize) {
    let mut left = n;
    for i in (0..PLACES).rev() {
        digits[i] = (left % 10) as u8;
        left /= 10;
    }
}

fn product(digit: u8, factor: usize) -> usize
    requires { factor ≤ 15625 }
    ensures { result ≤ 3984375 }
{
    wide(digit) * factor
}

fn times(digits: &mut [u8; PLACES], factor: usize)
    requires { factor ≤ 15625 }
{
    let mut carry: usize = 0;
    for i in (0..PLACES).rev() {
        let sum = product(digits[i], factor) + carry;
        digits[i] = (sum % 10) as u8;
        carry = sum / 10;
    }
}

// What a number is multiplied by, again and again.
#[derive(Clone, Copy)]
pub enum Base {
    Two,
    Five,
}

// A base, and its sixth power.
fn factors(base: Base) -> (usize, usize)
    ensures { (result.0 ≤ 15625) × (result.1 ≤ 15625) }
{
    match base {
        Base::Two => (2, 64),
        Base::Five => (5, 15625),
    }
}

// The number times a base, so many times: six of them in one turn while so many are left.
pub fn raise(digits: &mut [u8; PLACES], base: Base, by: usize) {
    let (once, six_times) = factors(base);
    for _ in 0..by / 6 {
        times(digits, six_times);
    }
    for _ in 0..by % 6 {
        times(digits, once);
    }
}

// The place of the first digit that is not 0.
pub fn first_of(digits: &[u8; PLACES]) -> Option<usize>
    ensures { IfSome result (λ place. place < 800) }
{
    digits.iter().position(|digit| *digit != 0)
}

// The place after the last digit that is not 0; the first where all are.
pub fn end_of(digits: &[u8; PLACES]) -> usize
    ensures { result ≤ 800 }
{
    for end in (0..PLACES).rev() {
        if digits[end] != 0 {
            return end + 1;
        }
    }
    0
}

// The first `count` digits of a number, and zeros after them.
pub fn keep(digits: &[u8; PLACES], count: usize, out: &mut [u8; PLACES])
    requires { count ≤ 800 }
{
    *out = *digits;
    out[count..].fill(0);
}

// The number with one more at the last of its first `count` digits.
pub fn lift(digits: &mut [u8; PLACES], count: usize)
    requires { count ≤ 800 }
{
    for i in (0..count).rev() {
        if digits[i] < 9 {
            digits[i] += 1;
            return;
        }
        digits[i] = 0;
    }
}
