// Marks: lent bytes, one for a place. Where none is lent for a place, none is kept, and it reads as 0.
#![tactic(auto)]

ghost use Rattle.std.specs.Prelude.{◌≡◌, ℕ, ◌≤◌, ◌<◌, get_or, set};
ghost use Rattle.marks.specs.Marks.{cleared};

// The mark of a place.
pub fn at(marks: &[u8], i: usize) -> usize
    ensures { (result ≡ get_or marks.now i 0) × (result < 256) }
{
    if marks.len() <= i {
        return 0;
    }
    width::wide(marks[i])
}

// Keeps a mark, where there is room for it.
pub fn put(marks: &mut [u8], i: usize, m: usize)
    requires { m < 256 }
    ensures { marks.new ≡ set marks.old i m }
{
    if i < marks.len() {
        marks[i] = m as u8;
    }
}

// No marks.
pub fn clear(marks: &mut [u8])
    ensures { marks.new ≡ cleared marks.old }
{
    marks.fill(0);
}

// The larger of two heights.
pub fn larger(a: usize, b: usize) -> usize
    ensures { (a ≤ result) × (b ≤ result) × ((n : ℕ) → a ≤ n → b ≤ n → result ≤ n) }
{
    a.max(b)
}
