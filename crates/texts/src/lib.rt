// Strings inside strings: one range of a whole that is known to be text is kept, so that what lies in it is not read again. A string that
// overlaps or touches it makes it longer, and its new bytes alone are read; one that stands apart takes its place.
#![tactic(auto)]

ghost use Rattle.std.specs.Prelude.{◌≡◌, true, ◌≤◌, length};
ghost use Rattle.part.specs.Part.{part};
ghost use Rattle.chars.specs.Rfc3629.{Text};
ghost use Rattle.texts.specs.Known.{KnownOf, Tells, JudgedOf, Starts};

use part::Span;

// Whether the bytes from i to j are text.
#[tactic(auto, using(crate::proofs::Laws::verdict_tells))]
pub fn is_text(whole: &[u8], i: usize, j: usize) -> bool
    requires { (i ≤ j) × (j ≤ length whole.now) }
    ensures { Tells (part whole.now i j) result }
{
    utf8::check(&whole[i..j]).is_ok()
}

// Whether a character starts at i, or the text ends there.
fn starts_at(whole: &[u8], end: usize, i: usize) -> bool
    requires { end ≤ length whole.now }
    ensures { result ≡ true → Starts whole.now end i }
{
    if end <= i {
        return true;
    }
    if whole[i] < 0x80 {
        return true;
    }
    0xBF < whole[i]
}

// Whether the bytes from i to j lie in the range and cut no character of it.
fn covers(whole: &[u8], known: Span, i: usize, j: usize) -> bool
    requires { KnownOf whole.now known × (i ≤ j) }
    ensures { result ≡ true → Text (part whole.now i j) }
{
    if i < known.start {
        return false;
    }
    if known.end < j {
        return false;
    }
    if !starts_at(whole, known.end, i) {
        return false;
    }
    starts_at(whole, known.end, j)
}

// The range with what stands before it from i on, if that is text.
fn grow_left(whole: &[u8], known: Span, i: usize) -> Span
    requires { KnownOf whole.now known }
    ensures { KnownOf whole.now result }
{
    if known.start <= i {
        return known;
    }
    if is_text(whole, i, known.start) {
        return Span {
            start: i,
            end: known.end,
        };
    }
    known
}

// The range with what stands after it up to j, if that is text.
fn grow_right(whole: &[u8], known: Span, j: usize) -> Span
    requires { KnownOf whole.now known × (j ≤ length whole.now) }
    ensures { KnownOf whole.now result }
{
    if j <= known.end {
        return known;
    }
    if is_text(whole, known.end, j) {
        return Span {
            start: known.start,
            end: j,
        };
    }
    known
}

// Bytes of which the range tells nothing: they are read, and are the range from now on.
fn check_apart(whole: &[u8], i: usize, j: usize) -> Option<Span>
    requires { (i ≤ j) × (j ≤ length whole.now) }
    ensures { JudgedOf whole.now i j result }
{
    if is_text(whole, i, j) {
        return Some(Span { start: i, end: j });
    }
    None
}

// Whether the bytes from i to j are text, by the range where it tells: the range that is known to be text now; None where they are no text.
pub fn check(whole: &[u8], i: usize, j: usize, known: Span) -> Option<Span>
    requires { KnownOf whole.now known × (i ≤ j) × (j ≤ length whole.now) }
    ensures { JudgedOf whole.now i j result }
{
    if j < known.start {
        return check_apart(whole, i, j);
    }
    if known.end < i {
        return check_apart(whole, i, j);
    }
    let grown = grow_right(whole, grow_left(whole, known, i), j);
    if covers(whole, grown, i, j) {
        return Some(grown);
    }
    check_apart(whole, i, j)
}
