// Leaves, primitives and short strings: their length, and the text of strings (variant.rs: Variant; utils.rs: string_from_slice).
#![tactic(auto)]

ghost use Rattle.std.specs.Prelude.{◌≡◌, true, ◌+◌, ◌≤◌, ◌<◌, length, Ok};
ghost use Rattle.part.specs.Part.{part};
ghost use Rattle.chars.specs.Rfc3629.{Text};
ghost use Rattle.lengths.specs.Lengths.{own_length};
ghost use Rattle.texts.specs.Known.{KnownOf};
ghost use Rattle.encoding.specs.declared.Header.TheVariants as header;
ghost use Rattle.leaf.specs.Leaf.{is_string as is_text_by};
ghost use Rattle.leaf.specs.Steps.{TextOf, LeafOf, SmallOf};

use encoding::Header;
use part::Span;

// One case for each of the refusals 50, 51 and 54.
#[derive(Clone, Copy)]
pub enum Refusal {
    Short,
    Unknown,
    NotUtf8,
}

impl From<lengths::Flaw> for Refusal {
    ghost use Rattle.std.specs.Prelude.{◌≡◌};
    ghost use Rattle.leaf.specs.Answers.{of_length};

    ghost from_gives = { λ flaw r. r ≡ of_length flaw };

    fn from(flaw: lengths::Flaw) -> Refusal {
        match flaw {
            lengths::Flaw::Cut => Refusal::Short,
            lengths::Flaw::Sum => Refusal::Short,
            lengths::Flaw::Unknown => Refusal::Unknown,
            lengths::Flaw::Longer => Refusal::Short,
        }
    }
}

// Whether a short string's n bytes of text, after its header byte at a, are there and are UTF-8.
fn is_short_text(whole: &[u8], a: usize, e: usize, n: usize) -> bool
    requires { (a < e) × (e ≤ length whole.now) }
    ensures { result ≡ true → (a + 1 + n ≤ e) × Text (part whole.now (a + 1) (a + 1 + n)) }
{
    if e - a <= n {
        return false;
    }
    texts::is_text(whole, a + 1, a + 1 + n)
}

// Whether the value from a to e is a good leaf by a few bytes alone: a primitive of a fixed length, or a short string. What most messages are
// made of is told so without a mark, and without the range of known text: a string of 63 bytes is soon read again.
pub fn is_small(whole: &[u8], a: usize, e: usize) -> bool
    requires { (a ≤ e) × (e ≤ length whole.now) }
    ensures { SmallOf whole.now a e result }
{
    if e <= a {
        return false;
    }
    let header = encoding::header_of(whole[a]);
    match header {
        Header::Primitive(t) => match lengths::fixed_length(t) {
            Some(bytes) => bytes <= e - a,
            None => false,
        },
        Header::ShortString(n) => is_short_text(whole, a, e, n),
        Header::Object(_) => false,
        Header::List(_) => false,
    }
}

// The string whose text is from i to j of the whole.
fn check_text(whole: &[u8], i: usize, j: usize, known: Span) -> Result<Span, Refusal>
    requires { KnownOf whole.now known × (i ≤ j) × (j ≤ length whole.now) }
    ensures { TextOf whole.now i j result }
{
    texts::check(whole, i, j, known).ok_or(Refusal::NotUtf8)
}

// Whether a primitive's bytes are text. Those of type 15 are not judged.
#[tactic(auto, unfolding(crate::specs::Leaf::is_string))]
fn is_string(t: usize) -> bool
    ensures { result ≡ is_text_by (header.Primitive t) }
{
    t == 16
}

// The leaf from a to e of the whole, whose own bytes are n.
fn check_measured(whole: &[u8], a: usize, e: usize, n: usize, known: Span) -> Result<Span, Refusal>
    requires { (a ≤ e) × (e ≤ length whole.now) × KnownOf whole.now known × (own_length (part whole.now a e) ≡ Ok n) }
    ensures { LeafOf whole.now a e result }
{
    let header = encoding::header_of(whole[a]);
    match header {
        Header::Primitive(t) => {
            if is_string(t) {
                return check_text(whole, a + 5, a + n, known);
            }
            Ok(known)
        }
        Header::ShortString(_) => check_text(whole, a + 1, a + n, known),
        Header::Object(_) => Ok(known),
        Header::List(_) => Ok(known),
    }
}

// All checks of the leaf from a to e of the whole, with the range of the whole that is known to be text; what is good tells the range that is
// known to be text now.
pub fn check(whole: &[u8], a: usize, e: usize, known: Span) -> Result<Span, Refusal>
    requires { (a ≤ e) × (e ≤ length whole.now) × KnownOf whole.now known }
    ensures { LeafOf whole.now a e result }
{
    let n = lengths::own_length(&whole[a..e])?;
    check_measured(whole, a, e, n, known)
}
