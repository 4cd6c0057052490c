// The check of a value and of all that is below it: value, object and list check call one another, the levels left falling (variant.rs,
// object.rs, list.rs: with_full_validation).
#![tactic(auto)]

ghost use Rattle.std.specs.Prelude.{◌+◌, ◌≤◌, ◌<◌};
ghost use Rattle.nodes.specs.Steps.{Within, Remembers, CheckOf, Opened};

use encoding::Header;
use nodes::{Container, Fault, Sound, Whole};
use part::Span;

// The value at a range of the whole, below which `left` levels of containers may come, itself among them. What is good is marked.
#[cycle(descent)]
pub fn check_value(
    over: &Whole,
    at: Span,
    left: usize,
    known: Span,
    marks: &mut [u8],
) -> Result<Sound, Fault>
    requires { Within over.now.dict.now over.now.header over.now.value.now at.start at.end × (left ≤ 32) × Remembers over.now.dict.now over.now.value.now marks.old known }
    ensures { CheckOf over.now.dict.now left over.now.value.now at.start at.end marks.new result }
{
    if let Some(height) = nodes::recalled(over.value, at, left, marks) {
        return Ok(Sound { height, known });
    }
    let good = check_new(over, at, left, known, marks)?;
    marks::put(marks, at.start, good.height + 1);
    Ok(good)
}

// The same of a value that is not marked, by what its header byte says: of a container come its own checks, and then its children.
#[cycle(descent)]
fn check_new(
    over: &Whole,
    at: Span,
    left: usize,
    known: Span,
    marks: &mut [u8],
) -> Result<Sound, Fault>
    requires { Within over.now.dict.now over.now.header over.now.value.now at.start at.end × (left ≤ 32) × Remembers over.now.dict.now over.now.value.now marks.old known }
    ensures { CheckOf over.now.dict.now left over.now.value.now at.start at.end marks.new result }
{
    match encoding::header_of(part::first_byte(over.value, at.start, at.end)) {
        Header::Primitive(_) => nodes::check_leaf(over.value, at, known),
        Header::ShortString(_) => nodes::check_leaf(over.value, at, known),
        Header::Object(w) => {
            let below = nodes::below(left, at.start)?;
            let c = nodes::open_object(over, at, w)?;
            check_children(over, at, c, below, known, marks)
        }
        Header::List(w) => {
            let below = nodes::below(left, at.start)?;
            let c = nodes::open_list(over.value, at, w)?;
            check_children(over, at, c, below, known, marks)
        }
    }
}

// The children of a container in order, each with `left` levels. A small leaf is good as it stands, and is not marked.
#[cycle(descent)]
fn check_children(
    over: &Whole,
    at: Span,
    c: Container,
    left: usize,
    known: Span,
    marks: &mut [u8],
) -> Result<Sound, Fault>
    requires { Within over.now.dict.now over.now.header over.now.value.now at.start at.end × (left < 32) × Remembers over.now.dict.now over.now.value.now marks.old known × Opened over.now.dict.now over.now.value.now at.start at.end c }
    ensures { CheckOf over.now.dict.now (left + 1) over.now.value.now at.start at.end marks.new result }
{
    let mut text = known;
    let mut height = 0;
    for k in 0..c.numbers.count {
        let child = nodes::child_at(over.value, at, c, k);
        if leaf::is_small(over.value, child.start, child.end) {
            continue;
        }
        let good = check_value(over, child, left, text, marks)?;
        height = marks::larger(height, good.height);
        text = good.known;
    }
    Ok(Sound {
        height: height + 1,
        known: text,
    })
}
