// What the check of a tree is made of: what it comes to, what is remembered, leaves, and where a container's children stand.
#![tactic(auto)]

ghost use Rattle.std.specs.Prelude.{◌≡◌, ◌≤◌, ◌<◌, length};
ghost use Rattle.part.specs.Part.{part};
ghost use Rattle.layout.specs.Layout.{count as count_of};
ghost use Rattle.layout.specs.Steps.{Few};
ghost use Rattle.encoding.specs.declared.Header.TheVariants as header;
ghost use Rattle.texts.specs.Known.{KnownOf};
ghost use Rattle.nodes.specs.Meaning.{head_of};
ghost use Rattle.nodes.specs.Steps.{Within, Recalls, LeafOf, BelowOf, Stands, ChildOf, OpeningOf, ListOpeningOf};

use part::Span;

// The dictionary's and an object layer's refusals; a list layer's; a leaf's; and 52.
#[derive(Drop)]
pub enum Refusal {
    Layer(layer::Refusal),
    List(list::Refusal),
    Leaf(leaf::Refusal),
    TooDeep,
}

// A value that is good by so many levels of containers, and the range of the whole that is known to be text now.
#[derive(Clone, Copy)]
pub struct Sound {
    pub height: usize,
    pub known: Span,
}

// The first refusal, and where its value starts.
#[derive(Drop)]
pub struct Fault {
    pub refusal: Refusal,
    pub start: usize,
}

// A dictionary's refusal is of no value, and is told with start 0.
impl From<dictionary::Refusal> for Fault {
    ghost use Rattle.std.specs.Prelude.{◌≡◌};
    ghost use Rattle.nodes.specs.Answers.{of_dictionary};

    ghost from_gives = { λ refusal bad. bad ≡ of_dictionary refusal };

    fn from(refusal: dictionary::Refusal) -> Fault {
        Fault {
            refusal: Refusal::Layer(layer::Refusal::Dictionary(refusal)),
            start: 0,
        }
    }
}

// A value that is checked whole, over a dictionary that passed its own checks.
#[derive(Clone, Copy)]
pub struct Whole<'a> {
    pub dict: &'a [u8],
    pub header: dictionary::Header,
    pub value: &'a [u8],
}

// An object or a list whose own checks passed: the numbers of its header.
#[derive(Clone, Copy)]
pub struct Container {
    pub widths: layout::Widths,
    pub numbers: layout::Numbers,
    pub is_list: bool,
}

// The levels by which the marks know a value to be good, where these are few enough. A mark is of a start: the value has to end
// within what is at hand, too.
pub fn recalled(whole: &[u8], at: Span, left: usize, marks: &[u8]) -> Option<usize>
    requires { (at.start ≤ at.end) × (at.end ≤ length whole.now) }
    ensures { Recalls left whole.now at.start at.end marks.now result }
{
    let mark = marks::at(marks, at.start);
    if mark == 0 {
        return None;
    }
    let height = mark - 1;
    if left < height {
        return None;
    }
    if lengths::is_known(lengths::own_length(&whole[at.start..at.end])) {
        return Some(height);
    }
    None
}

// A leaf, with the range that is known to be text after it.
pub fn check_leaf(whole: &[u8], at: Span, known: Span) -> Result<Sound, Fault>
    requires { (at.start ≤ at.end) × (at.end ≤ length whole.now) × KnownOf whole.now known }
    ensures { LeafOf whole.now at.start at.end result }
{
    match leaf::check(whole, at.start, at.end, known) {
        Ok(text) => Ok(Sound {
            height: 0,
            known: text,
        }),
        Err(r) => Err(Fault {
            refusal: Refusal::Leaf(r),
            start: at.start,
        }),
    }
}

// The levels that are left below a container; with none, it is refused before its own checks.
pub fn below(left: usize, start: usize) -> Result<usize, Fault>
    ensures { BelowOf left start result }
{
    left.checked_sub(1).ok_or(Fault {
        refusal: Refusal::TooDeep,
        start,
    })
}

// Where child k of a container stands.
pub fn child_at(whole: &[u8], at: Span, c: Container, k: usize) -> Span
    requires { Stands whole.now at.start at.end c × (k < count_of c.widths (part whole.now at.start at.end)) }
    ensures { ChildOf whole.now at.start at.end c k result }
{
    let s = &whole[at.start..at.end];
    if c.is_list {
        let element = list::element(s, c.widths, c.numbers, k);
        return Span {
            start: at.start + element.start,
            end: at.start + element.end,
        };
    }
    let offset = layout::offset_at(s, c.widths, c.numbers, k);
    Span {
        start: at.start + c.numbers.start + offset,
        end: at.start + c.numbers.end,
    }
}

// An object's own checks, those of its layer.
pub fn open_object(over: &Whole, at: Span, w: layout::Widths) -> Result<Container, Fault>
    requires { Within over.now.dict.now over.now.header over.now.value.now at.start at.end × (head_of (part over.now.value.now at.start at.end) ≡ header.Object w) × Few w }
    ensures { OpeningOf over.now.dict.now over.now.value.now at.start at.end result }
{
    match object::check_layer(over.dict, over.header, &over.value[at.start..at.end]) {
        Err(r) => Err(Fault {
            refusal: Refusal::Layer(r),
            start: at.start,
        }),
        Ok(l) => Ok(Container {
            widths: w,
            numbers: layout::Numbers {
                count: l.count,
                offsets: l.offsets,
                start: l.start,
                end: l.end,
            },
            is_list: false,
        }),
    }
}

// A list's own checks.
pub fn open_list(whole: &[u8], at: Span, w: layout::Widths) -> Result<Container, Fault>
    requires { (at.start ≤ at.end) × (at.end ≤ length whole.now) × (head_of (part whole.now at.start at.end) ≡ header.List w) × Few w }
    ensures { ListOpeningOf whole.now at.start at.end result }
{
    match list::check(&whole[at.start..at.end], w) {
        Err(r) => Err(Fault {
            refusal: Refusal::List(r),
            start: at.start,
        }),
        Ok(l) => Ok(Container {
            widths: w,
            numbers: l,
            is_list: true,
        }),
    }
}
