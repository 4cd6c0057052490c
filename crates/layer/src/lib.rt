// The object layer's first bytes: its refusals, the numbers of its header, and a field's id and offset (object.rs: VariantObject).
#![tactic(auto)]

ghost use Rattle.std.specs.Prelude.{◌≡◌, ◌≤◌, ◌<◌};
ghost use Rattle.layer.specs.Object.{count as count_of, id as id_of, offset as offset_of};
ghost use Rattle.layer.specs.Steps.{LeadOf, LayerOf, HeadOf};

use encoding::Header;
use layout::Widths;

// One case for each of the refusals 20 to 28, with its place, and the dictionary's own.
#[derive(Drop)]
pub enum Refusal {
    Dictionary(dictionary::Refusal),
    TooLong,
    Empty,
    BasicType,
    Short,
    Sum,
    NoSuchEntry(usize),
    NotAbove(usize),
    Offset(usize),
    EmptyChild(usize),
}

impl From<dictionary::Refusal> for Refusal {
    ghost use Rattle.std.specs.Prelude.{◌≡◌};
    ghost use Rattle.layer.specs.declared.Refusal.TheVariants.{Dictionary};

    ghost from_gives = { λ refusal r. r ≡ Dictionary refusal };

    fn from(refusal: dictionary::Refusal) -> Refusal {
        Refusal::Dictionary(refusal)
    }
}

impl From<layout::Flaw> for Refusal {
    ghost use Rattle.std.specs.Prelude.{◌≡◌};
    ghost use Rattle.layer.specs.Answers.{of_layout};

    ghost from_gives = { λ flaw r. r ≡ of_layout flaw };

    fn from(flaw: layout::Flaw) -> Refusal {
        match flaw {
            layout::Flaw::Cut => Refusal::Short,
            layout::Flaw::Sum => Refusal::Sum,
            layout::Flaw::Longer => Refusal::Short,
        }
    }
}

// The numbers that the first bytes hold, handed on by value so that nothing is parsed twice.
#[derive(Clone, Copy)]
pub struct Layer {
    pub id_width: usize,
    pub offset_width: usize,
    pub count: usize,
    pub ids: usize,
    pub offsets: usize,
    pub start: usize,
    pub end: usize,
}

// Checks 23 and 24, those of the layout, and the numbers where they pass.
fn read_layout(object: &[u8], w: Widths) -> Result<Layer, Refusal>
    requires { LeadOf object.now w }
    ensures { HeadOf object.now result }
{
    let n = layout::read(object, w)?;
    Ok(Layer {
        id_width: w.id,
        offset_width: w.offset,
        count: n.count,
        ids: 1 + w.count,
        offsets: n.offsets,
        start: n.start,
        end: n.end,
    })
}

// Checks 20 to 24, and the numbers where they pass.
pub fn read_header(object: &[u8]) -> Result<Layer, Refusal>
    ensures { HeadOf object.now result }
{
    if dictionary::LIMIT < object.len() {
        return Err(Refusal::TooLong);
    }
    if object.len() < 1 {
        return Err(Refusal::Empty);
    }
    let header = encoding::header_of(object[0]);
    match header {
        Header::Object(w) => read_layout(object, w),
        Header::Primitive(_) => Err(Refusal::BasicType),
        Header::ShortString(_) => Err(Refusal::BasicType),
        Header::List(_) => Err(Refusal::BasicType),
    }
}

// Field k's id. Like offset_at it tests nothing: the layers above call both for fields of a checked layer.
pub fn id_at(object: &[u8], l: Layer, k: usize) -> usize
    requires { LayerOf object.now l × (k < count_of object.now) }
    ensures { (result ≡ id_of object.now k) × (result < 4294967296) }
{
    let w = l.id_width;
    width::unpack_u32(object, l.ids + w * k, w)
}

// Offset k of the n + 1.
pub fn offset_at(object: &[u8], l: Layer, k: usize) -> usize
    requires { LayerOf object.now l × (k ≤ count_of object.now) }
    ensures { (result ≡ offset_of object.now k) × (result < 4294967296) }
{
    let w = l.offset_width;
    width::unpack_u32(object, l.offsets + w * k, w)
}
