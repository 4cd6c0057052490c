// One step of a path: a name in an object, or an index in a list (variant.rs: Variant::get_path).
#![tactic(auto)]

ghost use Rattle.std.specs.Prelude.{◌≡◌};
ghost use Rattle.fields.specs.Steps.{Over};
ghost use Rattle.layer.specs.Answers.{refused as layer_refused};
ghost use Rattle.elements.specs.Element.{element};
ghost use Rattle.elements.specs.Answers.{refused as element_refused};
ghost use Rattle.steps.specs.Path.Step.{named};
ghost use Rattle.parsing.specs.ReadBack.{step_at};
ghost use Rattle.strides.specs.Stride.{as_step};
ghost use Rattle.strides.specs.Answers.{refused, stride_numbers};
ghost use Rattle.strides.specs.Steps.{Stands, StrideOf};

use lookup::Found;

// The dictionary's and an object layer's refusals; a list layer's; and 53 with the step's number, in place of their 22.
#[derive(Drop)]
pub enum Refusal {
    Layer(layer::Refusal),
    List(list::Refusal),
    WrongKind(usize),
}

impl From<dictionary::Refusal> for Refusal {
    ghost use Rattle.std.specs.Prelude.{◌≡◌};
    ghost use Rattle.layer.specs.declared.Refusal.TheVariants.{Dictionary};
    ghost use Rattle.strides.specs.declared.Refusal.TheVariants.{Layer as OfLayer};

    ghost from_gives = { λ refusal r. r ≡ OfLayer (Dictionary refusal) };

    fn from(refusal: dictionary::Refusal) -> Refusal {
        Refusal::Layer(refusal.into())
    }
}

// A refusal of the object's, as that of step `number`.
fn of_object(r: layer::Refusal, number: usize) -> Refusal
    ensures { refused result ≡ as_step number (layer_refused r) }
{
    match r {
        layer::Refusal::BasicType => Refusal::WrongKind(number),
        other => Refusal::Layer(other),
    }
}

// A refusal of the list's, as that of step `number`.
fn of_list(r: elements::Refusal, number: usize) -> Refusal
    ensures { refused result ≡ as_step number (element_refused r) }
{
    match r {
        elements::Refusal::TooLong => Refusal::Layer(layer::Refusal::TooLong),
        elements::Refusal::Empty => Refusal::Layer(layer::Refusal::Empty),
        elements::Refusal::BasicType => Refusal::WrongKind(number),
        elements::Refusal::List(l) => Refusal::List(l),
    }
}

// A name, in an object.
fn by_name(
    dict: &[u8],
    h: dictionary::Header,
    value: &[u8],
    name: &[u8],
    number: usize,
) -> Result<Option<Found>, Refusal>
    requires { Over dict.now h }
    ensures { StrideOf dict.now value.now number (named name.now) result }
{
    match lookup::get_over(dict, h, value, name) {
        Ok(found) => Ok(found),
        Err(r) => Err(of_object(r, number)),
    }
}

// An index, in a list.
fn by_index(value: &[u8], index: usize, number: usize) -> Result<Option<Found>, Refusal>
    ensures { stride_numbers result ≡ as_step number (element value.now index) }
{
    match elements::get(value, index) {
        Ok(None) => Ok(None),
        Ok(Some(span)) => Ok(Some(Found {
            field: index,
            id: 0,
            start: span.start,
            end: span.end,
        })),
        Err(r) => Err(of_list(r, number)),
    }
}

// What stands where the step leads that three words say, from `row` on, into a value, over a dictionary that passed its checks.
pub fn take(
    dict: &[u8],
    h: dictionary::Header,
    value: &[u8],
    names: &[u8],
    words: &[u32],
    row: usize,
    number: usize,
) -> Result<Option<Found>, Refusal>
    requires { Over dict.now h × Stands names.now words.now row }
    ensures { StrideOf dict.now value.now number (step_at names.now words.now row) result }
{
    let a = words[row + 1] as usize;
    let b = words[row + 2] as usize;
    if words[row] == 0 {
        return by_name(dict, h, value, &names[a..b], number);
    }
    by_index(value, a + 0x1_0000_0000 * b, number)
}
