// One element of a list, asked for by its index (variant.rs: Variant::get_list_element).
#![tactic(auto)]

ghost use Rattle.layout.specs.Steps.{Few};
ghost use Rattle.elements.specs.Promises.{GetPromise, Lead};

use encoding::Header;
use part::Span;

// One case for each of the refusals 20 to 22, and the list's own.
#[derive(Clone, Copy)]
pub enum Refusal {
    TooLong,
    Empty,
    BasicType,
    List(list::Refusal),
}

impl From<list::Refusal> for Refusal {
    ghost use Rattle.std.specs.Prelude.{◌≡◌};
    ghost use Rattle.elements.specs.declared.Refusal.TheVariants.{List as OfList};

    ghost from_gives = { λ refusal r. r ≡ OfList refusal };

    fn from(refusal: list::Refusal) -> Refusal {
        Refusal::List(refusal)
    }
}

// The list's own checks, and where the element stands.
fn get_in(list: &[u8], w: layout::Widths, index: usize) -> Result<Option<Span>, Refusal>
    requires { Few w × Lead list.now w }
    ensures { GetPromise list.now index result }
{
    let l = list::check(list, w)?;
    if index < l.count {
        let span = list::element(list, w, l, index);
        return Ok(Some(span));
    }
    Ok(None)
}

// The element of that index: where it stands, or nothing where the list has no more than `index` elements.
pub fn get(list: &[u8], index: usize) -> Result<Option<Span>, Refusal>
    ensures { GetPromise list.now index result }
{
    if dictionary::LIMIT < list.len() {
        return Err(Refusal::TooLong);
    }
    if list.len() < 1 {
        return Err(Refusal::Empty);
    }
    let header = encoding::header_of(list[0]);
    match header {
        Header::List(w) => get_in(list, w, index),
        Header::Primitive(_) => Err(Refusal::BasicType),
        Header::ShortString(_) => Err(Refusal::BasicType),
        Header::Object(_) => Err(Refusal::BasicType),
    }
}
