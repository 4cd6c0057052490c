// The object layer over a dictionary: its verdict, and its numbers for the layers above (object.rs: VariantObject).
#![tactic(auto)]

ghost use Rattle.fields.specs.Steps.{Over};
ghost use Rattle.object.specs.Promises.{CheckPromise};
ghost use Rattle.object.specs.Steps.{CheckedOf, OpeningOf};

use fields::check_rest;
use layer::{Layer, Refusal, read_header};

// What is told of an accepted layer: its field count, the start of its region, and the trimmed end.
#[derive(Clone, Copy)]
pub struct Accepted {
    pub count: usize,
    pub start: usize,
    pub end: usize,
}

impl From<Layer> for Accepted {
    ghost use Rattle.std.specs.Prelude.{◌≡◌};
    ghost use Rattle.object.specs.Answers.{accepted};

    ghost from_gives = { λ l a. a ≡ accepted l };

    fn from(l: Layer) -> Accepted {
        Accepted {
            count: l.count,
            start: l.start,
            end: l.end,
        }
    }
}

// A dictionary and an object that passed all checks.
#[derive(Clone, Copy)]
pub struct Message {
    pub header: dictionary::Header,
    pub layer: Layer,
}

// All checks of the layer, over a dictionary that passed its own: those it does not test again. Public for the lookup, which hands
// the header and the layer on by themselves, not gathered in a Message.
pub fn check_layer(dict: &[u8], h: dictionary::Header, object: &[u8]) -> Result<Layer, Refusal>
    requires { Over dict.now h }
    ensures { CheckedOf dict.now object.now result }
{
    let l = read_header(object)?;
    check_rest(dict, h, object, l)?;
    Ok(l)
}

// All checks, the dictionary's first, and the numbers of both where they pass.
pub fn open(dict: &[u8], object: &[u8]) -> Result<Message, Refusal>
    ensures { OpeningOf dict.now object.now result }
{
    let header = metadata::checked(dict)?;
    let layer = check_layer(dict, header, object)?;
    Ok(Message { header, layer })
}

// The verdict on an object layer.
pub fn check(dict: &[u8], object: &[u8]) -> Result<Accepted, Refusal>
    ensures { CheckPromise dict.now object.now result }
{
    let m = open(dict, object)?;
    Ok(Accepted::from(m.layer))
}
