// Asking by path: the path's steps, and a walk by them, layer by layer (variant.rs: Variant::get_path).
#![tactic(auto)]

ghost use Rattle.fields.specs.Steps.{Over};
ghost use Rattle.path.specs.Promises.{GetPromise};
ghost use Rattle.path.specs.Steps.{Filled, WalkOf, AskedOf};

use lookup::Found;

// A path that is none; or a step that is refused.
#[derive(Drop)]
pub enum Refusal {
    Path(parsing::Refusal),
    Step(strides::Refusal),
}

impl From<parsing::Refusal> for Refusal {
    ghost use Rattle.std.specs.Prelude.{◌≡◌};
    ghost use Rattle.path.specs.declared.Refusal.TheVariants.{Path as OfPath};

    ghost from_gives = { λ refusal r. r ≡ OfPath refusal };

    fn from(refusal: parsing::Refusal) -> Refusal {
        Refusal::Path(refusal)
    }
}

impl From<strides::Refusal> for Refusal {
    ghost use Rattle.std.specs.Prelude.{◌≡◌};
    ghost use Rattle.path.specs.declared.Refusal.TheVariants.{Step as OfStep};

    ghost from_gives = { λ refusal r. r ≡ OfStep refusal };

    fn from(refusal: strides::Refusal) -> Refusal {
        Refusal::Step(refusal)
    }
}

// `count` steps, one after another, over a dictionary that passed its checks. Each layer is checked once, when it is stepped into.
fn walk(
    dict: &[u8],
    h: dictionary::Header,
    value: &[u8],
    names: &[u8],
    words: &[u32],
    count: usize,
) -> Result<Option<Found>, strides::Refusal>
    requires { Over dict.now h × Filled names.now words.now count }
    ensures { WalkOf dict.now value.now names.now words.now count result }
{
    let mut at = Found {
        field: 0,
        id: 0,
        start: 0,
        end: value.len(),
    };
    for number in 0..count {
        let handed = &value[at.start..at.end];
        match strides::take(dict, h, handed, names, words, 3 * number, number)? {
            None => return Ok(None),
            Some(found) => {
                at = Found {
                    field: found.field,
                    id: found.id,
                    start: at.start + found.start,
                    end: at.start + found.end,
                };
            }
        }
    }
    Ok(Some(at))
}

// The dictionary's checks, and then the walk.
fn ask(
    dict: &[u8],
    value: &[u8],
    names: &[u8],
    words: &[u32],
    count: usize,
) -> Result<Option<Found>, strides::Refusal>
    requires { Filled names.now words.now count }
    ensures { AskedOf dict.now value.now names.now words.now count result }
{
    let h = metadata::checked(dict)?;
    walk(dict, h, value, names, words, count)
}

// What stands at the end of a path; None where a step finds nothing.
pub fn get(
    dict: &[u8],
    value: &[u8],
    path: &[u8],
    names: &mut [u8],
    words: &mut [u32],
) -> Result<Option<Found>, Refusal>
    ensures { GetPromise dict.now value.now path.now names.old words.old result names.new words.new }
{
    let parsed = parsing::parse(path, names, words)?;
    Ok(ask(dict, value, names, words, parsed.count)?)
}
