// Writing a sorted dictionary from names (document 02, j).
#![tactic(auto)]

ghost use Rattle.std.specs.Prelude.{◌≡◌};
ghost use Rattle.run.specs.Meaning.{GoodEnds};
ghost use Rattle.fill.specs.Steps.{list_of, Sorted};
ghost use Rattle.write.specs.declared.Refusal.TheVariants as refusal;
ghost use Rattle.write.specs.Steps.{Finished};
ghost use Rattle.write.specs.Promises.{DictionaryPromise};

use lay::TooLong;
use run::BadName;
use source::Source;

// What was written: how many names, and how many bytes.
#[derive(Clone, Copy)]
pub struct Written {
    pub count: usize,
    pub length: usize,
}

// 45, 10, 46.
#[derive(Clone, Copy)]
pub enum Refusal {
    BadName(usize),
    TooLong,
    NoRoom,
}

impl From<BadName> for Refusal {
    ghost from_gives = { λ name r. r ≡ refusal.BadName name.number };

    fn from(name: BadName) -> Refusal {
        Refusal::BadName(name.number)
    }
}

impl From<TooLong> for Refusal {
    ghost from_gives = { λ _ r. r ≡ refusal.TooLong };

    fn from(_long: TooLong) -> Refusal {
        Refusal::TooLong
    }
}

// Once the names are known to be good: the sizes, 10, 46, and the bytes.
fn finish(
    run: &[u8],
    ends: &[u32],
    order: Option<&[u32]>,
    room: &mut [u8],
) -> Result<Written, Refusal>
    requires { GoodEnds run.now ends.now × Sorted run.now ends.now order }
    ensures { Finished (list_of run.now ends.now) room.old room.new result }
{
    let sizes = lay::measure(run, ends, run, order, Source::Ends)?;
    let w = fill::width_for(sizes.count, sizes.sum);
    let region = 1 + w + w * (sizes.count + 1);
    let length = region + sizes.sum;
    let limit = dictionary::LIMIT;
    if limit < length {
        return Err(Refusal::TooLong);
    }
    let free = room.len();
    if free < length {
        return Err(Refusal::NoRoom);
    }
    fill::write_all(run, ends, order, room, w, sizes.count, region);
    Ok(Written {
        count: sizes.count,
        length,
    })
}

// A sorted dictionary of the names, each once, at the front of `room`. `order` and `spare` are scratch: with a word for each name in both
// the names are sorted there, and with fewer each is searched for, which is slower and answers the same.
pub fn write_dictionary(
    run: &[u8],
    ends: &[u32],
    order: &mut [u32],
    spare: &mut [u32],
    room: &mut [u8],
) -> Result<Written, Refusal>
    ensures { DictionaryPromise run.now ends.now room.old result room.new }
{
    given::check(run, ends)?;
    let plan = pick::plan_for(run, ends, order, spare, Source::Ends);
    finish(run, ends, pick::sorted(order, plan), room)
}
