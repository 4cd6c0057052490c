// A sorted dictionary's bytes from the names of a run, each once, into lent room.
#![tactic(auto)]

ghost use Rattle.std.specs.Prelude.{◌≡◌, max};
ghost use Rattle.std.proofs.lemmas.List.Edits.{sets};
ghost use Rattle.run.specs.Meaning.{GoodEnds};
ghost use Rattle.lay.specs.Bytes.{width_of};
ghost use Rattle.fill.specs.Bytes.{layout};
ghost use Rattle.fill.specs.Steps.{list_of, Sorted, Laid};

use source::Source;

// The smallest width that holds both the count and the total length.
pub fn width_for(count: usize, sum: usize) -> usize
    ensures { result ≡ width_of (max count sum) }
{
    if count < sum {
        return lay::width_of(sum);
    }
    lay::width_of(count)
}

// All of it, at the front of the room, whose region starts at `region`.
pub fn write_all(
    run: &[u8],
    ends: &[u32],
    order: Option<&[u32]>,
    room: &mut [u8],
    w: usize,
    count: usize,
    region: usize,
)
    requires { GoodEnds run.now ends.now × Sorted run.now ends.now order × Laid w (list_of run.now ends.now) room.old count region }
    ensures { room.new ≡ sets room.old 0 (layout w (list_of run.now ends.now)) }
{
    room[0] = (0x11 + 64 * (w - 1)) as u8;
    put::number(count, w, room, 1);
    lay::write_entries(run, ends, run, order, room, w, 1 + w, region, Source::Ends);
}
