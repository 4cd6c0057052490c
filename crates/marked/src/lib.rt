// The full check of a value over a dictionary and over marks that are all 0 (variant.rs: with_full_validation).
#![tactic(auto)]

ghost use Rattle.std.specs.Prelude.{◌≡◌, ◌-◌};
ghost use Rattle.marks.specs.Marks.{cleared};
ghost use Rattle.nodes.specs.Tree.{levels};
ghost use Rattle.marked.specs.Promises.{CheckAtPromise};

use nodes::{Fault, Refusal, Whole};
use part::Span;

// A container at this depth is refused.
const LEVELS: usize = 32;

// How many levels of containers may come from this depth on.
fn levels_from(depth: usize) -> usize
    ensures { result ≡ levels - depth }
{
    LEVELS.saturating_sub(depth)
}

// The check of a value that is met at a depth, over marks that are all 0: accepted, with the value's own length; or the first refusal.
pub fn check_marked(
    dict: &[u8],
    value: &[u8],
    depth: usize,
    marks: &mut [u8],
) -> Result<usize, Fault>
    requires { marks.old ≡ cleared marks.old }
    ensures { CheckAtPromise depth dict.now value.now result }
{
    let header = metadata::checked(dict)?;
    if dictionary::LIMIT < value.len() {
        return Err(Fault {
            refusal: Refusal::Layer(layer::Refusal::TooLong),
            start: 0,
        });
    }
    let over = Whole {
        dict,
        header,
        value,
    };
    let all = Span {
        start: 0,
        end: value.len(),
    };
    let none = Span { start: 0, end: 0 };
    descent::check_value(&over, all, levels_from(depth), none, marks)?;
    Ok(lengths::bytes_of(lengths::own_length(value)))
}
