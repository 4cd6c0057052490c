// The list layer: its checks, and where an element stands (list.rs: VariantList).
#![tactic(auto)]

ghost use Rattle.std.specs.Prelude.{◌≡◌, ◌<◌};
ghost use Rattle.rules.specs.Rules.{first, each};
ghost use Rattle.layout.specs.Layout.{count as count_of};
ghost use Rattle.layout.specs.Steps.{Few, NumbersOf};
ghost use Rattle.list.specs.List.{element_rules};
ghost use Rattle.list.specs.Steps.{found_of, CheckedOf, Opened, ElementOf};

use layout::{Numbers, Widths, offset_at};
use part::Span;

// One case for each of the refusals 60 to 62, with its place.
#[derive(Clone, Copy)]
pub enum Refusal {
    Short,
    Sum,
    Offset(usize),
}

impl From<layout::Flaw> for Refusal {
    ghost use Rattle.std.specs.Prelude.{◌≡◌};
    ghost use Rattle.list.specs.Answers.{of_layout};

    ghost from_gives = { λ flaw r. r ≡ of_layout flaw };

    fn from(flaw: layout::Flaw) -> Refusal {
        match flaw {
            layout::Flaw::Cut => Refusal::Short,
            layout::Flaw::Sum => Refusal::Sum,
            layout::Flaw::Longer => Refusal::Short,
        }
    }
}

// Check 62, element by element. Each offset is read once.
fn check_offsets(list: &[u8], w: Widths, l: Numbers) -> Result<(), Refusal>
    requires { Few w × NumbersOf list.now w l }
    ensures { found_of result ≡ first (each (element_rules w list.now) (count_of w list.now)) }
{
    let length = l.end - l.start;
    let mut from = offset_at(list, w, l, 0);
    for k in 0..l.count {
        let to = offset_at(list, w, l, k + 1);
        if to < from {
            return Err(Refusal::Offset(k));
        }
        if length < from {
            return Err(Refusal::Offset(k));
        }
        from = to;
    }
    Ok(())
}

// All checks of a list whose header byte says these widths.
pub fn check(list: &[u8], w: Widths) -> Result<Numbers, Refusal>
    requires { Few w }
    ensures { CheckedOf w list.now result }
{
    let l = layout::read(list, w)?;
    check_offsets(list, w, l)?;
    Ok(l)
}

// Where element k of a checked list stands, counted from the list's first byte. It tests nothing.
pub fn element(list: &[u8], w: Widths, l: Numbers, k: usize) -> Span
    requires { Opened w list.now l × (k < count_of w list.now) }
    ensures { ElementOf w list.now k result }
{
    let v = l.start;
    Span {
        start: v + offset_at(list, w, l, k),
        end: v + offset_at(list, w, l, k + 1),
    }
}
