// The answer to a path as the six words of a strip.
#![tactic(auto)]

ghost use Rattle.std.specs.Prelude.{◌≡◌};
ghost use Rattle.parsing.specs.Answers.{refusal_number as path_number};
ghost use Rattle.strides.specs.Answers.{refusal_number, refusal_place};
ghost use Rattle.path.specs.Answers.{asked_numbers};
ghost use Rattle.strip.specs.Shapes.{words_of, lookup_shape, refusal_words};
ghost use Rattle.strip.specs.Steps.{list_of};

use lookup::Found;
use refusals::{of_list_refusal, of_object_refusal};
use strip::{Words, answer, refusal};

// Refusals 70 to 76.
fn of_path_refusal(r: parsing::Refusal) -> Words
    ensures { list_of result ≡ refusal_words (path_number r) 0 }
{
    match r {
        parsing::Refusal::NotUtf8 => refusal(70, 0),
        parsing::Refusal::LeadingDot => refusal(71, 0),
        parsing::Refusal::TrailingDot => refusal(72, 0),
        parsing::Refusal::Unexpected => refusal(73, 0),
        parsing::Refusal::Unclosed => refusal(74, 0),
        parsing::Refusal::Bracket => refusal(75, 0),
        parsing::Refusal::NoRoom => refusal(76, 0),
    }
}

// The refusals of a step.
fn of_step_refusal(r: strides::Refusal) -> Words
    ensures { list_of result ≡ refusal_words (refusal_number r) (refusal_place r) }
{
    match r {
        strides::Refusal::Layer(o) => of_object_refusal(o),
        strides::Refusal::List(l) => of_list_refusal(l),
        strides::Refusal::WrongKind(n) => refusal(53, n),
    }
}

pub fn of_asked(asked: Result<Option<Found>, path::Refusal>) -> Words
    ensures { list_of result ≡ words_of lookup_shape (asked_numbers asked) }
{
    match asked {
        Err(path::Refusal::Path(r)) => of_path_refusal(r),
        Err(path::Refusal::Step(r)) => of_step_refusal(r),
        Ok(None) => refusal(1, 0),
        Ok(Some(found)) => answer(found.field, found.id, found.start, found.end),
    }
}
