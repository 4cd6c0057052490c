// The dictionary's, the object layer's and the list layer's refusals as the six words of a strip.
#![tactic(auto)]

ghost use Rattle.std.specs.Prelude.{◌≡◌};
ghost use Rattle.dictionary.specs.Answers.{refusal_number as dictionary_number, refusal_place as dictionary_place};
ghost use Rattle.layer.specs.Answers.{refusal_number as object_number, refusal_place as object_place};
ghost use Rattle.list.specs.Answers.{refusal_number as list_number, refusal_place as list_place};
ghost use Rattle.strip.specs.Shapes.{refusal_words};
ghost use Rattle.strip.specs.Steps.{list_of};

use strip::{Words, refusal};

// Refusals 10 to 19.
pub fn of_dictionary_refusal(r: dictionary::Refusal) -> Words
    ensures { list_of result ≡ refusal_words (dictionary_number r) (dictionary_place r) }
{
    match r {
        dictionary::Refusal::TooLong => refusal(10, 0),
        dictionary::Refusal::Empty => refusal(11, 0),
        dictionary::Refusal::Version => refusal(12, 0),
        dictionary::Refusal::Short => refusal(13, 0),
        dictionary::Refusal::Sum => refusal(14, 0),
        dictionary::Refusal::FirstOffset => refusal(15, 0),
        dictionary::Refusal::NotUtf8(p) => refusal(16, p),
        dictionary::Refusal::Range(k) => refusal(17, k),
        dictionary::Refusal::NotAbove(k) => refusal(18, k),
        dictionary::Refusal::CutText(p) => refusal(19, p),
    }
}

// Refusals 20 to 28, and the dictionary's.
pub fn of_object_refusal(r: layer::Refusal) -> Words
    ensures { list_of result ≡ refusal_words (object_number r) (object_place r) }
{
    match r {
        layer::Refusal::Dictionary(d) => of_dictionary_refusal(d),
        layer::Refusal::TooLong => refusal(20, 0),
        layer::Refusal::Empty => refusal(21, 0),
        layer::Refusal::BasicType => refusal(22, 0),
        layer::Refusal::Short => refusal(23, 0),
        layer::Refusal::Sum => refusal(24, 0),
        layer::Refusal::NoSuchEntry(k) => refusal(25, k),
        layer::Refusal::NotAbove(k) => refusal(26, k),
        layer::Refusal::Offset(k) => refusal(27, k),
        layer::Refusal::EmptyChild(k) => refusal(28, k),
    }
}

// Refusals 60 to 62.
pub fn of_list_refusal(r: list::Refusal) -> Words
    ensures { list_of result ≡ refusal_words (list_number r) (list_place r) }
{
    match r {
        list::Refusal::Short => refusal(60, 0),
        list::Refusal::Sum => refusal(61, 0),
        list::Refusal::Offset(k) => refusal(62, k),
    }
}
