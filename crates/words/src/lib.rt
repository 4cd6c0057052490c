// Each call's answer as the six words of a strip.
#![tactic(auto)]

ghost use Rattle.std.specs.Prelude.{◌≡◌, [], ◌∷◌};
ghost use Rattle.metadata.specs.Answers.{verdict_numbers, entry_numbers};
ghost use Rattle.object.specs.Answers.{verdict_numbers as layer_numbers};
ghost use Rattle.lookup.specs.Answers.{lookup_numbers};
ghost use Rattle.many.specs.Answers.{lookups_numbers};
ghost use Rattle.listing.specs.Answers.{listing_numbers};
ghost use Rattle.strip.specs.Shapes.{words_of, lookup_shape, layer_shape, dictionary_shape, name_shape};
ghost use Rattle.strip.specs.Steps.{list_of};

use lookup::Found;
use part::Span;
use refusals::{of_dictionary_refusal, of_object_refusal};
use strip::{Words, answer, refusal};

pub fn of_verdict(v: Result<metadata::Accepted, dictionary::Refusal>) -> Words
    ensures { list_of result ≡ words_of dictionary_shape (verdict_numbers v) }
{
    match v {
        Err(r) => of_dictionary_refusal(r),
        Ok(a) => answer(a.count, 0, 0, a.end),
    }
}

pub fn of_entry(e: Result<Option<Span>, dictionary::Refusal>) -> Words
    ensures { list_of result ≡ words_of name_shape (entry_numbers e) }
{
    match e {
        Err(r) => of_dictionary_refusal(r),
        Ok(None) => refusal(31, 0),
        Ok(Some(s)) => answer(0, 0, s.start, s.end),
    }
}

// The numbers of a layer that is accepted, which the listing and many names give too.
fn of_accepted(a: object::Accepted) -> Words
    ensures { list_of result ≡ 0 ∷ a.count ∷ 0 ∷ a.start ∷ a.end ∷ 0 ∷ [] }
{
    answer(a.count, 0, a.start, a.end)
}

pub fn of_layer(v: Result<object::Accepted, layer::Refusal>) -> Words
    ensures { list_of result ≡ words_of layer_shape (layer_numbers v) }
{
    match v {
        Err(r) => of_object_refusal(r),
        Ok(a) => of_accepted(a),
    }
}

pub fn of_lookup(l: Result<Option<Found>, layer::Refusal>) -> Words
    ensures { list_of result ≡ words_of lookup_shape (lookup_numbers l) }
{
    match l {
        Err(r) => of_object_refusal(r),
        Ok(None) => refusal(1, 0),
        Ok(Some(f)) => answer(f.field, f.id, f.start, f.end),
    }
}

pub fn of_lookups(l: Result<object::Accepted, many::Refusal>) -> Words
    ensures { list_of result ≡ words_of layer_shape (lookups_numbers l) }
{
    match l {
        Err(many::Refusal::BadEnd(k)) => refusal(45, k),
        Err(many::Refusal::Layer(r)) => of_object_refusal(r),
        Err(many::Refusal::NoRoom) => refusal(41, 0),
        Ok(a) => of_accepted(a),
    }
}

pub fn of_listing(l: Result<object::Accepted, listing::Refusal>) -> Words
    ensures { list_of result ≡ words_of layer_shape (listing_numbers l) }
{
    match l {
        Err(listing::Refusal::Layer(r)) => of_object_refusal(r),
        Err(listing::Refusal::NoLength(k)) => refusal(43, k),
        Err(listing::Refusal::NoRoom) => refusal(41, 0),
        Ok(a) => of_accepted(a),
    }
}
