// The answer to writing as the six words of a strip.
#![tactic(auto)]

ghost use Rattle.std.specs.Prelude.{◌≡◌};
ghost use Rattle.write.specs.Answers.{written_numbers};
ghost use Rattle.strip.specs.Shapes.{words_of, dictionary_shape};
ghost use Rattle.strip.specs.Steps.{list_of};

use strip::{Words, answer, refusal};
use write::{Refusal, Written};

// How many names, and how many bytes; or 45, 10, 46.
pub fn of_written(w: Result<Written, Refusal>) -> Words
    ensures { list_of result ≡ words_of dictionary_shape (written_numbers w) }
{
    match w {
        Err(Refusal::BadName(k)) => refusal(45, k),
        Err(Refusal::TooLong) => refusal(10, 0),
        Err(Refusal::NoRoom) => refusal(46, 0),
        Ok(w) => answer(w.count, 0, 0, w.length),
    }
}
