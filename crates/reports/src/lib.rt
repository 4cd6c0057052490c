// The verdict on a tree as the six words of a strip.
#![tactic(auto)]

ghost use Rattle.std.specs.Prelude.{◌≡◌};
ghost use Rattle.leaf.specs.Answers.{refusal_number as leaf_number};
ghost use Rattle.nodes.specs.Answers.{refusal_number, refusal_place};
ghost use Rattle.marked.specs.Answers.{verdict_numbers};
ghost use Rattle.strip.specs.Shapes.{words_of, tree_shape, refusal_words};
ghost use Rattle.strip.specs.Steps.{list_of};

use refusals::{of_list_refusal, of_object_refusal};
use strip::{Words, answer, from, refusal};

// Refusals 50, 51 and 54.
fn of_leaf_refusal(r: leaf::Refusal) -> Words
    ensures { list_of result ≡ refusal_words (leaf_number r) 0 }
{
    match r {
        leaf::Refusal::Short => refusal(50, 0),
        leaf::Refusal::Unknown => refusal(51, 0),
        leaf::Refusal::NotUtf8 => refusal(54, 0),
    }
}

// Any refusal of a tree, without the start of the value that it is of.
fn of_refusal(r: nodes::Refusal) -> Words
    ensures { list_of result ≡ refusal_words (refusal_number r) (refusal_place r) }
{
    match r {
        nodes::Refusal::Layer(o) => of_object_refusal(o),
        nodes::Refusal::List(l) => of_list_refusal(l),
        nodes::Refusal::Leaf(l) => of_leaf_refusal(l),
        nodes::Refusal::TooDeep => refusal(52, 0),
    }
}

pub fn of_tree(v: Result<usize, nodes::Fault>) -> Words
    ensures { list_of result ≡ words_of tree_shape (verdict_numbers v) }
{
    match v {
        Ok(end) => answer(0, 0, 0, end),
        Err(bad) => from(bad.start, of_refusal(bad.refusal)),
    }
}
