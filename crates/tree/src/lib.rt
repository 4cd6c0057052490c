// The full check of a value over a dictionary: all that is below it, too (variant.rs: with_full_validation).
#![tactic(auto)]

ghost use Rattle.std.specs.Prelude.{◌≤◌};
ghost use Rattle.marked.specs.Promises.{CheckAtPromise};
ghost use Rattle.tree.specs.Promises.{CheckPromise, CheckWithPromise};

use marked::check_marked;
use nodes::Fault;

// How many starts have marks of the call's own.
const OWN: usize = 65_536;

// The full check of a value that is met at a depth, with N marks of the call's own.
fn check_own<const N: usize>(dict: &[u8], value: &[u8], depth: usize) -> Result<usize, Fault>
    requires { N ≤ 65536 }
    ensures { CheckAtPromise depth dict.now value.now result }
{
    let mut marks = [0u8; N];
    check_marked(dict, value, depth, &mut marks)
}

// The full check of a value that is met at a depth, with marks of its own for the first 65,536 starts. A small value does not pay for many.
pub fn check_at(dict: &[u8], value: &[u8], depth: usize) -> Result<usize, Fault>
    ensures { CheckAtPromise depth dict.now value.now result }
{
    if value.len() <= 512 {
        return check_own::<512>(dict, value, depth);
    }
    if value.len() <= 8_192 {
        return check_own::<8_192>(dict, value, depth);
    }
    check_own::<OWN>(dict, value, depth)
}

// The full check of a value over a dictionary.
pub fn check(dict: &[u8], value: &[u8]) -> Result<usize, Fault>
    ensures { CheckPromise dict.now value.now result }
{
    check_at(dict, value, 0)
}

// The same with lent marks, one a start: a value of more than 65,536 bytes is then looked into once wherever it is referred to. They may hold
// anything before, and are all 0 afterwards. Too few to be worth it are left aside.
pub fn check_with(dict: &[u8], value: &[u8], marks: &mut [u8]) -> Result<usize, Fault>
    ensures { CheckWithPromise dict.now value.now marks.old result marks.new }
{
    marks::clear(marks);
    if marks.len() <= OWN {
        return check(dict, value);
    }
    let verdict = check_marked(dict, value, 0, marks);
    marks::clear(marks);
    verdict
}
