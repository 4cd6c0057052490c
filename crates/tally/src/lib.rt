// How many cases a test program had, how many were not as expected, and the file that they are read from.
#![tactic(auto)]

ghost use Rattle.std.specs.Prelude.{◌≤◌, length, IfOk};
ghost use Rattle.tally.specs.Counting.{More, Judged};

use std::io;
use std::rt::Files;

#[derive(Clone, Copy)]
pub struct Tally {
    pub cases: usize,
    pub wrong: usize,
}

pub fn none() -> Tally {
    Tally { cases: 0, wrong: 0 }
}

fn one_more(n: usize) -> usize
    ensures { More n result }
{
    if n < 0xFFFF_FFFF {
        return n + 1;
    }
    n
}

// One case more, and one that is wrong where it was not good.
pub fn with(t: Tally, good: bool) -> Tally
    ensures { More t.cases result.cases × Judged good t.wrong result.wrong }
{
    let cases = one_more(t.cases);
    if good {
        return Tally {
            cases,
            wrong: t.wrong,
        };
    }
    Tally {
        cases,
        wrong: one_more(t.wrong),
    }
}

// What stands in the file of a table, as far as there is room; nothing, and a word on it, where it cannot be opened.
pub fn load(rt: &(impl Files + Eprint), path: &[u8], out: &mut [u8]) -> io::Result<usize>
    ensures { IfOk result (λ n. n ≤ length out.new) }
{
    match files::open(rt, path) {
        Ok(mut file) => files::read(&mut file, out),
        Err(error) => {
            files::fail(rt, path, &error)?;
            Ok(0)
        }
    }
}
