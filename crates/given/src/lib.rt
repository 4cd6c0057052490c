// Names that are given to be written: in a run of bytes with ends, each of them UTF-8.
#![tactic(auto)]

ghost use Rattle.given.specs.Meaning.{SpanIs};
ghost use Rattle.given.specs.Promises.{CheckPromise};

use run::BadName;

// Whether the bytes from one place to another lie in the run, and are text.
fn is_good(run: &[u8], from: usize, to: usize) -> bool
    ensures { SpanIs run.now from to result }
{
    if to < from {
        return false;
    }
    if run.len() < to {
        return false;
    }
    texts::is_text(run, from, to)
}

// The first name whose end falls or passes the run, or that is no text.
pub fn check(run: &[u8], ends: &[u32]) -> Result<(), BadName>
    ensures { CheckPromise run.now ends.now result }
{
    let mut begin = 0;
    for (number, &end) in ends.iter().enumerate() {
        let end = end as usize;
        if !is_good(run, begin, end) {
            return Err(BadName { number });
        }
        begin = end;
    }
    Ok(())
}
