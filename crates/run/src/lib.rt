// A run of names: their bytes one after another, with the ends in words of 32 bits.
#![tactic(auto)]

ghost use Rattle.run.specs.Promises.{CheckPromise};

// The first name whose end falls or passes the run.
#[derive(Clone, Copy)]
pub struct BadName {
    pub number: usize,
}

// Whether all ends are good.
pub fn check(run: &[u8], ends: &[u32]) -> Result<(), BadName>
    ensures { CheckPromise run.now ends.now result }
{
    let mut begin = 0;
    for (number, &end) in ends.iter().enumerate() {
        let end = end as usize;
        if end < begin {
            return Err(BadName { number });
        }
        if run.len() < end {
            return Err(BadName { number });
        }
        begin = end;
    }
    Ok(())
}
