// Domains: a range, or an enumeration of rising values.
ghost use Rattle.std.specs.Prelude.{◌≡◌};
ghost use Rattle.words.specs.Parse.{times};
ghost use Rattle.words.specs.Cursor.{parsed};
ghost use Rattle.read.specs.Read.{read_range as range_of, read_rising as rising-of, read_enumerative as enumerative-of, read_domain as domain_of, size_of};
ghost use Rattle.reader.specs.Position.{passed};

use words::{Cursor, Refusal};

// Low and high.
#[tactic(auto, unfolding(read::specs::Read::read_range))]
pub fn read_range(c: &mut Cursor) -> Result<(), Refusal>
    ensures { parsed result c.new.rest.now ≡ passed (range_of c.old.rest.now) }
{
    let low = c.value()?;
    let high = c.value()?;
    if high < low {
        Err(Refusal::BadDomain)
    } else {
        Ok(())
    }
}

// The count of an enumeration, which has a value.
pub fn read_size(c: &mut Cursor) -> Result<usize, Refusal>
    ensures { parsed result c.new.rest.now ≡ size_of c.old.rest.now }
{
    match usize::try_from(c.word()?) {
        Err(_) | Ok(0) => Err(Refusal::BadDomain),
        Ok(n) if n <= memory::MAX_COUNT => Ok(n),
        Ok(_) => Err(Refusal::OutOfRange),
    }
}

// As many values as `count` says, each above the one before it, the first above `above`.
#[tactic(auto, using(crate::proofs::Laws::rising))]
pub fn read_rising(c: &mut Cursor, count: usize, above: i32) -> Result<(), Refusal>
    ensures { parsed result c.new.rest.now ≡ passed (rising-of count above c.old.rest.now) }
{
    let mut last = above;
    for _ in 0..count {
        let value = c.value()?;
        if value <= last {
            return Err(Refusal::BadDomain);
        }
        last = value;
    }
    Ok(())
}

// A count and as many values.
#[tactic(auto, using(crate::proofs::Laws::after), unfolding(read::specs::Read::read_enumerative))]
pub fn read_enumerative(c: &mut Cursor) -> Result<(), Refusal>
    ensures { parsed result c.new.rest.now ≡ passed (enumerative-of c.old.rest.now) }
{
    let count = read_size(c)?;
    read_rising(c, count, i32::MIN)
}

#[tactic(auto, unfolding(read::specs::Read::read_domain))]
pub fn read_domain(c: &mut Cursor) -> Result<(), Refusal>
    ensures { parsed result c.new.rest.now ≡ passed (domain_of c.old.rest.now) }
{
    match c.word()? {
        0 => read_range(c),
        1 => read_enumerative(c),
        _ => Err(Refusal::UnknownCode),
    }
}

// As many domains as `count` says.
#[tactic(auto, using(crate::proofs::Laws::again))]
pub fn read_domains(c: &mut Cursor, count: usize) -> Result<(), Refusal>
    ensures { parsed result c.new.rest.now ≡ passed (times count domain_of c.old.rest.now) }
{
    for _ in 0..count {
        read_domain(c)?;
    }
    Ok(())
}
