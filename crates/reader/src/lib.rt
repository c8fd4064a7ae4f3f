// Reading a set from its words: refusals 3 to 8 at the first offending word, or the counts and places that all later work starts from.
#![tactic(auto)]

mod leaves; // leaves.rt: codes where no level is left
mod expressions; // expressions.rt: integer and Boolean expressions
mod domains; // domains.rt: domains
mod statements; // statements.rt: rules and tables

ghost use Rattle.std.specs.Prelude.{◌≡◌};
ghost use Rattle.words.specs.Refusal.{by_number};
ghost use Rattle.read.specs.Read.{read_set as read-set-words};
ghost use Rattle.reader.specs.Position.{set_at};

use words::{Cursor, Refusal};

// What a set declares: its counts, and where its statements start; its domains start at 2.
#[derive(Clone, Copy)]
pub struct Declared {
    pub bools: usize,
    pub ints: usize,
    pub stmts: usize,
    pub at: usize,
}

// How many variables of each kind an expression may name.
#[derive(Clone, Copy)]
struct Variables {
    pub bools: usize,
    pub ints: usize,
}

// What the set declares, or the refusal of its first offending word.
#[tactic(auto, using(crate::proofs::SetLaws::parts))]
pub fn read_set(set: &[i32]) -> Result<Declared, Refusal>
    ensures { by_number result ≡ set_at (read-set-words set.now) }
{
    let mut c = Cursor { rest: set };
    let bools = c.at_most_or(memory::MAX_BOOLS, Refusal::OutOfRange)?;
    let ints = c.at_most_or(memory::MAX_INTS, Refusal::OutOfRange)?;
    domains::read_domains(&mut c, ints)?;
    let stmts = c.at_most_or(memory::MAX_COUNT, Refusal::OutOfRange)?;
    let at = set.len() - c.rest.len();
    statements::read_stmts(&mut c, stmts, Variables { bools, ints })?;
    if c.rest.is_empty() {
        Ok(Declared {
            bools,
            ints,
            stmts,
            at,
        })
    } else {
        Err(Refusal::WrongLength)
    }
}
