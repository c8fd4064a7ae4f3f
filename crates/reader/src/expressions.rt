// Expressions: Boolean and integer ones, their lists, sides and terms call each other; the levels left fall.
ghost use Rattle.std.specs.Prelude.{◌≡◌};
ghost use Rattle.words.specs.Cursor.{parsed};
ghost use Rattle.read.specs.Read.{read_terms as terms_of, read_members as members-of, read_int as int_of, read_bool as bool_of};
ghost use Rattle.reader.specs.Position.{passed, list_of, pair_of, comparison_of, if_of};

use super::Variables;
use super::leaves::{bool_too_deep, int_too_deep};
use words::{Cursor, Refusal};

// ---- integer expressions

// As many terms as `terms` says, each expression with `left` levels left.
#[tactic(auto, using(crate::proofs::Laws::terms), unfolding(crate::specs::Position::term_of))]
#[cycle(expressions)]
pub fn read_terms(c: &mut Cursor, terms: usize, vars: Variables, left: usize) -> Result<(), Refusal>
    ensures { parsed result c.new.rest.now ≡ passed (terms_of (int_of vars.bools vars.ints left) terms c.old.rest.now) }
{
    for _ in 0..terms {
        c.value()?;
        read_int(c, vars, left)?;
    }
    Ok(())
}

// A condition and two integer expressions, each with `left` levels left.
#[tactic(auto, using(crate::proofs::Laws::after), unfolding(crate::specs::Position::if_of))]
#[cycle(expressions)]
pub fn read_if(c: &mut Cursor, vars: Variables, left: usize) -> Result<(), Refusal>
    ensures { parsed result c.new.rest.now ≡ passed (if_of (bool_of vars.bools vars.ints left) (int_of vars.bools vars.ints left) c.old.rest.now) }
{
    read_bool(c, vars, left)?; // the condition
    read_int(c, vars, left)?;
    read_int(c, vars, left)
}

// One expression with `left` levels left, its own among them.
#[tactic(auto, using(crate::proofs::Steps::int_steps))]
#[cycle(expressions)]
pub fn read_int(c: &mut Cursor, vars: Variables, left: usize) -> Result<(), Refusal>
    ensures { parsed result c.new.rest.now ≡ passed (int_of vars.bools vars.ints left c.old.rest.now) }
{
    let code = c.word()?;
    if left == 0 {
        return Err(int_too_deep(code));
    }
    match code {
        20 => {
            c.value()?;
            Ok(())
        }
        21 => {
            c.index(vars.ints)?;
            Ok(())
        }
        22 => {
            let count = c.at_most_or(memory::MAX_COUNT, Refusal::OutOfRange)?;
            read_terms(c, count, vars, left - 1)
        }
        23 => read_if(c, vars, left - 1),
        _ => Err(Refusal::UnknownCode),
    }
}

// ---- Boolean expressions

// An operator and two integer expressions with `left` levels left.
#[tactic(auto, using(crate::proofs::Laws::after), unfolding(crate::specs::Position::comparison_of))]
#[cycle(expressions)]
pub fn read_comparison(c: &mut Cursor, vars: Variables, left: usize) -> Result<(), Refusal>
    ensures { parsed result c.new.rest.now ≡ passed (comparison_of (int_of vars.bools vars.ints left) c.old.rest.now) }
{
    c.at_most_or(5, Refusal::OutOfRange)?;
    read_int(c, vars, left)?;
    read_int(c, vars, left)
}

// As many expressions as `members` says, each with `left` levels left.
#[tactic(auto, using(crate::proofs::Laws::members))]
#[cycle(expressions)]
pub fn read_members(
    c: &mut Cursor,
    members: usize,
    vars: Variables,
    left: usize,
) -> Result<(), Refusal>
    ensures { parsed result c.new.rest.now ≡ passed (members-of (bool_of vars.bools vars.ints left) members c.old.rest.now) }
{
    for _ in 0..members {
        read_bool(c, vars, left)?;
    }
    Ok(())
}

// A count and as many expressions, each with `left` levels left.
#[tactic(auto, using(crate::proofs::Laws::after), unfolding(crate::specs::Position::list_of, words::specs::Parse::count))]
#[cycle(expressions)]
pub fn read_list(c: &mut Cursor, vars: Variables, left: usize) -> Result<(), Refusal>
    ensures { parsed result c.new.rest.now ≡ passed (list_of (bool_of vars.bools vars.ints left) c.old.rest.now) }
{
    let count = c.at_most_or(memory::MAX_COUNT, Refusal::OutOfRange)?;
    read_members(c, count, vars, left)
}

// Two expressions, each with `left` levels left.
#[tactic(auto, using(crate::proofs::Laws::after), unfolding(crate::specs::Position::pair_of))]
#[cycle(expressions)]
pub fn read_pair(c: &mut Cursor, vars: Variables, left: usize) -> Result<(), Refusal>
    ensures { parsed result c.new.rest.now ≡ passed (pair_of (bool_of vars.bools vars.ints left) c.old.rest.now) }
{
    read_bool(c, vars, left)?;
    read_bool(c, vars, left)
}

// One expression with `left` levels left, its own among them.
#[tactic(auto, using(crate::proofs::Steps::bool_steps))]
#[cycle(expressions)]
pub fn read_bool(c: &mut Cursor, vars: Variables, left: usize) -> Result<(), Refusal>
    ensures { parsed result c.new.rest.now ≡ passed (bool_of vars.bools vars.ints left c.old.rest.now) }
{
    let code = c.word()?;
    if left == 0 {
        return Err(bool_too_deep(code));
    }
    match code {
        10 => {
            c.at_most_or(1, Refusal::OutOfRange)?;
            Ok(())
        }
        11 => {
            c.index(vars.bools)?;
            Ok(())
        }
        12 => read_list(c, vars, left - 1),
        13 => read_list(c, vars, left - 1),
        14 => read_bool(c, vars, left - 1),
        15 => read_pair(c, vars, left - 1),
        16 => read_pair(c, vars, left - 1),
        17 => read_pair(c, vars, left - 1),
        18 => read_comparison(c, vars, left - 1),
        _ => Err(Refusal::UnknownCode), // an integer's code too
    }
}
