// Statements: a rule, a table of columns and rows, or expressions that differ.
ghost use Rattle.std.specs.Prelude.{◌≡◌};
ghost use Rattle.words.specs.Parse.{times};
ghost use Rattle.words.specs.Cursor.{parsed};
ghost use Rattle.read.specs.Read.{read_cell as cell_of, read_int as int_of, read_table as table_of, read_different as different-of, read_stmt as stmt-of};
ghost use Rattle.reader.specs.Position.{passed};

use super::Variables;
use super::expressions::{read_bool, read_int};
use words::{Cursor, Refusal};

// How many levels a rule or a column may have.
const MAX_DEPTH: usize = 64;

// A value, or the star.
#[tactic(auto, unfolding(read::specs::Read::read_cell))]
pub fn read_cell(c: &mut Cursor) -> Result<(), Refusal>
    ensures { parsed result c.new.rest.now ≡ passed (cell_of c.old.rest.now) }
{
    let w = c.word()?;
    if w == i32::MIN || w.unsigned_abs() <= words::MAX_VALUE {
        Ok(())
    } else {
        Err(Refusal::OutOfRange)
    }
}

// As many cells as `count` says.
#[tactic(auto, using(crate::proofs::Laws::again))]
pub fn read_row(c: &mut Cursor, count: usize) -> Result<(), Refusal>
    ensures { parsed result c.new.rest.now ≡ passed (times count cell_of c.old.rest.now) }
{
    for _ in 0..count {
        read_cell(c)?;
    }
    Ok(())
}

// As many rows as `count` says, each of `width` cells.
#[tactic(auto, using(crate::proofs::Laws::again))]
pub fn read_rows(c: &mut Cursor, count: usize, width: usize) -> Result<(), Refusal>
    ensures { parsed result c.new.rest.now ≡ passed (times count (times width cell_of) c.old.rest.now) }
{
    for _ in 0..count {
        read_row(c, width)?;
    }
    Ok(())
}

// As many columns as `count` says.
#[tactic(auto, using(crate::proofs::Laws::again))]
pub fn read_columns(c: &mut Cursor, count: usize, vars: Variables) -> Result<(), Refusal>
    ensures { parsed result c.new.rest.now ≡ passed (times count (int_of vars.bools vars.ints 64) c.old.rest.now) }
{
    for _ in 0..count {
        read_int(c, vars, MAX_DEPTH)?;
    }
    Ok(())
}

// Columns n, rows k, n integer expressions, k rows.
#[tactic(auto, using(crate::proofs::Laws::after), unfolding(read::specs::Read::read_table, words::specs::Parse::count))]
pub fn read_table(c: &mut Cursor, vars: Variables) -> Result<(), Refusal>
    ensures { parsed result c.new.rest.now ≡ passed (table_of vars.bools vars.ints c.old.rest.now) }
{
    let columns = c.at_most_or(memory::MAX_COUNT, Refusal::OutOfRange)?;
    let rows = c.at_most_or(memory::MAX_COUNT, Refusal::OutOfRange)?;
    read_columns(c, columns, vars)?;
    read_rows(c, rows, columns)
}

// A count and as many integer expressions.
#[tactic(auto, using(crate::proofs::Laws::after), unfolding(read::specs::Read::read_different, words::specs::Parse::count))]
pub fn read_different(c: &mut Cursor, vars: Variables) -> Result<(), Refusal>
    ensures { parsed result c.new.rest.now ≡ passed (different-of vars.bools vars.ints c.old.rest.now) }
{
    let count = c.at_most_or(memory::MAX_COUNT, Refusal::OutOfRange)?;
    read_columns(c, count, vars)
}

#[tactic(auto, using(crate::proofs::Laws::after), unfolding(read::specs::Read::read_stmt))]
pub fn read_stmt(c: &mut Cursor, vars: Variables) -> Result<(), Refusal>
    ensures { parsed result c.new.rest.now ≡ passed (stmt-of vars.bools vars.ints c.old.rest.now) }
{
    match c.word()? {
        1 => read_bool(c, vars, MAX_DEPTH),
        2 => read_table(c, vars),
        3 => read_different(c, vars),
        _ => Err(Refusal::UnknownCode),
    }
}

// As many statements as `count` says.
#[tactic(auto, using(crate::proofs::Laws::again))]
pub fn read_stmts(c: &mut Cursor, count: usize, vars: Variables) -> Result<(), Refusal>
    ensures { parsed result c.new.rest.now ≡ passed (times count (stmt-of vars.bools vars.ints) c.old.rest.now) }
{
    for _ in 0..count {
        read_stmt(c, vars)?;
    }
    Ok(())
}
