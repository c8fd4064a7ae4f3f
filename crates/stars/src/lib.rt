// The clauses of a starred table: the Or over its rows of the And of their equalities, written straight from the rows' words.
#![tactic(auto)]

ghost use Rattle.std.specs.Prelude.{[], ◌∷◌, ◌+◌, ◌≤◌, ◌<◌, drop};
ghost use Rattle.laws.specs.Writes.{Wrote, Open};
ghost use Rattle.memory.specs.Places.{limit};
ghost use Rattle.syntax.specs.Words.{max_count};
ghost use Rattle.walk.specs.Item.{extra};
ghost use Rattle.sorting.specs.Rows.{rows_of, row_at};
ghost use Rattle.sorting.specs.Columns.{vars_of};
ghost use Rattle.rows.specs.Emit.{linears_words, Behind};
ghost use Rattle.stars.specs.Lines.{row_linears, counted_lits, row_lines, long_lines, single_linears, pool_line, Lines};
ghost use Rattle.stars.specs.Stars.{RowAt, RowsAt, StarRows, Starred};

use rows::Written;
use walk::Mode;

// ---- the rows of two equalities or more

// The literals that a clause of the j-th longer row gets, with their count in front; m: the next Boolean's number.
fn put_literal(mode: Mode, m: usize, j: usize, out: &mut [i32], o: usize) -> usize
    requires { (m ≤ limit) × (j ≤ max_count) × Open out.old o }
    ensures { Wrote out.old o (counted_lits (extra mode m [] j)) out.new result }
{
    match mode {
        Mode::Pool | Mode::One => output::put(out, o, 0),
        Mode::Two => {
            let a = output::put(out, o, 1);
            output::put(out, a, output::word_of(m + 1, j == 0))
        }
        Mode::Each => {
            let a = output::put(out, o, 1);
            output::put(out, a, output::word_of(m + j + 1, true))
        }
    }
}

// The clause of a cell of the j-th longer row: the variable v has the value x. None for a star.
fn put_equality(
    mode: Mode,
    m: usize,
    j: usize,
    v: usize,
    x: i32,
    out: &mut [i32],
    o: usize,
    c: usize,
) -> Written
    requires { (m ≤ limit) × (j ≤ max_count) × (v < 2147483648) × Behind out.old o c }
    ensures { Lines out.old o c (row_lines (extra mode m [] j) (v ∷ []) (x ∷ [])) out.new result.at result.clauses }
{
    if x == i32::MIN || o == memory::CAP {
        return Written { at: o, clauses: c };
    }
    let a = put_literal(mode, m, j, out, o);
    let b = output::put(out, a, 1);
    let d = rows::put_cmp(out, b, 0, v, x);
    Written {
        at: d,
        clauses: c + 1,
    }
}

// The clauses of the j-th longer row, whose n cells are at a.
fn put_row(
    work: &[i32],
    a: usize,
    n: usize,
    cols: usize,
    mode: Mode,
    m: usize,
    j: usize,
    out: &mut [i32],
    o: usize,
    c: usize,
) -> Written
    requires { RowAt work.now a n cols × (m ≤ limit) × (j ≤ max_count) × Behind out.old o c }
    ensures { Lines out.old o c (row_lines (extra mode m [] j) (vars_of n (drop cols work.now)) (row_at n a work.now)) out.new result.at result.clauses }
{
    let mut q = o;
    let mut d = c;
    for i in 0..n {
        let v = sorting::number_at(work, cols + 3 * i);
        let w = put_equality(mode, m, j, v, work[a + i], out, q, d);
        q = w.at;
        d = w.clauses;
    }
    Written { at: q, clauses: d }
}

// The clauses of the longer ones among k rows.
fn put_long_rows(
    work: &[i32],
    at: usize,
    n: usize,
    k: usize,
    cols: usize,
    mode: Mode,
    m: usize,
    out: &mut [i32],
    o: usize,
    c: usize,
) -> Written
    requires { RowsAt work.now at n k cols × (m ≤ limit) × Behind out.old o c }
    ensures { Lines out.old o c (long_lines mode m (vars_of n (drop cols work.now)) (rows_of n k (drop at work.now)) 0) out.new result.at result.clauses }
{
    let mut j = 0;
    let mut q = o;
    let mut d = c;
    for i in 0..k {
        let a = at + i * n;
        if rows::row_values(work, a, n) < 2 {
            continue;
        }
        let w = put_row(work, a, n, cols, mode, m, j, out, q, d);
        q = w.at;
        d = w.clauses;
        j += 1;
    }
    Written { at: q, clauses: d }
}

// ---- the pool

// The comparison of a cell: the variable v has the value x. None for a star.
fn put_value(v: usize, x: i32, out: &mut [i32], o: usize) -> usize
    requires { (v < 2147483648) × Open out.old o }
    ensures { Wrote out.old o (linears_words (row_linears (v ∷ []) (x ∷ []))) out.new result }
{
    if x == i32::MIN {
        return o;
    }
    rows::put_cmp(out, o, 0, v, x)
}

// The comparisons of the row whose n cells are at a.
fn put_values(work: &[i32], a: usize, n: usize, cols: usize, out: &mut [i32], o: usize) -> usize
    requires { RowAt work.now a n cols × Open out.old o }
    ensures { Wrote out.old o (linears_words (row_linears (vars_of n (drop cols work.now)) (row_at n a work.now))) out.new result }
{
    let mut q = o;
    for j in 0..n {
        let v = sorting::number_at(work, cols + 3 * j);
        q = put_value(v, work[a + j], out, q);
    }
    q
}

// The comparisons of those of k rows that have one value.
fn put_single_rows(
    work: &[i32],
    at: usize,
    n: usize,
    k: usize,
    cols: usize,
    out: &mut [i32],
    o: usize,
) -> usize
    requires { RowsAt work.now at n k cols × Open out.old o }
    ensures { Wrote out.old o (linears_words (single_linears (vars_of n (drop cols work.now)) (rows_of n k (drop at work.now)))) out.new result }
{
    let mut q = o;
    for i in 0..k {
        let a = at + i * n;
        if rows::row_values(work, a, n) == 1 {
            q = put_values(work, a, n, cols, out, q);
        }
    }
    q
}

// The pool's clause: a number for each of x longer rows, from m on, and the equalities of the y rows that have one.
fn put_pool(
    work: &[i32],
    at: usize,
    n: usize,
    k: usize,
    cols: usize,
    m: usize,
    x: usize,
    y: usize,
    out: &mut [i32],
    o: usize,
    c: usize,
) -> Written
    requires { RowsAt work.now at n k cols × (m ≤ limit) × (x ≤ max_count) × (y ≤ max_count) × Behind out.old o c }
    ensures { Lines out.old o c (pool_line m x y (single_linears (vars_of n (drop cols work.now)) (rows_of n k (drop at work.now))) ∷ []) out.new result.at result.clauses }
{
    if o == memory::CAP {
        return Written { at: o, clauses: c };
    }
    let a = output::put(out, o, x as i32);
    let b = output::put_block(m, x, out, a);
    let d = output::put(out, b, y as i32);
    let e = put_single_rows(work, at, n, k, cols, out, d);
    Written {
        at: e,
        clauses: c + 1,
    }
}

// ---- the table

// The clauses of a starred table without a row of stars only: its k rows at `at`, the words of its n columns at `cols`; m: the next Boolean's number.
pub fn put_stars(
    work: &[i32],
    at: usize,
    n: usize,
    k: usize,
    cols: usize,
    m: usize,
    out: &mut [i32],
    o: usize,
    c: usize,
) -> Written
    requires { StarRows work.now at n k cols m × Behind out.old o c }
    ensures { Starred work.now at n k cols m out.old o c out.new result.at result.clauses }
{
    let s = rows::count_stars(work, at, n, k);
    let x = s.longer;
    let y = s.single;
    let mode = survey::mode_of(x, 0, y);
    let w = put_long_rows(work, at, n, k, cols, mode, m, out, o, c);
    match mode {
        Mode::Pool | Mode::Each => put_pool(work, at, n, k, cols, m, x, y, out, w.at, w.clauses),
        Mode::One | Mode::Two => w,
    }
}
