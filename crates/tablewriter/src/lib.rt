// The clauses of a table whose columns may hold Ifs: the words of its columns, then its rows.
#![tactic(auto)]

ghost use Rattle.std.specs.Prelude.{◌≡◌, List, [], ◌∷◌, ◌+◌, ◌-◌, ◌≤◌, ◌<◌, pos, length, get_or, take, drop};
ghost use Rattle.std.proofs.lemmas.List.Edits.{sets};
ghost use Rattle.laws.specs.Writes.{Wrote, Open};
ghost use Rattle.memory.specs.Places.{folded_end, limit};
ghost use Rattle.memory.specs.Number.{nat};
ghost use Rattle.syntax.specs.Syntax.{Domain, domain_of, Eq};
ghost use Rattle.sums.specs.LinearSum.{singleton, sub_sum};
ghost use Rattle.clauses.specs.Clause.{linear, clause};
ghost use Rattle.answer.specs.Answer.{linear_words};
ghost use Rattle.walk.specs.Item.{clause_text};
ghost use Rattle.walk.specs.Decode.{read_part};
ghost use Rattle.stages.specs.ColumnsText.{column_var, column_domain};
ghost use Rattle.rows.specs.Emit.{Clauses, Behind};
ghost use Rattle.stars.specs.Stars.{StarRows};
ghost use Rattle.declared.specs.InSet.{Declared, SomeDeclared};
ghost use Rattle.tablewriter.specs.Columns.{Placed, form_at, item_at, Fits, AllFit, Added, ColumnPut, ColumnsPut};
ghost use Rattle.tablewriter.specs.Describing.{Describes, SomeTold, Told, Storable, StoredColumn, PassedColumn, SomeDescribable, Described};
ghost use Rattle.tablewriter.specs.Step.{Place, At, SomeAt, Did, RowsAt, SomeRowsAt, RowsDid, StarsDid};

use rows::Written;
use survey::{below, bump, word};
use syntax::Values;
use walk::Counters;

// ---- the columns' words

// Behind a column, so many, or a table: where the next one stands, the counters, the place behind the words, and the number of clauses.
#[derive(Drop)]
pub struct Columned {
    pub next: usize,
    pub n: Counters,
    pub at: usize,
    pub clauses: usize,
}

// What the Ifs of the column at p add; nothing at once where the set has none.
fn put_adds(work: &[i32], p: usize, n: Counters, out: &mut [i32], o: usize) -> Written
    requires { Placed work.now p n × Fits (form_at work.now p) × Open out.old o }
    ensures { Added work.now p n out.old o out.new result.at result.clauses }
{
    if scan::has_ifs(work) {
        let a = rulewriter::register_int(work, p, 64, 0, 0, n, out, o);
        return Written {
            at: a.o,
            clauses: a.lines,
        };
    }
    Written { at: o, clauses: 0 }
}

// The clause that the sum of the column at p is v.
fn put_equation(work: &[i32], p: usize, v: usize, n: Counters, out: &mut [i32], o: usize) -> usize
    requires { Placed work.now p n × Fits (form_at work.now p) × Open out.old o × (v < 2147483648) }
    ensures { (ds : List Domain) → Wrote out.old o (clause_text [] [] 1 (linear_words (linear Eq (sub_sum ((item_at ds work.now p).total work.now n) (singleton v))))) out.new result }
{
    let a = totals::linear_of(work, p, 64, 0, 0, n);
    let s = a.sum;
    let d = totals::less_variable(s, v as u32);
    let b = output::put(out, o, 0);
    let c = output::put(out, b, 1);
    output::put_linear(0, false, d, out, c)
}

// The number that stands at i plus 1; 0 for what is none.
fn number_at(work: &[i32], i: usize) -> usize
    ensures { (result ≡ nat (get_or work.now i (pos 0)) - 1) × (result < 2147483648) }
{
    usize::try_from(memory::plain(work, i))
        .unwrap_or(0)
        .saturating_sub(1)
}

// Where the next column stands, and the counters.
#[derive(Drop)]
pub struct Passed {
    pub next: usize,
    pub n: Counters,
}

// Behind the column at p.
fn pass_column(work: &[i32], p: usize, n: Counters) -> Passed
    requires { Placed work.now p n }
    ensures { PassedColumn work.now p n result }
{
    let b = totals::end_of(work, p, 64, 0, 0, n);
    let e = b.n;
    if word(work, p) == 21 {
        return Passed { next: b.at, n: e };
    }
    let i = scan::more_ints(work, e);
    Passed { next: b.at, n: i }
}

// The words of the column at p, behind k clauses: what its Ifs add; for one that is no declared variable, that its sum is its own number.
fn put_column(work: &[i32], p: usize, n: Counters, out: &mut [i32], o: usize, k: usize) -> Columned
    requires { Placed work.now p n × Fits (form_at work.now p) × Open out.old o }
    ensures { ColumnPut work.now p n out.old o k out.new result }
{
    let a = put_adds(work, p, n, out, o);
    let b = pass_column(work, p, n);
    let e = b.n;
    if word(work, p) == 21 {
        return Columned {
            next: b.next,
            n: e,
            at: a.at,
            clauses: bump(k, a.clauses),
        };
    }
    let v = number_at(work, memory::CELLS + p);
    let q = put_equation(work, p, v, n, out, a.at);
    Columned {
        next: b.next,
        n: e,
        at: q,
        clauses: bump(k, bump(a.clauses, 1)),
    }
}

// The same of so many columns from `at` on.
fn put_columns(
    work: &[i32],
    at: usize,
    count: usize,
    n: Counters,
    out: &mut [i32],
    o: usize,
    k: usize,
) -> Columned
    requires { Placed work.now at n × AllFit (read_part work.now) count at × Open out.old o × (k ≤ limit) }
    ensures { ColumnsPut work.now at count n out.old o k out.new result }
{
    let mut p = at;
    let mut e = n;
    let mut q = o;
    let mut c = k;
    for _ in 0..count {
        let s = put_column(work, p, e, out, q, c);
        p = s.next;
        e = s.n;
        q = s.at;
        c = s.clauses;
    }
    Columned {
        next: p,
        n: e,
        at: q,
        clauses: c,
    }
}

// ---- the words that describe the columns

// The number of the column at p: a declared variable's from the map, another's from its cell.
fn column_number(work: &[i32], p: usize) -> usize
    requires { p ≤ folded_end }
    ensures { (result ≡ column_var work.now p (form_at work.now p)) × (result < 2147483648) }
{
    if word(work, p) == 21 {
        let v = below(word(work, p + 1), memory::MAX_INTS);
        return number_at(work, memory::INT_MAP + v);
    }
    number_at(work, memory::CELLS + p)
}

// A domain in two words: a range's number of values and lowest one; a list's length, negated, and its place among the set's words.
#[derive(Drop)]
pub struct Description {
    pub count: i32,
    pub from: i32,
}

// Of the declared variable v.
fn describe_declared(set: &[i32], v: usize) -> Description
    requires { SomeDeclared set.now v }
    ensures { (ds : List Domain) → Declared set.now ds → v < length ds → Describes set.now (domain_of ds v) result.count result.from }
{
    let at = domains::domain_of(set, 2, v);
    let c = domains::num_candidates(set, at);
    match domains::domain_at(set, at) {
        Values::Range(low, _) => Description {
            count: c,
            from: low,
        },
        Values::Enumerative(_) => Description {
            count: -c,
            from: (at + 2) as i32,
        },
    }
}

// Of the column at p.
fn describe(set: &[i32], work: &[i32], p: usize, n: Counters) -> Description
    requires { Placed work.now p n × SomeTold set.now work.now p n }
    ensures { (ds : List Domain) → Told set.now work.now p n ds → Describes set.now (column_domain ds (form_at work.now p) work.now n) result.count result.from }
{
    if word(work, p) == 21 {
        return describe_declared(set, below(word(work, p + 1), memory::MAX_INTS));
    }
    let b = totals::range_of(work, p, 64, 0, 0, n);
    let low = b.low;
    let less = b.high - low;
    Description {
        count: less + 1,
        from: low,
    }
}

// The three words of the column at p stored at `to`.
fn describe_column(set: &[i32], work: &mut [i32], p: usize, to: usize, n: Counters) -> Passed
    requires { Storable set.now work.old p to n }
    ensures { StoredColumn set.now work.old p to n work.new result }
{
    let v = column_number(work, p);
    let d = describe(set, work, p, n);
    let r = pass_column(work, p, n);
    let c = d.count;
    let from = d.from;
    work[to] = v as i32;
    work[to + 1] = c;
    work[to + 2] = from;
    r
}

// The words of so many columns from `at` on, stored from `to` on.
fn describe_columns(set: &[i32], work: &mut [i32], at: usize, count: usize, to: usize, n: Counters)
    requires { SomeDescribable set.now work.old at count to n }
    ensures { Described set.now work.old at count to n work.new }
{
    let mut p = at;
    let mut e = n;
    let mut q = to;
    for _ in 0..count {
        let s = describe_column(set, work, p, q, e);
        p = s.next;
        e = s.n;
        q += 3;
    }
}

// ---- the rows' clauses

// The `count` words at `from` copied to `to`, which lies behind them.
fn copy_words(work: &mut [i32], from: usize, to: usize, count: usize)
    requires { (from + count ≤ to) × (to + count ≤ length work.old) }
    ensures { work.new ≡ sets work.old to (take count (drop from work.old)) }
{
    work.copy_within(from..from + count, to);
}

// One clause without literals and comparisons, behind k others.
fn put_empty(out: &mut [i32], o: usize, k: usize) -> Written
    requires { Behind out.old o k }
    ensures { Clauses out.old o k (clause [] [] ∷ []) out.new result.at result.clauses }
{
    if o == memory::CAP {
        return Written { at: o, clauses: k };
    }
    let a = output::put(out, o, 0);
    let b = output::put(out, a, 0);
    Written {
        at: b,
        clauses: k + 1,
    }
}

// The clauses of the starred table whose rows are at p: none where a row is of stars only. m: the next Boolean's number.
fn write_stars(
    work: &[i32],
    p: usize,
    c: usize,
    rows: usize,
    cols: usize,
    m: usize,
    out: &mut [i32],
    o: usize,
    k: usize,
) -> Written
    requires { StarRows work.now p c rows cols m × Behind out.old o k }
    ensures { StarsDid work.now p c rows cols m out.old o k out.new result.at result.clauses }
{
    let s = rows::count_stars(work, p, c, rows);
    if s.free != 0 {
        return Written { at: o, clauses: k };
    }
    stars::put_stars(work, p, c, rows, cols, m, out, o, k)
}

// The clauses of the rows at p of the table at `at`, behind k others; they are sorted in a copy. n: the counters before the table.
fn write_rows(
    set: &[i32],
    work: &mut [i32],
    at: usize,
    p: usize,
    c: usize,
    rows: usize,
    n: Counters,
    m: usize,
    out: &mut [i32],
    o: usize,
    k: usize,
) -> Written
    requires { SomeRowsAt set.now work.old at p c rows n m × Behind out.old o k }
    ensures { (x : Place) → RowsAt x set.now work.old at p c rows n m → RowsDid x work.old out.old o k work.new out.new result.at result.clauses }
{
    if rows == 0 {
        return put_empty(out, o, k);
    }
    let cells = rows * c;
    let cols = memory::TABLE + cells;
    describe_columns(set, work, at + 3, c, cols, n);
    copy_words(work, p, memory::TABLE, cells);
    if rows::has_star(work, memory::TABLE, cells) {
        return write_stars(work, memory::TABLE, c, rows, cols, m, out, o, k);
    }
    rows::put_table(out, o, k, work, memory::TABLE, c, rows, cols, set)
}

// ---- the table

// The clauses of the table at `at`, behind k others.
pub fn write_table(
    set: &[i32],
    work: &mut [i32],
    at: usize,
    n: Counters,
    out: &mut [i32],
    o: usize,
    k: usize,
) -> Columned
    requires { SomeAt set.now work.old at n × Behind out.old o k }
    ensures { (x : Place) → At x set.now work.old at n → Did x work.old at out.old o k work.new out.new result }
{
    let c = word(work, at + 1);
    let rows = word(work, at + 2);
    let e = put_columns(work, at + 3, c, n, out, o, k);
    let p = e.next;
    let b = e.n;
    let f = stmtwords::table_fresh(work, p, c, rows);
    let j = rows::lesser(e.clauses, e.at);
    let r = write_rows(set, work, at, p, c, rows, n, b.bools, out, e.at, j);
    let i = Counters {
        bools: bump(b.bools, f),
        ints: b.ints,
    };
    Columned {
        next: p + rows * c,
        n: i,
        at: r.at,
        clauses: r.clauses,
    }
}
