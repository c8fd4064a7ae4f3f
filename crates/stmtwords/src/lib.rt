// What both walks find in the words of folded statements, without numbering them: where a statement ends, the new numbers of a table's rows; and a pair's Ifs made unseen again.
#![tactic(auto)]

ghost use Rattle.std.specs.Prelude.{◌≡◌, ℕ, ◌+◌, ◌*◌, ◌≤◌, length};
ghost use Rattle.memory.specs.Places.{folded_end, limit};
ghost use Rattle.syntax.specs.Words.{min_work_words};
ghost use Rattle.walk.specs.Decode.{read_part};
ghost use Rattle.walks.specs.Clear.{clear_place};
ghost use Rattle.stages.specs.Columns.{columns_end as columns-end-in};
ghost use Rattle.stmtwords.specs.Fresh.{Freshens};
ghost use Rattle.stmtwords.specs.Stands.{SomeStmt, StmtEnds};
ghost use Rattle.stmtwords.specs.Ifs.{place_at};
ghost use Rattle.stmtwords.specs.Cleared.{Cleared, pair_ifs, Clears, ClearsAll, IntClears, TermClears};

use memory::CELLS;
use scan::node_at;
use survey::{Skipped, bump, within, word};
use walk::Node;

// ---- ends

// Where so many columns from a place on end.
pub fn columns_end(work: &[i32], at: usize, count: usize) -> usize
    requires { (folded_end ≤ length work.now) × (at ≤ folded_end) }
    ensures { (result ≡ columns-end-in (read_part work.now) count at) × (result ≤ folded_end) }
{
    let mut q = at;
    for _ in 0..count {
        q = scan::skip_int(work, q, 64, 0, 0).at;
    }
    q
}

// Where the statement at a place ends.
pub fn statement_end(work: &[i32], at: usize) -> usize
    requires { SomeStmt work.now at × (folded_end ≤ length work.now) }
    ensures { StmtEnds work.now at result }
{
    let kind = word(work, at);
    if kind == 1 {
        let s = scan::skip(work, at + 1, 64, 1, 0);
        return s.at;
    }
    let n = word(work, at + 1);
    if kind == 3 {
        return columns_end(work, at + 2, n);
    }
    let k = word(work, at + 2);
    columns_end(work, at + 3, n) + k * n
}

// ---- a table's rows

// The new Boolean numbers of a table with k rows of n cells at a place.
pub fn table_fresh(work: &[i32], at: usize, n: usize, k: usize) -> usize
    requires { at + k * n ≤ length work.now }
    ensures { Freshens work.now at n k result }
{
    if rows::has_star(work, at, k * n) {
        let s = rows::count_stars(work, at, n, k);
        if s.free != 0 {
            return 0;
        }
        return survey::fresh(s.longer, 0, s.single);
    }
    0
}

// ---- before a pair of an AllDifferent: each of its Ifs with split parts is unseen again

// The cell of the If at a place, if the splitting's next number differs before and behind it.
fn clear_cell(work: &mut [i32], at: usize, base: usize, next: usize)
    requires { (min_work_words ≤ length work.old) × (at ≤ folded_end) }
    ensures { ((end : ℕ) → work.new ≡ clear_place (place_at at end base next) work.old) × (length work.new ≡ length work.old) }
{
    if base < next {
        let p = at + 1;
        work[CELLS + p] = 0;
    }
}

// So many members.
#[cycle(clear)]
fn clear_members(work: &mut [i32], at: usize, left: usize, count: usize, base: usize) -> Skipped
    requires { (min_work_words ≤ length work.old) × ((at ≤ folded_end) × (base ≤ limit)) }
    ensures { ClearsAll (read_part work.old) left count at base result.at result.base work.old work.new }
{
    let mut q = at;
    let mut b = base;
    for _ in 0..count {
        let s = clear_bool(work, q, left, b);
        q = s.at;
        b = s.base;
    }
    Skipped { at: q, base: b }
}

// The Boolean expression at a place, whatever its polarity.
#[cycle(clear)]
fn clear_bool(work: &mut [i32], at: usize, left: usize, base: usize) -> Skipped
    requires { (min_work_words ≤ length work.old) × ((at ≤ folded_end) × (base ≤ limit)) }
    ensures { Clears (read_part work.old) left at base result.at result.base work.old work.new }
{
    if left == 0 {
        return Skipped { at, base };
    }
    let under = left - 1;
    match node_at(work, false, at) {
        Node::Var(_, q) => Skipped { at: q, base },
        Node::Cmp(_, q) => {
            let a = clear_int(work, q, under, base);
            clear_int(work, a.at, under, a.base)
        }
        Node::Not(q) => clear_bool(work, q, under, base),
        Node::Join(_, k, _, _, q) => clear_members(work, q, under, k, base),
        Node::Cross(_, q) => clear_members(work, q, under, 2, bump(base, 2)),
    }
}

// So many terms.
#[cycle(clear)]
fn clear_terms(work: &mut [i32], at: usize, left: usize, count: usize, base: usize) -> Skipped
    requires { (min_work_words ≤ length work.old) × ((at ≤ folded_end) × (base ≤ limit)) }
    ensures { TermClears (read_part work.old) left count at base result.at result.base work.old work.new }
{
    let mut q = at;
    let mut b = base;
    for _ in 0..count {
        let p = within(q + 1);
        let s = clear_int(work, p, left, b);
        q = s.at;
        b = s.base;
    }
    Skipped { at: q, base: b }
}

// The integer expression at a place.
#[cycle(clear)]
fn clear_int(work: &mut [i32], at: usize, left: usize, base: usize) -> Skipped
    requires { (min_work_words ≤ length work.old) × ((at ≤ folded_end) × (base ≤ limit)) }
    ensures { IntClears (read_part work.old) left at base result.at result.base work.old work.new }
{
    if left == 0 {
        return Skipped { at, base };
    }
    let under = left - 1;
    let x = word(work, at + 1);
    let one = within(at + 1);
    let two = within(at + 2);
    match word(work, at) {
        22 => clear_terms(work, two, under, x, base),
        23 => {
            let c = clear_bool(work, one, under, base);
            let t = clear_int(work, c.at, under, c.base);
            let f = clear_int(work, t.at, under, t.base);
            clear_cell(work, at, base, f.base);
            f
        }
        _ => Skipped { at: two, base },
    }
}

// The pair whose sides stand at p and q. Where there are no Ifs nothing is read.
pub fn clear_pair(work: &mut [i32], p: usize, q: usize)
    requires { (min_work_words ≤ length work.old) × ((p ≤ folded_end) × (q ≤ folded_end)) }
    ensures { Cleared (pair_ifs work.old p q) work.old work.new }
{
    if scan::has_ifs(work) {
        clear_int(work, p, 64, 0);
        clear_int(work, q, 64, 0);
    }
}
