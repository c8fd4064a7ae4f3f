// The clauses of an AllDifferent whose expressions stand in the work slice: one for each pair, and one for each value where the values are used up.
// Where no If stands among the folded words, every clause follows from the final maps; else each pair is numbered again right before it is written.
#![tactic(auto)]

ghost use Rattle.std.specs.Prelude.{◌≡◌, ◌+◌, ◌-◌, ◌≤◌, ◌<◌, ◌^◌, nat_abs, length};
ghost use Rattle.laws.specs.Lists.{counted};
ghost use Rattle.laws.specs.Writes.{Wrote, Open};
ghost use Rattle.syntax.specs.Words.{max_ints};
ghost use Rattle.memory.specs.Places.{folded_end};
ghost use Rattle.memory.specs.Number.{nat};
ghost use Rattle.syntax.specs.Syntax.{Ne};
ghost use Rattle.sums.specs.LinearSum.{term, sub_sum};
ghost use Rattle.clauses.specs.Clause.{linear};
ghost use Rattle.answer.specs.Answer.{term_words, linear_words};
ghost use Rattle.walk.specs.Item.{int_number};
ghost use Rattle.rows.specs.Emit.{Behind};
ghost use Rattle.walk.specs.Decode.{word as word_in, read_part};
ghost use Rattle.differing.specs.Pair.{leaf_code, leaf_sum, apart_terms, IsLeaf, Pair, Compared, Paired};
ghost use Rattle.differing.specs.Rows.{end_at, Row, PutRow, Pairs, PutPairs};
ghost use Rattle.differing.specs.Values.{SomeSized, HasValue, PlainValue, ValueOf, SameOf, SomeOne, Like, SomeOver, AllLike, Variables, Used, PutLiterals, PutValue, PutEach, PutValues};
ghost use Rattle.differing.specs.Different.{SomeDifferent, PutDifferent};
ghost use Rattle.numbering.specs.Task.{state_of};
ghost use Rattle.differing.specs.Again.{Asked, Ahead, Redone, pair_redo, row_redo, pairs_redo};
ghost use Rattle.differing.specs.Walked.{SomeWalked, Rewrites};

use numbering::{Progress, Room};
use rows::Written;
use walk::Counters;

// ---- one pair

// The number of a word that holds number plus 1; 0 for a word that holds none.
fn number_in(z: i32) -> usize
    ensures { (result ≡ nat z - 1) × (result < 2147483648) }
{
    if z < 1 {
        return 0;
    }
    let k = z as usize;
    k - 1
}

// The emitted number of a declared integer.
fn number_at(work: &[i32], v: usize) -> usize
    requires { v < max_ints }
    ensures { (result ≡ int_number work.now v) × (result < 2147483648) }
{
    let i = memory::INT_MAP + v;
    if i < work.len() {
        let z = work[i];
        return number_in(z);
    }
    0
}

// A variable's emitted number plus 1, or 0 and a constant.
#[derive(Drop)]
struct Leaf {
    number: usize,
    constant: i32,
}

// Whether a constant or a variable stands at p.
fn is_leaf(work: &[i32], p: usize) -> bool
    ensures { result ≡ leaf_code (word_in (read_part work.now) p) }
{
    let k = survey::word(work, p);
    k != 22 && k != 23
}

// Below this place two words are folded ones.
const TWO_WORDS: usize = memory::FOLDED_END - 1;

// The constant or the variable at p.
fn leaf_at(work: &[i32], p: usize) -> Leaf
    requires { (folded_end ≤ length work.now) × (p ≤ folded_end) }
    ensures { IsLeaf work.now p result.number result.constant }
{
    if survey::word(work, p) == 21 {
        let v = survey::below(survey::word(work, p + 1), memory::MAX_INTS);
        let n = number_at(work, v);
        return Leaf {
            number: n + 1,
            constant: 0,
        };
    }
    if p < TWO_WORDS {
        let c = work[p + 1];
        return Leaf {
            number: 0,
            constant: c,
        };
    }
    Leaf {
        number: 0,
        constant: 0,
    }
}

// The words of a term.
fn put_term(v: usize, k: i32, out: &mut [i32], o: usize) -> usize
    requires { (v < 2147483648) × Open out.old o }
    ensures { Wrote out.old o (term_words (term v k)) out.new result }
{
    let p = output::put(out, o, v as i32);
    output::put(out, p, k)
}

// The terms of one variable less another, each given by its number plus 1, or 0 for none; the lower number first.
fn put_apart(m: usize, n: usize, out: &mut [i32], o: usize) -> usize
    requires { (m ≤ 2147483648) × (n ≤ 2147483648) × Open out.old o }
    ensures { Wrote out.old o (counted term_words (apart_terms m n)) out.new result }
{
    if m == n {
        return output::put(out, o, 0);
    }
    if n == 0 {
        let q = output::put(out, o, 1);
        return put_term(m - 1, 1, out, q);
    }
    if m == 0 {
        let q = output::put(out, o, 1);
        return put_term(n - 1, -1, out, q);
    }
    let q = output::put(out, o, 2);
    if m < n {
        let r = put_term(m - 1, 1, out, q);
        return put_term(n - 1, -1, out, r);
    }
    let r = put_term(n - 1, -1, out, q);
    put_term(m - 1, 1, out, r)
}

// The comparison that two constants or variables differ. Most pairs of a long statement are such, so no sum is made of them.
fn put_leaves(a: Leaf, b: Leaf, out: &mut [i32], o: usize) -> usize
    requires { (a.number ≤ 2147483648) × (b.number ≤ 2147483648) × (nat_abs a.constant + nat_abs b.constant < 2 ^ 31) × Open out.old o }
    ensures { Wrote out.old o (linear_words (linear Ne (sub_sum (leaf_sum a.number a.constant) (leaf_sum b.number b.constant)))) out.new result }
{
    let c = a.constant - b.constant;
    let p = output::put(out, o, 1);
    let q = output::put(out, p, c);
    put_apart(a.number, b.number, out, q)
}

// The comparison that the expressions at a and b differ, by their sums.
fn put_sums(work: &[i32], n: Counters, a: usize, b: usize, out: &mut [i32], o: usize) -> usize
    requires { Pair work.now n a b × Open out.old o }
    ensures { Compared work.now n a b out.old o out.new result }
{
    let x = totals::linear_of(work, a, 64, 2, n.bools, n);
    let y = totals::less_side(x, work, b, 64, 2);
    output::put_linear(1, false, y.sum, out, o)
}

// The same, whatever they are.
fn put_comparison(work: &[i32], n: Counters, a: usize, b: usize, out: &mut [i32], o: usize) -> usize
    requires { Pair work.now n a b × Open out.old o }
    ensures { Compared work.now n a b out.old o out.new result }
{
    if is_leaf(work, a) && is_leaf(work, b) {
        let x = leaf_at(work, a);
        let y = leaf_at(work, b);
        return put_leaves(x, y, out, o);
    }
    put_sums(work, n, a, b, out, o)
}

// The clause of a pair: the expressions at a and b differ.
fn put_pair(work: &[i32], n: Counters, a: usize, b: usize, out: &mut [i32], o: usize) -> usize
    requires { Pair work.now n a b × Open out.old o }
    ensures { Paired work.now n a b out.old o out.new result }
{
    let p = output::put(out, o, 0);
    let q = output::put(out, p, 1);
    put_comparison(work, n, a, b, out, q)
}

// ---- all pairs

// Behind the expression at p.
fn end_of(work: &[i32], p: usize) -> usize
    requires { (folded_end ≤ length work.now) × (p ≤ folded_end) }
    ensures { (result ≡ end_at work.now p) × (result ≤ folded_end) }
{
    let s = scan::skip_int(work, p, 64, 0, 0);
    s.at
}

// The clauses of the expression at a with each of so many from p on.
fn put_row(
    work: &[i32],
    n: Counters,
    a: usize,
    p: usize,
    count: usize,
    out: &mut [i32],
    o: usize,
    k: usize,
) -> Written
    requires { Row work.now n a p count × Behind out.old o k }
    ensures { PutRow work.now n a p count out.old o k out.new result.at result.clauses }
{
    let mut b = p;
    let mut q = o;
    let mut c = k;
    for _ in 0..count {
        if q == memory::CAP {
            return Written { at: q, clauses: c };
        }
        q = put_pair(work, n, a, b, out, q);
        b = end_of(work, b);
        c += 1;
    }
    Written { at: q, clauses: c }
}

// The clauses of the pairs of so many expressions from `at` on: the first with each later one, then the second, and so on.
fn put_pairs(
    work: &[i32],
    n: Counters,
    at: usize,
    count: usize,
    out: &mut [i32],
    o: usize,
    k: usize,
) -> Written
    requires { Pairs work.now n at count × Behind out.old o k }
    ensures { PutPairs work.now n at count out.old o k out.new result.at result.clauses }
{
    let mut p = at;
    let mut q = o;
    let mut c = k;
    for rest in (0..count).rev() {
        if q == memory::CAP {
            return Written { at: q, clauses: c };
        }
        let next = end_of(work, p);
        let w = put_row(work, n, p, next, rest, out, q, c);
        p = next;
        q = w.at;
        c = w.clauses;
    }
    Written { at: q, clauses: c }
}

// ---- the values

// Value k of the domain at d: that of a range from its lowest one on, a list's word.
fn value_at(set: &[i32], d: usize, k: usize) -> i32
    requires { HasValue set.now d k }
    ensures { ValueOf set.now d k result }
{
    if domains::number(set, d) == 0 {
        let low = domains::lower_bound(set, d);
        let x = low + k as i32;
        return x;
    }
    set[d + 2 + k]
}

// Whether two domains of n values have the same ones.
fn same_values(set: &[i32], d: usize, b: usize, n: usize) -> bool
    requires { SomeSized set.now d n × SomeSized set.now b n }
    ensures { SameOf set.now d b n result }
{
    for k in 0..n {
        let x = value_at(set, d, k);
        let y = value_at(set, b, k);
        if x != y {
            return false;
        }
    }
    true
}

// Whether the expression at p is a variable of n values, those of the domain at b.
fn is_like(set: &[i32], work: &[i32], p: usize, b: usize, n: usize) -> bool
    requires { SomeOne set.now work.now p × SomeSized set.now b n }
    ensures { Like set.now work.now p b n result }
{
    if survey::word(work, p) != 21 {
        return false;
    }
    let v = survey::word(work, p + 1);
    let d = domains::domain_of(set, 2, v);
    let m = domains::num_candidates(set, d);
    m == n as i32 && same_values(set, d, b, n)
}

// Whether so many expressions from `at` on are variables of that many values each, those of the domain at b.
fn all_like(set: &[i32], work: &[i32], at: usize, count: usize, b: usize) -> bool
    requires { SomeOver set.now work.now at count × SomeSized set.now b count }
    ensures { AllLike set.now work.now at count b result }
{
    let mut p = at;
    for _ in 0..count {
        if !is_like(set, work, p, b, count) {
            return false;
        }
        p += 2;
    }
    true
}

// The place of the domain whose values so many expressions from `at` on use up.
fn used_up(set: &[i32], work: &[i32], at: usize, count: usize) -> Option<usize>
    requires { SomeOver set.now work.now at count }
    ensures { Used set.now work.now at count result }
{
    if count < 2 || survey::word(work, at) != 21 {
        return None;
    }
    let v = survey::word(work, at + 1);
    let d = domains::domain_of(set, 2, v);
    let m = domains::num_candidates(set, d);
    if m == count as i32 && all_like(set, work, at, count, d) {
        return Some(d);
    }
    None
}

// A comparison with x for each of so many variables from `at` on.
fn put_literals(work: &[i32], at: usize, count: usize, x: i32, out: &mut [i32], o: usize) -> usize
    requires { Variables work.now at count × PlainValue x × Open out.old o }
    ensures { PutLiterals work.now at count x out.old o out.new result }
{
    let mut p = at;
    let mut q = o;
    for _ in 0..count {
        let v = survey::word(work, p + 1);
        let n = number_at(work, v);
        q = rows::put_cmp(out, q, 0, n, x);
        p += 2;
    }
    q
}

// The clause of the value x: one of so many variables from `at` on has it.
fn put_value(work: &[i32], at: usize, count: usize, x: i32, out: &mut [i32], o: usize) -> usize
    requires { Variables work.now at count × PlainValue x × Open out.old o }
    ensures { PutValue work.now at count x out.old o out.new result }
{
    let p = output::put(out, o, 0);
    let q = output::put(out, p, count as i32);
    put_literals(work, at, count, x, out, q)
}

// The clauses of the values of the domain at d, which has as many values as variables stand from `at` on.
fn put_each(
    set: &[i32],
    work: &[i32],
    at: usize,
    count: usize,
    d: usize,
    out: &mut [i32],
    o: usize,
    k: usize,
) -> Written
    requires { Variables work.now at count × SomeSized set.now d count × Behind out.old o k }
    ensures { PutEach set.now work.now at count d out.old o k out.new result.at result.clauses }
{
    let mut q = o;
    let mut c = k;
    for i in 0..count {
        if q == memory::CAP {
            return Written { at: q, clauses: c };
        }
        let x = value_at(set, d, i);
        q = put_value(work, at, count, x, out, q);
        c += 1;
    }
    Written { at: q, clauses: c }
}

// The clauses of the values that so many expressions from `at` on use up.
fn put_values(
    set: &[i32],
    work: &[i32],
    at: usize,
    count: usize,
    out: &mut [i32],
    o: usize,
    k: usize,
) -> Written
    requires { SomeOver set.now work.now at count × Behind out.old o k }
    ensures { PutValues set.now work.now at count out.old o k out.new result.at result.clauses }
{
    match used_up(set, work, at, count) {
        Some(d) => put_each(set, work, at, count, d, out, o, k),
        None => Written { at: o, clauses: k },
    }
}

// ---- the statement

// The clauses of an AllDifferent of so many expressions from `at` on, none of them with an If; the set's words say the declared domains.
pub fn put_different(
    set: &[i32],
    work: &[i32],
    n: Counters,
    at: usize,
    count: usize,
    out: &mut [i32],
    o: usize,
    k: usize,
) -> Written
    requires { SomeDifferent set.now work.now n at count × Behind out.old o k }
    ensures { PutDifferent set.now work.now n at count out.old o k out.new result.at result.clauses }
{
    let w = put_pairs(work, n, at, count, out, o, k);
    put_values(set, work, at, count, out, w.at, w.clauses)
}

// ---- with Ifs: each pair is numbered again right before it is written; the records fall away, since `none` has no room

// Behind pairs: what the first walk counts, and where and behind how many clauses the next one comes.
#[derive(Drop)]
pub struct Rewritten {
    pub walk: Progress,
    pub at: usize,
    pub clauses: usize,
}

// The expressions at p and q, where the walk is not full.
fn rewrite_pair(
    work: &mut [i32],
    none: &mut [i32],
    p: usize,
    q: usize,
    room: Room,
    c: Progress,
    out: &mut [i32],
    o: usize,
    k: usize,
) -> Rewritten
    requires { (c.used ≤ room.cap) × (p ≤ folded_end) × (q ≤ folded_end) × Asked (pair_redo room.records room.cap (read_part work.old) p q) (state_of work.old none.old c) room.records × Ahead out.old o k }
    ensures { Redone room.cap (pair_redo room.records room.cap (read_part work.old) p q) (state_of work.old none.old c) (state_of work.new none.new result.walk) out.old o k out.new result.at result.clauses }
{
    stmtwords::clear_pair(work, p, q);
    let d = numbering::number_pair(work, none, p, q, room, c);
    if room.cap < d.used {
        return Rewritten {
            walk: d,
            at: o,
            clauses: k,
        };
    }
    let n = Counters {
        bools: c.bools,
        ints: c.ints,
    };
    let r = rulewriter::write_pair(work, p, q, n, out, o);
    let m = survey::bump(k, r.lines);
    Rewritten {
        walk: d,
        at: r.o,
        clauses: m,
    }
}

// The expression at p with each of so many from `at` on.
fn rewrite_row(
    work: &mut [i32],
    none: &mut [i32],
    p: usize,
    at: usize,
    count: usize,
    room: Room,
    c: Progress,
    out: &mut [i32],
    o: usize,
    k: usize,
) -> Rewritten
    requires { (p ≤ folded_end) × (at ≤ folded_end) × Asked (row_redo room.records room.cap (read_part work.old) p count at) (state_of work.old none.old c) room.records × Ahead out.old o k }
    ensures { Redone room.cap (row_redo room.records room.cap (read_part work.old) p count at) (state_of work.old none.old c) (state_of work.new none.new result.walk) out.old o k out.new result.at result.clauses }
{
    let mut d = c;
    let mut b = at;
    let mut q = o;
    let mut m = k;
    for _ in 0..count {
        if room.cap < d.used {
            return Rewritten {
                walk: d,
                at: q,
                clauses: m,
            };
        }
        let next = end_of(work, b);
        let r = rewrite_pair(work, none, p, b, room, d, out, q, m);
        b = next;
        d = r.walk;
        q = r.at;
        m = r.clauses;
    }
    Rewritten {
        walk: d,
        at: q,
        clauses: m,
    }
}

// All pairs of so many expressions from `at` on.
fn rewrite_pairs(
    work: &mut [i32],
    none: &mut [i32],
    at: usize,
    count: usize,
    room: Room,
    c: Progress,
    out: &mut [i32],
    o: usize,
    k: usize,
) -> Rewritten
    requires { (at ≤ folded_end) × Asked (pairs_redo room.records room.cap (read_part work.old) count at) (state_of work.old none.old c) room.records × Ahead out.old o k }
    ensures { Redone room.cap (pairs_redo room.records room.cap (read_part work.old) count at) (state_of work.old none.old c) (state_of work.new none.new result.walk) out.old o k out.new result.at result.clauses }
{
    let mut d = c;
    let mut p = at;
    let mut q = o;
    let mut m = k;
    for rest in (0..count).rev() {
        if room.cap < d.used {
            return Rewritten {
                walk: d,
                at: q,
                clauses: m,
            };
        }
        let next = end_of(work, p);
        let r = rewrite_row(work, none, p, next, rest, room, d, out, q, m);
        p = next;
        d = r.walk;
        q = r.at;
        m = r.clauses;
    }
    Rewritten {
        walk: d,
        at: q,
        clauses: m,
    }
}

// An AllDifferent at `at`: its pairs, then the clauses of its values unless the walk is full. The set's words say the declared domains.
pub fn rewrite_different(
    set: &[i32],
    work: &mut [i32],
    none: &mut [i32],
    at: usize,
    room: Room,
    c: Progress,
    out: &mut [i32],
    o: usize,
    k: usize,
) -> Rewritten
    requires { SomeWalked set.now work.old none.old at room c × Behind out.old o k }
    ensures { Rewrites set.now work.old none.old at room c out.old o k work.new none.new out.new result.walk result.at result.clauses }
{
    let n = survey::word(work, at + 1);
    let r = rewrite_pairs(work, none, at + 2, n, room, c, out, o, k);
    if room.cap < r.walk.used {
        return r;
    }
    let m = rows::lesser(r.clauses, r.at);
    let w = put_values(set, work, at + 2, n, out, r.at, m);
    Rewritten {
        walk: r.walk,
        at: w.at,
        clauses: w.clauses,
    }
}
