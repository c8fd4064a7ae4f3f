// Refusals 1 to 11 over a set's words. `work` holds the table of bounds from 7936 on.
// A walk that tests what it passes answers with the place behind, and with the first limit that is passed.
// The codes that words are compared with are numbers of document 01, which callers in C write.
#![tactic(auto)]

ghost use Rattle.std.specs.Prelude.{◌≡◌, false, ◌||◌, ◌<◌, ◌≤◌, min, max, eqb, pos, nat_abs, ◌-ℤ◌, length};
ghost use Rattle.laws.specs.Ints.{lower, higher};
ghost use Rattle.syntax.specs.Words.{max_ints};
ghost use Rattle.limits.specs.Total.{cap, joined, product, constant_total, bounds_total};
ghost use Rattle.words.specs.Refusal.{by_number, refusal_or_0};
ghost use Rattle.accept.specs.Accepted.{ReadySet, LimitsPost, accepted, table_after};
ghost use Rattle.accept.specs.Limit.{hit, refusal_of};
ghost use Rattle.accept.specs.Walk.{ReadyVar, VarPost, ReadyInt, ReadyTerms, ReadyIf, ReadyLeaf, ReadyDeep, IntPost, LeafPost, IfPost, TermsPost, ReadyRange, RangePost, ReadyIfRange, IfRangePost, ReadyRanges, RangesPost, Behind, HeadPost, Marks, WrittenPost, ManyOnePost, ManyPost, ReadyBranches, BranchesPost, ComparedPost, ReadyPair, PairPost, ReadyColumn, ReadyRoot, RootPost, ColumnPost, ReadyColumns, ColumnsPost, OverPost, ReadyAmong, AmongPost, ReadyBeside, BesidePost, ReadySplit, CrowdedPost, DifferPost, DifferentPost, ReadyBool, ReadyBools, StepPost, BoolsPost, ReadyStmt, StmtPost, ReadyStmts, StmtsPost, CheckPost};

use reader::Declared;
use words::Refusal;

// ---- what a walk reads

// A set's words, the work slice with the table of bounds, and how many integer variables are declared.
#[derive(Clone, Copy)]
pub struct Walk<'a> {
    set: &'a [i32],
    work: &'a [i32],
    ints: usize,
    ghost few: { ints ≤ max_ints },
}

// ---- refusals 9, 10 and 11

#[derive(Clone, Copy, PartialEq, Eq, PartialOrd, Ord)]
pub enum Limit {
    Weight,
    Variables,
    Span,
}

impl From<Limit> for Refusal {
    fn from(limit: Limit) -> Refusal
        ensures { result ≡ refusal_of limit }
    {
        match limit {
            Limit::Weight => Refusal::HeavyWeight,
            Limit::Variables => Refusal::ManyVariables,
            Limit::Span => Refusal::WideColumn,
        }
    }
}

// The first in order of the two, if there is one.
fn first(a: Option<Limit>, b: Option<Limit>) -> Option<Limit>
    ensures { hit result ≡ min (hit a) (hit b) }
{
    match (a, b) {
        (Some(x), Some(y)) => Some(x.min(y)),
        (Some(_), None) => a,
        (None, _) => b,
    }
}

// ---- weights, stopped at 1073741824

fn constant_total(w: i32) -> usize
    ensures { result ≡ constant_total w }
{
    (w.unsigned_abs() as usize).min(memory::LIMIT)
}

fn bounds_total(low: i32, high: i32) -> usize
    ensures { result ≡ bounds_total low high }
{
    let n = low.unsigned_abs().max(high.unsigned_abs()).max(1);
    (n as usize).min(memory::LIMIT)
}

fn variable_total(work: &[i32], v: usize) -> usize
    requires { ReadyVar work.now v }
    ensures { VarPost work.now v result }
{
    let low = work[memory::BOUNDS + 2 * v];
    let high = work[memory::BOUNDS + (2 * v + 1)];
    bounds_total(low, high)
}

// A coefficient times a total, joined to what was totalled before.
fn add_term(k: i32, t: usize, acc: usize) -> usize
    requires { (t ≤ cap) × (acc ≤ cap) }
    ensures { result ≡ joined acc (product (nat_abs k) t) }
{
    if t == memory::LIMIT {
        return memory::LIMIT;
    }
    let n = k.unsigned_abs() as usize;
    (acc + n * t).min(memory::LIMIT)
}

// ---- variables written

// Marks variable v if it is below n: 1 where it had no mark, else 0.
fn mark(marks: &mut [bool; 256], v: usize, n: usize) -> usize
    requires { (n ≤ max_ints) × (length marks.old ≡ max_ints) }
    ensures { Marks marks.old (λ u. eqb u v) 0 n marks.new result }
{
    if v >= n {
        return 0;
    }
    if marks[v] {
        return 0;
    }
    marks[v] = true;
    1
}

#[derive(Drop)]
pub struct Head {
    pub next: usize,
    pub terms: usize,
    pub count: usize,
}

// Over all of an If's words, of any other integer expression's own two: how many terms follow.
// Marks the variables below n written there: how many had no mark, and the Ifs.
#[cycle(mark)]
fn mark_head(set: &[i32], at: usize, n: usize, marks: &mut [bool; 256]) -> Head
    requires { Behind set.now at n × (n ≤ max_ints) × (length marks.old ≡ max_ints) }
    ensures { HeadPost set.now at n marks.old marks.new result.next result.terms result.count }
{
    let code = domains::number(set, at);
    if code == 20 {
        return Head {
            next: at + 2,
            terms: 0,
            count: 0,
        };
    }
    if code == 23 {
        let t = passes::skip_members(set, at + 1, 1);
        let x = mark_written(set, t, n, marks);
        let y = mark_written(set, x.next, n, marks);
        return Head {
            next: y.next,
            terms: 0,
            count: x.count + y.count + 1,
        };
    }
    let v = domains::number(set, at + 1);
    if code == 21 {
        let count = mark(marks, v, n);
        return Head {
            next: at + 2,
            terms: 0,
            count,
        };
    }
    Head {
        next: at + 2,
        terms: v,
        count: 0,
    }
}

#[derive(Drop)]
pub struct Marked {
    pub next: usize,
    pub count: usize,
}

// Marks the variables below n that the integer expression writes: how many had no mark, and the Ifs.
// Each head is followed by a coefficient or by the end.
#[cycle(mark)]
fn mark_written(set: &[i32], at: usize, n: usize, marks: &mut [bool; 256]) -> Marked
    requires { Behind set.now at n × (n ≤ max_ints) × (length marks.old ≡ max_ints) }
    ensures { WrittenPost set.now at n marks.old marks.new result.next result.count }
{
    let mut next = at - 1;
    let mut rest = 1;
    let mut count = 0;
    // what is pending grows on the way, so nothing is counted
    while rest != 0 {
        let h = mark_head(set, next + 1, n, marks);
        count += h.count;
        rest = rest - 1 + h.terms;
        next = h.next;
    }
    Marked { next, count }
}

// ---- the tests of refusal 10: each variable and each If has two words at least

// Whether two integer expressions of so many words write over 64 variables; below 128 words they cannot.
fn many_comparison(walk: &Walk<'_>, a: usize, b: usize, words: usize) -> bool
    requires { Behind walk.now.set.now a walk.now.ints × Behind walk.now.set.now b walk.now.ints }
    ensures { ManyPost walk.now.set.now a b words walk.now.ints result }
{
    if words < 128 {
        return false;
    }
    let mut marks: [bool; 256] = [false; 256];
    let x = mark_written(walk.set, a, walk.ints, &mut marks);
    let y = mark_written(walk.set, b, walk.ints, &mut marks);
    x.count + y.count > 64
}

// Whether a column or a branch of so many words writes over 63 variables; below 128 words it cannot.
// One function for this and the last would loop over an array of one or two places, with an invariant.
fn many_column(walk: &Walk<'_>, at: usize, words: usize) -> bool
    requires { Behind walk.now.set.now at walk.now.ints }
    ensures { ManyOnePost walk.now.set.now at words walk.now.ints result }
{
    if words < 128 {
        return false;
    }
    let mut marks: [bool; 256] = [false; 256];
    let x = mark_written(walk.set, at, walk.ints, &mut marks);
    x.count > 63
}

// An If's branches, from t to f and from f to `end`, but for their weights.
fn branches(walk: &Walk<'_>, t: usize, f: usize, end: usize) -> Option<Limit>
    requires { ReadyBranches walk.now.set.now t f end walk.now.ints }
    ensures { BranchesPost walk.now.set.now t f end walk.now.ints (hit result) }
{
    if many_column(walk, t, f - t) || many_column(walk, f, end - f) {
        return Some(Limit::Variables);
    }
    None
}

// Two integer expressions of so many words, whose totals are added.
fn compared(walk: &Walk<'_>, a: usize, b: usize, words: usize, sum: usize) -> Option<Limit>
    requires { Behind walk.now.set.now a walk.now.ints × Behind walk.now.set.now b walk.now.ints }
    ensures { ComparedPost walk.now.set.now a b words sum walk.now.ints (hit result) }
{
    if sum > 1073741823 {
        return Some(Limit::Weight);
    }
    if many_comparison(walk, a, b, words) {
        return Some(Limit::Variables);
    }
    None
}

// ---- integer expressions: their weights, and the tests of what stands inside; a rule's expressions, `rest` of them pending

#[derive(Drop)]
pub struct Total {
    pub next: usize,
    pub total: usize,
    pub refusal: Option<Limit>,
}

#[derive(Drop)]
pub struct Tested {
    pub next: usize,
    pub refusal: Option<Limit>,
}

#[derive(Drop)]
pub struct Step {
    pub next: usize,
    pub members: usize,
    pub refusal: Option<Limit>,
}

// As many terms as `terms` says.
#[cycle(total)]
fn terms_total(walk: &Walk<'_>, at: usize, terms: usize) -> Total
    requires { ReadyTerms walk.now.set.now walk.now.work.now at terms walk.now.ints }
    ensures { TermsPost walk.now.set.now walk.now.work.now at terms walk.now.ints 0 12 result.next result.total (hit result.refusal) }
{
    let mut next = at;
    let mut total = 0;
    let mut refusal = None;
    for _ in 0..terms {
        let t = int_total(walk, next + 1);
        let k = walk.set[next];
        total = add_term(k, t.total, total);
        refusal = first(refusal, t.refusal);
        next = t.next;
    }
    Total {
        next,
        total,
        refusal,
    }
}

// An If: the condition's comparisons, the heavier branch, the tests of both.
#[cycle(total)]
fn if_total(walk: &Walk<'_>, at: usize) -> Total
    requires { ReadyIf walk.now.set.now walk.now.work.now at walk.now.ints }
    ensures { IfPost walk.now.set.now walk.now.work.now at walk.now.ints result.next result.total (hit result.refusal) }
{
    let c = rules(walk, at + 1, 1);
    let t = int_total(walk, c.next);
    let f = int_total(walk, t.next);
    let b = branches(walk, c.next, t.next, f.next);
    let total = t.total.max(f.total).max(1);
    let inside = first(t.refusal, f.refusal);
    let refusal = first(c.refusal, first(b, inside));
    Total {
        next: f.next,
        total,
        refusal,
    }
}

// A constant or a variable, whose code is given.
fn leaf_total(walk: &Walk<'_>, at: usize, code: usize) -> usize
    requires { ReadyLeaf walk.now.set.now walk.now.work.now at code }
    ensures { LeafPost walk.now.set.now walk.now.work.now at result }
{
    if code == 20 {
        let c = walk.set[at + 1];
        return constant_total(c);
    }
    let v = domains::number(walk.set, at + 1);
    variable_total(walk.work, v)
}

// An If or a sum, whose code is given.
#[cycle(total)]
fn deep_total(walk: &Walk<'_>, at: usize, code: usize) -> Total
    requires { ReadyDeep walk.now.set.now walk.now.work.now at code walk.now.ints }
    ensures { IntPost walk.now.set.now walk.now.work.now at walk.now.ints result.next result.total (hit result.refusal) }
{
    if code == 23 {
        return if_total(walk, at);
    }
    let n = domains::number(walk.set, at + 1);
    terms_total(walk, at + 2, n)
}

#[cycle(total)]
fn int_total(walk: &Walk<'_>, at: usize) -> Total
    requires { ReadyInt walk.now.set.now walk.now.work.now at walk.now.ints }
    ensures { IntPost walk.now.set.now walk.now.work.now at walk.now.ints result.next result.total (hit result.refusal) }
{
    let code = domains::number(walk.set, at);
    if code < 22 {
        let total = leaf_total(walk, at, code);
        return Total {
            next: at + 2,
            total,
            refusal: None,
        };
    }
    deep_total(walk, at, code)
}

#[cycle(total)]
fn comparison(walk: &Walk<'_>, at: usize) -> Tested
    requires { ReadyPair walk.now.set.now walk.now.work.now at walk.now.ints }
    ensures { PairPost walk.now.set.now walk.now.work.now at walk.now.ints result.next (hit result.refusal) }
{
    let a = int_total(walk, at);
    let b = int_total(walk, a.next);
    let own = compared(walk, at, a.next, b.next - at, a.total + b.total);
    let inside = first(a.refusal, b.refusal);
    let refusal = first(own, inside);
    Tested {
        next: b.next,
        refusal,
    }
}

#[cycle(total)]
fn rule_step(walk: &Walk<'_>, at: usize) -> Step
    requires { ReadyBool walk.now.set.now walk.now.work.now at walk.now.ints }
    ensures { StepPost walk.now.set.now walk.now.work.now at walk.now.ints result.next result.members (hit result.refusal) }
{
    let code = domains::number(walk.set, at);
    if code < 12 {
        return Step {
            next: at + 2,
            members: 0,
            refusal: None,
        };
    }
    if code < 14 {
        let n = domains::number(walk.set, at + 1);
        return Step {
            next: at + 2,
            members: n,
            refusal: None,
        };
    }
    if code == 14 {
        return Step {
            next: at + 1,
            members: 1,
            refusal: None,
        };
    }
    if code < 18 {
        return Step {
            next: at + 1,
            members: 2,
            refusal: None,
        };
    }
    let t = comparison(walk, at + 2);
    Step {
        next: t.next,
        members: 0,
        refusal: t.refusal,
    }
}

#[cycle(total)]
fn rules(walk: &Walk<'_>, at: usize, n: usize) -> Tested
    requires { ReadyBools walk.now.set.now walk.now.work.now at n walk.now.ints }
    ensures { BoolsPost walk.now.set.now walk.now.work.now at n walk.now.ints 12 result.next (hit result.refusal) }
{
    let mut next = at;
    let mut refusal = None;
    let mut rest = n;
    // as in `mark_written`
    while rest != 0 {
        let s = rule_step(walk, next);
        refusal = first(refusal, s.refusal);
        next = s.next;
        rest = rest - 1 + s.members;
    }
    Tested { next, refusal }
}

// ---- lowest and highest value, of what 9 lets through

#[derive(Drop)]
pub struct Range {
    pub next: usize,
    pub low: i32,
    pub high: i32,
}

#[cycle(range)]
fn terms_range(walk: &Walk<'_>, at: usize, n: usize) -> Range
    requires { ReadyRanges walk.now.set.now walk.now.work.now at n (pos 0) (pos 0) }
    ensures { RangesPost walk.now.set.now walk.now.work.now at n (pos 0) (pos 0) result.next result.low result.high }
{
    let mut next = at;
    let mut low = 0;
    let mut high = 0;
    for _ in 0..n {
        let r = int_range(walk, next + 1);
        let k = walk.set[next];
        low += domains::times_low(k, r.low, r.high);
        high += domains::times_low(k, r.high, r.low);
        next = r.next;
    }
    Range { next, low, high }
}

// An If: the lower and the higher end of both branches.
#[cycle(range)]
fn if_range(walk: &Walk<'_>, at: usize) -> Range
    requires { ReadyIfRange walk.now.set.now walk.now.work.now at }
    ensures { IfRangePost walk.now.set.now walk.now.work.now at result.next result.low result.high }
{
    let c = passes::skip_members(walk.set, at + 1, 1);
    let t = int_range(walk, c);
    let f = int_range(walk, t.next);
    Range {
        next: f.next,
        low: t.low.min(f.low),
        high: t.high.max(f.high),
    }
}

#[cycle(range)]
fn int_range(walk: &Walk<'_>, at: usize) -> Range
    requires { ReadyRange walk.now.set.now walk.now.work.now at }
    ensures { RangePost walk.now.set.now walk.now.work.now at result.next result.low result.high }
{
    let code = domains::number(walk.set, at);
    if code == 20 {
        let c = walk.set[at + 1];
        return Range {
            next: at + 2,
            low: c,
            high: c,
        };
    }
    if code == 23 {
        return if_range(walk, at);
    }
    let v = domains::number(walk.set, at + 1);
    if code == 21 {
        let low = walk.work[memory::BOUNDS + 2 * v];
        let high = walk.work[memory::BOUNDS + (2 * v + 1)];
        return Range {
            next: at + 2,
            low,
            high,
        };
    }
    terms_range(walk, at + 2, v)
}

// ---- columns

// A column of so many words with this total, but for what stands inside.
fn root(walk: &Walk<'_>, at: usize, words: usize, total: usize) -> Option<Limit>
    requires { ReadyRoot walk.now.set.now walk.now.work.now at total walk.now.ints }
    ensures { RootPost walk.now.set.now walk.now.work.now at words total walk.now.ints (hit result) }
{
    if total > 1073741823 {
        return Some(Limit::Weight);
    }
    if many_column(walk, at, words) {
        return Some(Limit::Variables);
    }
    let r = int_range(walk, at);
    let d = r.high.abs_diff(r.low);
    if d > 4095 {
        return Some(Limit::Span);
    }
    None
}

fn column(walk: &Walk<'_>, at: usize) -> Tested
    requires { ReadyColumn walk.now.set.now walk.now.work.now at walk.now.ints }
    ensures { ColumnPost walk.now.set.now walk.now.work.now at walk.now.ints result.next (hit result.refusal) }
{
    let a = int_total(walk, at);
    let own = root(walk, at, a.next - at, a.total);
    let refusal = first(own, a.refusal);
    Tested {
        next: a.next,
        refusal,
    }
}

fn columns(walk: &Walk<'_>, at: usize, n: usize) -> Tested
    requires { ReadyColumns walk.now.set.now walk.now.work.now at n walk.now.ints }
    ensures { ColumnsPost walk.now.set.now walk.now.work.now at n walk.now.ints 12 result.next (hit result.refusal) }
{
    let mut next = at;
    let mut refusal = None;
    for _ in 0..n {
        let t = column(walk, next);
        refusal = first(refusal, t.refusal);
        next = t.next;
    }
    Tested { next, refusal }
}

// ---- expressions that differ: each pair is tested as a comparison

#[derive(Drop)]
pub struct Weighed {
    pub next: usize,
    pub heavy: bool,
    pub refusal: Option<Limit>,
}

// 9: the largest total so far with the next one; the first comes beside 0. And what stands inside each.
fn heavy_pairs(walk: &Walk<'_>, at: usize, n: usize) -> Weighed
    requires { ReadyColumns walk.now.set.now walk.now.work.now at n walk.now.ints }
    ensures { OverPost walk.now.set.now walk.now.work.now at n walk.now.ints 0 false 12 result.next result.heavy (hit result.refusal) }
{
    let mut next = at;
    let mut top = 0;
    let mut heavy = false;
    let mut refusal = None;
    for _ in 0..n {
        let t = int_total(walk, next);
        heavy |= top + t.total > 1073741823;
        top = top.max(t.total);
        refusal = first(refusal, t.refusal);
        next = t.next;
    }
    Weighed {
        next,
        heavy,
        refusal,
    }
}

// 10: whether the expression at `a`, of so many words, writes over 64 variables with one of the n.
fn many_among(walk: &Walk<'_>, a: usize, words: usize, at: usize, n: usize) -> bool
    requires { ReadyAmong walk.now.set.now a words at n walk.now.ints }
    ensures { AmongPost walk.now.set.now a words at n walk.now.ints result }
{
    let mut next = at;
    for _ in 0..n {
        let end = passes::skip_int(walk.set, next);
        if many_comparison(walk, a, next, words + (end - next)) {
            return true;
        }
        next = end;
    }
    false
}

// 10: the expression from `a` to `end` with the k from `at` on before it and the n behind it. Of two with 128 words one has 64, and asks.
fn many_beside(walk: &Walk<'_>, a: usize, end: usize, at: usize, k: usize, n: usize) -> bool
    requires { ReadyBeside walk.now.set.now a end at k n walk.now.ints }
    ensures { BesidePost walk.now.set.now a end at k n walk.now.ints result }
{
    let words = end - a;
    if words < 64 {
        return false;
    }
    many_among(walk, a, words, at, k) || many_among(walk, a, words, end, n)
}

// 10.
fn many_pairs(walk: &Walk<'_>, at: usize, n: usize) -> bool
    requires { ReadySplit walk.now.set.now at n at n walk.now.ints }
    ensures { CrowdedPost walk.now.set.now at n at n walk.now.ints result }
{
    let mut next = at;
    for k in 0..n {
        let end = passes::skip_int(walk.set, next);
        if many_beside(walk, next, end, at, k, n - k - 1) {
            return true;
        }
        next = end;
    }
    false
}

// Expressions that differ, but for what stands inside.
fn differ(walk: &Walk<'_>, at: usize, n: usize, heavy: bool) -> Option<Limit>
    requires { ReadySplit walk.now.set.now at n at n walk.now.ints }
    ensures { DifferPost walk.now.set.now at n heavy walk.now.ints (hit result) }
{
    if heavy {
        return Some(Limit::Weight);
    }
    if many_pairs(walk, at, n) {
        return Some(Limit::Variables);
    }
    None
}

fn all_different(walk: &Walk<'_>, at: usize, n: usize) -> Tested
    requires { ReadyColumns walk.now.set.now walk.now.work.now at n walk.now.ints }
    ensures { DifferentPost walk.now.set.now walk.now.work.now at n walk.now.ints result.next (hit result.refusal) }
{
    let w = heavy_pairs(walk, at, n);
    let own = differ(walk, at, n, w.heavy);
    let refusal = first(own, w.refusal);
    Tested {
        next: w.next,
        refusal,
    }
}

// ---- statements

// The place behind the statement, and the refusal that it hits.
fn one_statement(walk: &Walk<'_>, at: usize) -> Tested
    requires { ReadyStmt walk.now.set.now walk.now.work.now at walk.now.ints }
    ensures { StmtPost walk.now.set.now walk.now.work.now at walk.now.ints result.next (hit result.refusal) }
{
    let code = domains::number(walk.set, at);
    if code == 1 {
        return rules(walk, at + 1, 1);
    }
    let n = domains::number(walk.set, at + 1);
    if code == 3 {
        return all_different(walk, at + 2, n);
    }
    let k = domains::number(walk.set, at + 2);
    let t = columns(walk, at + 3, n);
    Tested {
        next: t.next + n * k,
        refusal: t.refusal,
    }
}

// The same for callers that hold no walk.
pub fn statement(set: &[i32], work: &[i32], at: usize, ni: usize) -> Tested
    requires { ReadyStmt set.now work.now at ni × (ni ≤ max_ints) }
    ensures { StmtPost set.now work.now at ni result.next (hit result.refusal) }
{
    let walk = &Walk {
        set,
        work,
        ints: ni,
    };
    one_statement(walk, at)
}

fn statements(walk: &Walk<'_>, at: usize, n: usize) -> Option<Limit>
    requires { ReadyStmts walk.now.set.now walk.now.work.now at n walk.now.ints }
    ensures { StmtsPost walk.now.set.now walk.now.work.now at n walk.now.ints 12 (hit result) }
{
    let mut next = at;
    let mut refusal = None;
    for _ in 0..n {
        let t = one_statement(walk, next);
        refusal = first(refusal, t.refusal);
        next = t.next;
    }
    refusal
}

// Refusals 9, 10 and 11 of n statements from `at` on.
fn check(set: &[i32], work: &[i32], at: usize, n: usize, ni: usize) -> Result<(), Refusal>
    requires { ReadyStmts set.now work.now at n ni × (ni ≤ max_ints) }
    ensures { CheckPost set.now work.now at n ni (refusal_or_0 result) }
{
    let walk = &Walk {
        set,
        work,
        ints: ni,
    };
    match statements(walk, at, n) {
        Some(limit) => Err(Refusal::from(limit)),
        None => Ok(()),
    }
}

// Refusals 9, 10 and 11 of a set that was read. The table of bounds stays in the work slice.
fn check_limits(set: &[i32], work: &mut [i32]) -> Result<(), Refusal>
    requires { ReadySet set.now work.old }
    ensures { LimitsPost set.now work.old work.new (refusal_or_0 result) }
{
    let ni = domains::number(set, 1);
    let at = domains::write_bounds(set, 2, ni, work, memory::BOUNDS);
    let n = domains::number(set, at);
    check(set, work, at + 1, n, ni)
}

// Refusals 1 to 11 for any words and lengths: what the set declares, or the refusal.
pub fn accept(set: &[i32], work: &mut [i32]) -> Result<Declared, Refusal>
    ensures { (by_number result ≡ accepted (length work.old) set.now) × (work.new ≡ table_after set.now work.old) }
{
    if work.len() < memory::WORK_LENGTH {
        return Err(Refusal::ShortWork);
    }
    if set.len() > memory::MAX_SET_WORDS {
        return Err(Refusal::LongSet);
    }
    let declared = reader::read_set(set)?;
    check_limits(set, work)?;
    Ok(declared)
}
