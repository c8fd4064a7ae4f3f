// Folding statements and requiring (constant_prop_bool): the folded statements stand in the work slice above the fixed values.
// A want of None requires nothing.
#![tactic(auto)]

ghost use Rattle.std.specs.Prelude.{◌≡◌, ◌+◌, ◌*◌, ◌-◌, ◌<◌, pos, length, get_or};
ghost use Rattle.fold.specs.Fold.{Op};
ghost use Rattle.fold.specs.Table.{op_num};
ghost use Rattle.folding.specs.Known.{known};
ghost use Rattle.folding.specs.Steps.{state_of};
ghost use Rattle.passes.specs.Want.{worst_num, clash_status, set_status, set_words, flip, member_want as want_of_member, left_want as want_of_left, right_want as want_of_right, rank};
ghost use Rattle.passes.specs.Skip.{SomeInt, SomeTerms, SomeBool, SomeMembers, IntStepPost, SkipPost, SkipTermsPost, BoolStepPost, SkipMembersPost};
ghost use Rattle.passes.specs.Contract.{Stands, StandMembers, ComparisonPost, PropPost, MembersPost};
ghost use Rattle.passes.specs.Statements.{ReadyColumns, ColumnsPost, ReadyStmt, StmtPost, ReadyStmts, StmtsPost, StandsStmt, PropStmtPost, StandStmts, PropStmtsPost, SomeColumns, SkipColumnsPost, SkipStmtPost};

pub use folding::Span;

// What requiring comes to, the worse the greater.
#[derive(Clone, Copy, PartialEq, Eq, PartialOrd, Ord)]
pub enum Status {
    Unchanged,
    Updated,
    Unsatisfiable,
}

#[derive(Clone, Copy)]
pub struct Required {
    pub next: usize,
    pub status: Status,
}

// ---- passing over expressions

// The place behind an expression's own words, and how many expressions that stand in it follow there.
#[derive(Clone, Copy)]
pub struct Step {
    pub next: usize,
    pub inner: usize,
}

// Over all of an If's words, of any other integer expression's own two: how many terms follow.
#[cycle(skip)]
fn int_step(words: &[i32], at: usize) -> Step
    requires { SomeInt words.now at }
    ensures { IntStepPost words.now at result.next result.inner }
{
    let w = domains::number(words, at);
    if w == 22 {
        let n = domains::number(words, at + 1);
        return Step {
            next: at + 2,
            inner: n,
        };
    }
    if w == 23 {
        let t = skip_members(words, at + 1, 1);
        let e = int_end(words, t);
        let next = int_end(words, e);
        return Step { next, inner: 0 };
    }
    Step {
        next: at + 2,
        inner: 0,
    }
}

// The end of as many terms as `count` says, those of inner sums among them.
#[cycle(skip)]
fn skip_terms(words: &[i32], at: usize, count: usize) -> usize
    requires { SomeTerms words.now at count }
    ensures { SkipTermsPost words.now at count result }
{
    let mut next = at;
    let mut rest = count;
    // what is pending grows on the way, so nothing is counted
    while rest != 0 {
        let s = int_step(words, next + 1);
        next = s.next;
        rest = rest - 1 + s.inner;
    }
    next
}

#[cycle(skip)]
fn int_end(words: &[i32], at: usize) -> usize
    requires { SomeInt words.now at }
    ensures { SkipPost words.now at result }
{
    let s = int_step(words, at);
    skip_terms(words, s.next, s.inner)
}

// Over a Boolean expression's own words, a comparison's sides among them: how many expressions follow.
#[cycle(skip)]
fn bool_step(words: &[i32], at: usize) -> Step
    requires { SomeBool words.now at }
    ensures { BoolStepPost words.now at result.next result.inner }
{
    let code = domains::number(words, at);
    if code < 12 {
        return Step {
            next: at + 2,
            inner: 0,
        };
    }
    if code < 14 {
        let n = domains::number(words, at + 1);
        return Step {
            next: at + 2,
            inner: n,
        };
    }
    if code == 14 {
        return Step {
            next: at + 1,
            inner: 1,
        };
    }
    if code < 18 {
        return Step {
            next: at + 1,
            inner: 2,
        };
    }
    let right = int_end(words, at + 2);
    let next = int_end(words, right);
    Step { next, inner: 0 }
}

// The end of as many expressions as `n` says.
#[cycle(skip)]
pub fn skip_members(words: &[i32], at: usize, n: usize) -> usize
    requires { SomeMembers words.now at n }
    ensures { SkipMembersPost words.now at n result }
{
    let mut next = at;
    let mut rest = n;
    // as in `skip_terms`
    while rest != 0 {
        let s = bool_step(words, next);
        next = s.next;
        rest = rest - 1 + s.inner;
    }
    next
}

// A constant and a variable, the most frequent, have two words.
pub fn skip_int(words: &[i32], at: usize) -> usize
    requires { SomeInt words.now at }
    ensures { SkipPost words.now at result }
{
    let w = domains::number(words, at);
    if w < 22 {
        return at + 2;
    }
    int_end(words, at)
}

// ---- the wants of parts

fn worst(a: Status, b: Status) -> Status
    ensures { rank result ≡ worst_num (rank a) (rank b) }
{
    a.max(b)
}

#[tactic(auto, unfolding(crate::specs::Want::clash_status))]
fn clash(b: bool, want: Option<bool>) -> Status
    ensures { rank result ≡ clash_status b (known want) }
{
    if want == Some(!b) {
        Status::Unsatisfiable
    } else {
        Status::Unchanged
    }
}

fn flip(want: Option<bool>) -> Option<bool>
    ensures { known result ≡ flip (known want) }
{
    want.map(|b| !b)
}

// Of each member of a list that b settles.
fn member_want(b: bool, want: Option<bool>) -> Option<bool>
    ensures { known result ≡ want_of_member b (known want) }
{
    if want == Some(b) { None } else { want }
}

fn left_want(w: usize, want: Option<bool>) -> Option<bool>
    ensures { (o : Op) → w ≡ 15 + op_num o → known result ≡ want_of_left o (known want) }
{
    if w == 17 && want == Some(false) {
        Some(true)
    } else {
        None
    }
}

fn right_want(w: usize, want: Option<bool>) -> Option<bool>
    ensures { (o : Op) → w ≡ 15 + op_num o → known result ≡ want_of_right o (known want) }
{
    if w == 17 && want == Some(false) {
        Some(false)
    } else {
        None
    }
}

// ---- requiring

#[tactic(auto, unfolding(crate::specs::Want::set_status, crate::specs::Want::set_words))]
fn set_infeasible(work: &mut [i32], v: usize, want: Option<bool>) -> Status
    requires { v < length work.old }
    ensures { (rank result ≡ set_status (state_of (get_or work.old v (pos 0))) (known want)) × (work.new ≡ set_words (state_of (get_or work.old v (pos 0))) v (known want) work.old) }
{
    let Some(b) = want else {
        return Status::Unchanged;
    };
    match folding::state_at(work, v) {
        None => {
            folding::put(work, v, b as usize);
            Status::Updated
        }
        Some(s) if s == b => Status::Unchanged,
        Some(_) => Status::Unsatisfiable,
    }
}

// A constant or a variable, whose code is w.
fn prop_leaf(work: &mut [i32], at: usize, w: usize, want: Option<bool>) -> Required
    requires stands { Stands work.old at }
    requires pos_value { (get_or work.old at (pos 0) ≡ pos w) × (w < 12) }
    ensures { PropPost work.old at (known want) work.new result.next (rank result.status) }
{
    let v = domains::number(work, at + 1);
    let next = at + 2;
    if w == 10 {
        let status = clash(v == 1, want);
        return Required { next, status };
    }
    let status = set_infeasible(work, v, want);
    Required { next, status }
}

fn skip_comparison(words: &[i32], at: usize) -> usize
    requires stands { Stands words.now at }
    requires pos_value { get_or words.now at (pos 0) ≡ pos 18 }
    ensures { ComparisonPost words.now at result }
{
    let m = skip_int(words, at + 2);
    skip_int(words, m)
}

// As many members as `count` says.
#[cycle(constant_prop)]
fn constant_prop_members(work: &mut [i32], at: usize, count: usize, want: Option<bool>) -> Required
    requires { StandMembers work.old at count }
    ensures { MembersPost work.old at count (known want) work.new result.next (rank result.status) }
{
    let mut next = at;
    let mut status = Status::Unchanged;
    for _ in 0..count {
        let a = constant_prop_bool(work, next, want);
        next = a.next;
        status = worst(status, a.status);
    }
    Required { next, status }
}

#[cycle(constant_prop)]
fn constant_prop_bool(work: &mut [i32], at: usize, want: Option<bool>) -> Required
    requires { Stands work.old at }
    ensures { PropPost work.old at (known want) work.new result.next (rank result.status) }
{
    let w = domains::number(work, at);
    if w < 12 {
        return prop_leaf(work, at, w, want);
    }
    if w == 18 {
        let next = skip_comparison(work, at);
        return Required {
            next,
            status: Status::Unchanged,
        };
    }
    if w == 14 {
        let k = flip(want);
        return constant_prop_bool(work, at + 1, k);
    }
    if w < 14 {
        let k = member_want(w == 13, want);
        let n = domains::number(work, at + 1);
        return constant_prop_members(work, at + 2, n, k);
    }
    let l = left_want(w, want);
    let a = constant_prop_bool(work, at + 1, l);
    let r = right_want(w, want);
    let b = constant_prop_bool(work, a.next, r);
    let status = worst(a.status, b.status);
    Required {
        next: b.next,
        status,
    }
}

// ---- folding statements

fn fold_columns(words: &[i32], d: usize, at: usize, n: usize, work: &mut [i32], o: usize) -> Span
    requires { ReadyColumns words.now d at n work.old o }
    ensures { ColumnsPost words.now d at n work.old o work.new result.next result.end }
{
    let mut next = at;
    let mut end = o;
    for _ in 0..n {
        let a = folding::constant_folding_int(words, d, next, work, end);
        next = a.next;
        end = a.end;
    }
    Span { next, end }
}

// A table: its header and rows as they are, its columns folded.
fn fold_table(words: &[i32], d: usize, at: usize, work: &mut [i32], o: usize) -> Span
    requires ready_stmt { ReadyStmt words.now d at work.old o }
    requires pos_value { get_or words.now at (pos 0) ≡ pos 2 }
    ensures { StmtPost words.now d at work.old o work.new result.next result.end }
{
    let n = domains::number(words, at + 1);
    let k = domains::number(words, at + 2);
    folding::put(work, o, 2);
    let m = folding::put_two(work, o + 1, n, k);
    let a = fold_columns(words, d, at + 3, n, work, m);
    let cells = n * k;
    let end = memory::copy_words(words, a.next, cells, work, a.end);
    Span {
        next: a.next + cells,
        end,
    }
}

// An AllDifferent: its header as it is, its expressions folded.
fn fold_different(words: &[i32], d: usize, at: usize, work: &mut [i32], o: usize) -> Span
    requires ready_stmt { ReadyStmt words.now d at work.old o }
    requires pos_value { get_or words.now at (pos 0) ≡ pos 3 }
    ensures { StmtPost words.now d at work.old o work.new result.next result.end }
{
    let n = domains::number(words, at + 1);
    let m = folding::put_two(work, o, 3, n);
    fold_columns(words, d, at + 2, n, work, m)
}

pub fn fold_stmt(words: &[i32], d: usize, at: usize, work: &mut [i32], o: usize) -> Span
    requires { ReadyStmt words.now d at work.old o }
    ensures { StmtPost words.now d at work.old o work.new result.next result.end }
{
    let w = domains::number(words, at);
    if w == 1 {
        folding::put(work, o, 1);
        let f = folding::constant_folding_bool(words, d, at + 1, work, o + 1);
        return Span {
            next: f.next,
            end: f.end,
        };
    }
    if w == 2 {
        return fold_table(words, d, at, work, o);
    }
    fold_different(words, d, at, work, o)
}

// As many statements as `count` says.
pub fn fold_stmts(
    words: &[i32],
    d: usize,
    at: usize,
    count: usize,
    work: &mut [i32],
    o: usize,
) -> Span
    requires { ReadyStmts words.now d at count work.old o }
    ensures { StmtsPost words.now d at count work.old o work.new result.next result.end }
{
    let mut next = at;
    let mut end = o;
    for _ in 0..count {
        let a = fold_stmt(words, d, next, work, end);
        next = a.next;
        end = a.end;
    }
    Span { next, end }
}

// ---- requiring each rule

fn skip_columns(words: &[i32], at: usize, n: usize) -> usize
    requires { SomeColumns words.now at n }
    ensures { SkipColumnsPost words.now at n result }
{
    let mut next = at;
    for _ in 0..n {
        next = skip_int(words, next);
    }
    next
}

fn skip_table(words: &[i32], at: usize) -> usize
    requires stands_stmt { StandsStmt words.now at }
    requires pos_value { get_or words.now at (pos 0) ≡ pos 2 }
    ensures { SkipStmtPost words.now at result }
{
    let n = domains::number(words, at + 1);
    let k = domains::number(words, at + 2);
    let m = skip_columns(words, at + 3, n);
    m + n * k
}

fn skip_different(words: &[i32], at: usize) -> usize
    requires stands_stmt { StandsStmt words.now at }
    requires pos_value { get_or words.now at (pos 0) ≡ pos 3 }
    ensures { SkipStmtPost words.now at result }
{
    let n = domains::number(words, at + 1);
    skip_columns(words, at + 2, n)
}

pub fn prop_stmt(work: &mut [i32], at: usize) -> Required
    requires { StandsStmt work.old at }
    ensures { PropStmtPost work.old at work.new result.next (rank result.status) }
{
    let w = domains::number(work, at);
    if w == 1 {
        return constant_prop_bool(work, at + 1, Some(true));
    }
    if w == 2 {
        let next = skip_table(work, at);
        return Required {
            next,
            status: Status::Unchanged,
        };
    }
    let next = skip_different(work, at);
    Required {
        next,
        status: Status::Unchanged,
    }
}

// As many statements as `count` says; the worst status counts.
pub fn constant_prop_stmts(work: &mut [i32], at: usize, count: usize) -> Status
    requires { StandStmts work.old at count }
    ensures { PropStmtsPost work.old at count work.new (rank result) }
{
    let mut next = at;
    let mut status = Status::Unchanged;
    for _ in 0..count {
        let a = prop_stmt(work, next);
        next = a.next;
        status = worst(status, a.status);
    }
    status
}
