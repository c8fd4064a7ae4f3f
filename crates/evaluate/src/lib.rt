// A finished roster, checked. `values` holds the Booleans' values, `nb` of them, then the integers'; the set is read as it was written.
#![tactic(auto)]

ghost use Rattle.std.specs.Prelude.{◌≡◌, ◌+◌, ◌<◌, ◌≤◌, pos, length, get_or};
ghost use Rattle.laws.specs.Lists.{all, below};
ghost use Rattle.syntax.specs.Syntax.{op_at};
ghost use Rattle.syntax.specs.Satisfies.{compare};
ghost use Rattle.domains.specs.Declared.{DomainAt};
ghost use Rattle.verdict.specs.Roster.{is_bit, check_roster};
ghost use Rattle.evaluate.specs.Contract.{ReadyInt, ReadyTerms, IntPost, TermsPost, ReadyBool, ReadyMembers, side_value, BoolPost, MembersPost, ReadyColumns, ColumnsPost, ReadyRow, ReadyRows, word_permits, RowPost, RowsPost, ReadyStmt, ReadyStmts, StmtPost, BrokenPost, WordsAt, ListedPost, DifferPost, DomainPost, ReadyDomains, InsidePost, checked_of, Checks};

use syntax::Values;

#[derive(Drop)]
pub enum Checked {
    Yes,
    Broken(usize),
    Refused(usize),
}

// ---- integer expressions

// What was worked out, and the place behind its words.
#[derive(Drop)]
pub struct Valued<T> {
    pub next: usize,
    pub value: T,
}

// As many terms as `n` says.
#[cycle(holds)]
fn terms_value(set: &[i32], values: &[i32], nb: usize, at: usize, n: usize) -> Valued<i32>
    requires { ReadyTerms set.now values.now nb at n (pos 0) }
    ensures { TermsPost set.now values.now nb at n (pos 0) result.next result.value }
{
    let mut next = at;
    let mut value = 0;
    for _ in 0..n {
        let t = int_value(set, values, nb, next + 1);
        value += set[next] * t.value;
        next = t.next;
    }
    Valued { next, value }
}

// The condition decides which branch is evaluated; the other one is passed over.
#[cycle(holds)]
fn if_value(set: &[i32], values: &[i32], nb: usize, at: usize) -> Valued<i32>
    requires { ReadyInt set.now values.now nb at × (get_or set.now at (pos 0) ≡ pos 23) }
    ensures { IntPost set.now values.now nb at result.next result.value }
{
    let c = bool_holds(set, values, nb, at + 1);
    if !c.value {
        let f = passes::skip_int(set, c.next);
        return int_value(set, values, nb, f);
    }
    let t = int_value(set, values, nb, c.next);
    Valued {
        next: passes::skip_int(set, t.next),
        value: t.value,
    }
}

#[cycle(holds)]
fn int_value(set: &[i32], values: &[i32], nb: usize, at: usize) -> Valued<i32>
    requires { ReadyInt set.now values.now nb at }
    ensures { IntPost set.now values.now nb at result.next result.value }
{
    let code = domains::number(set, at);
    if code == 20 {
        return Valued {
            next: at + 2,
            value: set[at + 1],
        };
    }
    if code == 23 {
        return if_value(set, values, nb, at);
    }
    let v = domains::number(set, at + 1);
    if code == 21 {
        return Valued {
            next: at + 2,
            value: values[nb + v],
        };
    }
    terms_value(set, values, nb, at + 2, v)
}

// ---- Boolean expressions

fn compares(op: usize, x: i32, y: i32) -> bool
    ensures { result ≡ compare (op_at op) x y }
{
    match op {
        0 => x == y,
        1 => x != y,
        2 => x <= y,
        3 => x < y,
        4 => x >= y,
        _ => x > y,
    }
}

#[cycle(holds)]
fn comparison_holds(set: &[i32], values: &[i32], nb: usize, at: usize) -> Valued<bool>
    requires { ReadyBool set.now values.now nb at × (get_or set.now at (pos 0) ≡ pos 18) }
    ensures { BoolPost set.now values.now nb at result.next result.value }
{
    let op = domains::number(set, at + 1);
    let a = int_value(set, values, nb, at + 2);
    let b = int_value(set, values, nb, a.next);
    Valued {
        next: b.next,
        value: compares(op, a.value, b.value),
    }
}

// A constant or a variable.
fn leaf_holds(set: &[i32], values: &[i32], nb: usize, at: usize, code: usize) -> bool
    requires { ReadyBool set.now values.now nb at × (get_or set.now at (pos 0) ≡ pos code) × (code < 12) }
    ensures { BoolPost set.now values.now nb at (at + 2) result }
{
    let v = domains::number(set, at + 1);
    if code == 10 { v == 1 } else { values[v] == 1 }
}

// Xor, Iff or Imp of two sides.
fn sides_hold(code: usize, a: bool, b: bool) -> bool
    ensures { result ≡ side_value code a b }
{
    match code {
        15 => a != b,
        16 => a == b,
        _ => !a || b,
    }
}

// As many members as `n` says: whether one is `stop`, which decides. What lies behind it is passed over.
#[cycle(holds)]
fn members_hold(
    set: &[i32],
    values: &[i32],
    nb: usize,
    at: usize,
    n: usize,
    stop: bool,
) -> Valued<bool>
    requires { ReadyMembers set.now values.now nb at n }
    ensures { MembersPost set.now values.now nb at n stop result.next result.value }
{
    let mut next = at;
    for rest in (0..n).rev() {
        let m = bool_holds(set, values, nb, next);
        if m.value == stop {
            return Valued {
                next: passes::skip_members(set, m.next, rest),
                value: stop,
            };
        }
        next = m.next;
    }
    Valued { next, value: !stop }
}

#[cycle(holds)]
fn bool_holds(set: &[i32], values: &[i32], nb: usize, at: usize) -> Valued<bool>
    requires { ReadyBool set.now values.now nb at }
    ensures { BoolPost set.now values.now nb at result.next result.value }
{
    let code = domains::number(set, at);
    if code < 12 {
        return Valued {
            next: at + 2,
            value: leaf_holds(set, values, nb, at, code),
        };
    }
    if code < 14 {
        let n = domains::number(set, at + 1);
        return members_hold(set, values, nb, at + 2, n, code == 13);
    }
    if code == 14 {
        let a = bool_holds(set, values, nb, at + 1);
        return Valued {
            next: a.next,
            value: !a.value,
        };
    }
    if code == 18 {
        return comparison_holds(set, values, nb, at);
    }
    let a = bool_holds(set, values, nb, at + 1);
    let b = bool_holds(set, values, nb, a.next);
    Valued {
        next: b.next,
        value: sides_hold(code, a.value, b.value),
    }
}

// ---- tables

// The columns' values into the work slice, from its start on.
fn column_values(
    set: &[i32],
    values: &[i32],
    nb: usize,
    at: usize,
    n: usize,
    work: &mut [i32],
) -> usize
    requires { ReadyColumns set.now values.now nb at n work.old 0 }
    ensures { ColumnsPost set.now values.now nb at n work.old 0 work.new result }
{
    let mut next = at;
    for i in 0..n {
        let c = int_value(set, values, nb, next);
        work[i] = c.value;
        next = c.next;
    }
    next
}

fn permits(cell: i32, x: i32) -> bool
    ensures { result ≡ word_permits cell x }
{
    cell == -2147483648 || cell == x
}

fn row_holds(set: &[i32], at: usize, n: usize, work: &[i32]) -> bool
    requires { ReadyRow set.now at n work.now 0 }
    ensures { RowPost set.now at n work.now 0 result }
{
    // no chain with `all`: its proof did not close
    for i in 0..n {
        if !permits(set[at + i], work[i]) {
            return false;
        }
    }
    true
}

fn rows_hold(set: &[i32], at: usize, n: usize, k: usize, work: &[i32]) -> bool
    requires { ReadyRows set.now at n k work.now }
    ensures { RowsPost set.now at n k work.now result }
{
    let mut p = at;
    for _ in 0..k {
        if row_holds(set, p, n, work) {
            return true;
        }
        p += n;
    }
    false
}

fn table_holds(set: &[i32], values: &[i32], nb: usize, at: usize, work: &mut [i32]) -> Valued<bool>
    requires { ReadyStmt set.now values.now nb at work.old × (get_or set.now at (pos 0) ≡ pos 2) }
    ensures { StmtPost set.now values.now nb at result.next result.value }
{
    let n = domains::number(set, at + 1);
    let k = domains::number(set, at + 2);
    let p = column_values(set, values, nb, at + 3, n, work);
    Valued {
        next: p + n * k,
        value: rows_hold(set, p, n, k, work),
    }
}

// ---- AllDifferent

// Whether the n values from the start of the work slice on differ pairwise; the first equal pair decides.
fn differ(work: &[i32], n: usize) -> bool
    requires { WordsAt work.now 0 n }
    ensures { DifferPost work.now 0 n result }
{
    for i in 0..n {
        if work[i + 1..n].contains(&work[i]) {
            return false;
        }
    }
    true
}

fn different_holds(
    set: &[i32],
    values: &[i32],
    nb: usize,
    at: usize,
    work: &mut [i32],
) -> Valued<bool>
    requires { ReadyStmt set.now values.now nb at work.old × (get_or set.now at (pos 0) ≡ pos 3) }
    ensures { StmtPost set.now values.now nb at result.next result.value }
{
    let n = domains::number(set, at + 1);
    let next = column_values(set, values, nb, at + 2, n, work);
    Valued {
        next,
        value: differ(work, n),
    }
}

// ---- statements

fn statement_holds(
    set: &[i32],
    values: &[i32],
    nb: usize,
    at: usize,
    work: &mut [i32],
) -> Valued<bool>
    requires { ReadyStmt set.now values.now nb at work.old }
    ensures { StmtPost set.now values.now nb at result.next result.value }
{
    let code = domains::number(set, at);
    match code {
        1 => bool_holds(set, values, nb, at + 1),
        2 => table_holds(set, values, nb, at, work),
        _ => different_holds(set, values, nb, at, work),
    }
}

// The number, from 1, of the first of n statements that is broken; nothing behind it is looked at.
fn first_broken(
    set: &[i32],
    values: &[i32],
    nb: usize,
    at: usize,
    n: usize,
    work: &mut [i32],
) -> Checked
    requires { ReadyStmts set.now values.now nb at n work.old }
    ensures { BrokenPost set.now values.now nb at n 1 result }
{
    let mut next = at;
    for k in 0..n {
        let s = statement_holds(set, values, nb, next, work);
        if !s.value {
            return Checked::Broken(k + 1);
        }
        next = s.next;
    }
    Checked::Yes
}

// ---- values in their domains

fn in_domain(set: &[i32], at: usize, x: i32) -> bool
    requires { DomainAt set.now at }
    ensures { DomainPost set.now at x result }
{
    match domains::domain_at(set, at) {
        Values::Range(low, high) => low <= x && x <= high,
        Values::Enumerative(values) => values.contains(&x),
    }
}

// The n values from p on, each in the domain that stands next.
fn ints_inside(set: &[i32], at: usize, n: usize, values: &[i32], p: usize) -> bool
    requires { ReadyDomains set.now at n values.now p }
    ensures { InsidePost set.now at n values.now p result }
{
    let mut next = at;
    for q in p..p + n {
        if !in_domain(set, next, values[q]) {
            return false;
        }
        next = domains::domain_end(set, next);
    }
    true
}

fn bit(x: i32) -> bool
    ensures { result ≡ is_bit x }
{
    x == 0 || x == 1
}

fn bools_inside(values: &[i32], nb: usize) -> bool
    requires { nb ≤ length values.now }
    ensures { result ≡ all (λ v. is_bit (get_or values.now v (pos 0))) (below nb) }
{
    // no chain with `all`: its proof did not close
    for v in 0..nb {
        if !bit(values[v]) {
            return false;
        }
    }
    true
}

// ---- the check

// Refusals 1 to 11, 14, 15, then the statements.
fn judge(set: &[i32], values: &[i32], work: &mut [i32]) -> Checked
    ensures { result ≡ checked_of (check_roster set.now values.now (length work.old)) }
{
    match accept::accept(set, work) {
        Err(refusal) => Checked::Refused(refusal.number()),
        Ok(d) => {
            if values.len() != d.bools + d.ints {
                return Checked::Refused(14);
            }
            if !bools_inside(values, d.bools) || !ints_inside(set, 2, d.ints, values, d.bools) {
                return Checked::Refused(15);
            }
            first_broken(set, values, d.bools, d.at, d.stmts, work)
        }
    }
}

// Whether the values satisfy the set: yes, the number of the first broken statement, or the refusal. The work slice is zero afterwards.
pub fn check_roster(set: &[i32], values: &[i32], work: &mut [i32]) -> Checked
    ensures { Checks set.now values.now work.old work.new result }
{
    let answer = judge(set, values, work);
    memory::clear(work);
    answer
}
