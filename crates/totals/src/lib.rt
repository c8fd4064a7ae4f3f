// The linear sum of an integer expression with Ifs, from the folded words, the final maps and the cells of the Ifs; and the bounds of one.
#![tactic(auto)]

ghost use Rattle.std.specs.Prelude.{◌≡◌, false, ◌+◌, ◌-◌, ◌*◌, ◌<◌, ◌≤◌, ◌^◌, pos, negsuc, nat_abs, length, get_or};
ghost use Rattle.laws.specs.Ints.{lower, higher};
ghost use Rattle.syntax.specs.Words.{max_ints};
ghost use Rattle.memory.specs.Places.{folded_end, limit};
ghost use Rattle.memory.specs.Number.{nat};
ghost use Rattle.sums.specs.LinearSum.{singleton, add_sum, mul_sum, sub_sum};
ghost use Rattle.sums.specs.Rising.{terms_of};
ghost use Rattle.sums.specs.Bounds.{size, Room};
ghost use Rattle.sums.specs.Struct.{terms, sum_of, sum_at, Stands, Wide, Keeps};
ghost use Rattle.walk.specs.Item.{int_number};
ghost use Rattle.walk.specs.Decode.{read_part};
ghost use Rattle.walks.specs.Item.{number_in};
ghost use Rattle.declared.specs.DomainTable.{word_at};
ghost use Rattle.scan.specs.Skip.{split_by};
ghost use Rattle.scan.specs.IfLaws.{seen_at, Low};
ghost use Rattle.scan.specs.SurveyLaws.{IntSurveys};
ghost use Rattle.totals.specs.Lone.{is_sum as is-sum-of, lone_of, sum_in, WordIn};
ghost use Rattle.totals.specs.Linear.{Stepping, Linear, Subtracts, Less, Compares, Differs};
ghost use Rattle.totals.specs.Ranges.{hit as hit-of, Branching, IfBounds, Branched, Finds, Bounded, Bounds, Ranging, Ranges};

use scan::Behind;
use sums::{LinearSum, Partial};
use survey::{below, within, word};
use walk::Counters;

// ---- one number or one constant

// The number of a word that holds number plus 1; 0 for a word that holds none.
fn number_in(z: i32) -> u32
    ensures { (result ≡ nat z - 1) × (result < 2147483648) }
{
    if z < 1 {
        return 0;
    }
    let k = z as usize;
    (k - 1) as u32
}

// The emitted number of a declared integer.
fn number_at(work: &[i32], v: usize) -> u32
    requires { v < max_ints }
    ensures { (result ≡ int_number work.now v) × (result < 2147483648) }
{
    number_in(memory::plain(work, memory::INT_MAP + v))
}

// The number of the If at a place, where its visit ends with so many integers.
pub fn if_number(work: &[i32], at: usize, ints: usize) -> u32
    requires { (at ≤ folded_end) × (ints ≤ limit) }
    ensures { (result ≡ number_in (seen_at work.now at) ints) × (result < 2147483648) }
{
    let z = scan::cell(work, at + 1);
    if z < 0 {
        if z == -1 {
            if ints == 0 {
                return 0;
            }
            return (ints - 1) as u32;
        }
        return number_in(-1 - z);
    }
    number_in(z)
}

// The folded word at a place.
fn word_at(work: &[i32], at: usize) -> i32
    ensures { result ≡ get_or (read_part work.now) at (pos 0) }
{
    if at < memory::FOLDED_END {
        return memory::plain(work, at);
    }
    0
}

// What an integer expression that is no sum adds to one.
#[derive(Drop)]
enum Lone {
    Constant(i32),
    Number(u32),
}

// Of the expression at a place, where its visit ends with so many integers.
fn lone_at(work: &[i32], at: usize, left: usize, ints: usize) -> Lone
    requires { (at ≤ folded_end) × (ints ≤ limit) }
    ensures { (result ≡ lone_of work.now left at ints) × WordIn result }
{
    if left == 0 {
        return Lone::Constant(0);
    }
    match word(work, at) {
        21 => Lone::Number(number_at(work, below(word(work, at + 1), memory::MAX_INTS))),
        23 => Lone::Number(if_number(work, at, ints)),
        _ => Lone::Constant(word_at(work, at + 1)),
    }
}

fn lone_sum(x: Lone) -> LinearSum
    ensures { Stands result (sum_in x) }
{
    match x {
        Lone::Constant(c) => sums::constant(c),
        Lone::Number(v) => sums::singleton(v),
    }
}

// k times it is added to the sum of two arrays.
fn add_lone(vars: &mut [u32; 64], coefs: &mut [i32; 64], s: Partial, x: Lone, k: i32) -> Partial
    requires { (s.count ≤ 64) × Wide vars.old coefs.old × (size (sum_of (sum_at s vars.old coefs.old)) + nat_abs k * size (sum_in x) < 2 ^ 31) × Room (terms (sum_at s vars.old coefs.old)) (terms_of (mul_sum k (sum_in x))) }
    ensures { Keeps result vars.new coefs.new (add_sum (sum_of (sum_at s vars.old coefs.old)) (mul_sum k (sum_in x))) }
{
    match x {
        Lone::Constant(c) => sums::add_constant(s, c, k),
        Lone::Number(v) => sums::add_variable(vars, coefs, s, v, k),
    }
}

// k times another sum is added to it.
fn add_sum(vars: &mut [u32; 64], coefs: &mut [i32; 64], s: Partial, t: LinearSum, k: i32) -> Partial
    requires { (s.count ≤ 64) × (t.count ≤ 64) × Wide vars.old coefs.old × (size (sum_of (sum_at s vars.old coefs.old)) + nat_abs k * size (sum_of t) < 2 ^ 31) × Room (terms (sum_at s vars.old coefs.old)) (terms_of (mul_sum k (sum_of t))) }
    ensures { Keeps result vars.new coefs.new (add_sum (sum_of (sum_at s vars.old coefs.old)) (mul_sum k (sum_of t))) }
{
    let more = t.vars;
    let by = t.coefs;
    let u = Partial {
        constant: t.constant,
        count: t.count,
    };
    sums::add_product(vars, coefs, s, &more, &by, u, k)
}

// ---- sums

// A sum, and where its expression ends with what stands behind it.
#[derive(Drop)]
pub struct Nested {
    pub sum: LinearSum,
    pub behind: Behind,
}

fn is_sum(work: &[i32], at: usize, left: usize) -> bool
    ensures { result ≡ is-sum-of work.now left at }
{
    left != 0 && word(work, at) == 22
}

// Behind the integer expression at a place; where no integer is counted, a constant or a variable is passed at once.
pub fn end_of(work: &[i32], at: usize, left: usize, m: usize, base: usize, n: Counters) -> Behind
    requires { (folded_end ≤ length work.now) × ((at ≤ folded_end) × ((base ≤ limit) × Low n)) }
    ensures { IntSurveys work.now left (split_by m) at base n result }
{
    if left != 0 && word(work, at) < 22 && !scan::has_ifs(work) {
        return Behind {
            at: within(at + 2),
            base,
            n,
        };
    }
    scan::survey_int(work, at, left, m, base, n)
}

// An expression that is no sum.
fn alone(work: &[i32], at: usize, left: usize, m: usize, base: usize, n: Counters) -> Nested
    requires { (folded_end ≤ length work.now) × ((at ≤ folded_end) × ((base ≤ limit) × (Low n × (is-sum-of work.now left at ≡ false)))) }
    ensures { Linear work.now left (split_by m) at base n result }
{
    let e = end_of(work, at, left, m, base, n);
    let c = e.n;
    let s = lone_sum(lone_at(work, at, left, c.ints));
    Nested { sum: s, behind: e }
}

// The sum of the expression at a place: the terms of a sum one after another.
pub fn linear_of(work: &[i32], at: usize, left: usize, m: usize, base: usize, n: Counters) -> Nested
    requires { (folded_end ≤ length work.now) × ((at ≤ folded_end) × ((base ≤ limit) × (Low n × Stepping work.now left (split_by m) at base n))) }
    ensures { Linear work.now left (split_by m) at base n result }
{
    if !is_sum(work, at, left) {
        return alone(work, at, left, m, base, n);
    }
    let under = left - 1;
    let count = word(work, at + 1);
    let two = within(at + 2);
    let mut r = Behind { at: two, base, n };
    let mut vars: [u32; 64] = [0; 64];
    let mut coefs: [i32; 64] = [0; 64];
    let mut sum = Partial {
        constant: 0,
        count: 0,
    };
    for _ in 0..count {
        let k = word_at(work, r.at);
        let p = within(r.at + 1);
        if is_sum(work, p, under) {
            let o = linear_of(work, p, under, m, r.base, r.n);
            let s = o.sum;
            sum = add_sum(&mut vars, &mut coefs, sum, s, k);
            r = o.behind;
            continue;
        }
        r = end_of(work, p, under, m, r.base, r.n);
        let c = r.n;
        let x = lone_at(work, p, under, c.ints);
        sum = add_lone(&mut vars, &mut coefs, sum, x, k);
    }
    let s = LinearSum {
        constant: sum.constant,
        count: sum.count,
        vars,
        coefs,
    };
    Nested { sum: s, behind: r }
}

// ---- differences

// A column's or a branch's sum minus its variable.
pub fn less_variable(s: LinearSum, n: u32) -> LinearSum
    requires { (s.count ≤ 64) × Room (terms s) (terms_of (mul_sum (negsuc 0) (singleton n))) × (size (sum_of s) + 1 < 2 ^ 31) }
    ensures { Stands result (sub_sum (sum_of s) (singleton n)) }
{
    let mut vars = s.vars;
    let mut coefs = s.coefs;
    let p = Partial {
        constant: s.constant,
        count: s.count,
    };
    let d = sums::add_variable(&mut vars, &mut coefs, p, n, -1);
    LinearSum {
        constant: d.constant,
        count: d.count,
        vars,
        coefs,
    }
}

// A side minus the expression at q, which is visited behind it.
pub fn less_side(a: Nested, work: &[i32], q: usize, left: usize, m: usize) -> Nested
    requires { (folded_end ≤ length work.now) × ((q ≤ folded_end) × Subtracts work.now left (split_by m) q a) }
    ensures { Less work.now left (split_by m) q a result }
{
    let e = a.behind;
    let s = a.sum;
    let mut vars = s.vars;
    let mut coefs = s.coefs;
    let p = Partial {
        constant: s.constant,
        count: s.count,
    };
    if is_sum(work, q, left) {
        let b = linear_of(work, q, left, m, e.base, e.n);
        let t = b.sum;
        let f = b.behind;
        let d = add_sum(&mut vars, &mut coefs, p, t, -1);
        let l = LinearSum {
            constant: d.constant,
            count: d.count,
            vars,
            coefs,
        };
        return Nested { sum: l, behind: f };
    }
    let f = end_of(work, q, left, m, e.base, e.n);
    let c = f.n;
    let x = lone_at(work, q, left, c.ints);
    let d = add_lone(&mut vars, &mut coefs, p, x, -1);
    let l = LinearSum {
        constant: d.constant,
        count: d.count,
        vars,
        coefs,
    };
    Nested { sum: l, behind: f }
}

// The left side of a comparison, which stands at a place, minus the right one behind it.
pub fn difference(
    work: &[i32],
    at: usize,
    left: usize,
    m: usize,
    base: usize,
    n: Counters,
) -> Nested
    requires { (folded_end ≤ length work.now) × ((at ≤ folded_end) × ((base ≤ limit) × (Low n × Compares work.now left (split_by m) at base n))) }
    ensures { Differs work.now left (split_by m) at base n result }
{
    let a = linear_of(work, at, left, m, base, n);
    let e = a.behind;
    less_side(a, work, e.at, left, m)
}

// ---- bounds

#[derive(Clone, Copy)]
pub struct Interval {
    pub low: i32,
    pub high: i32,
}

// Of a declared integer, by the table.
fn declared(work: &[i32], v: usize) -> Interval
    requires { v < max_ints }
    ensures { Some result ≡ hit-of (word_at work.now v 0) (word_at work.now v 1) }
{
    let i = memory::DECLARED_DOMAINS + 3 * v;
    let low = memory::plain(work, i);
    let high = memory::plain(work, i + 1);
    Interval { low, high }
}

// From the lower of two values to the higher.
fn between(x: i32, y: i32) -> Interval
    ensures { Some result ≡ hit-of (lower x y) (higher x y) }
{
    Interval {
        low: x.min(y),
        high: x.max(y),
    }
}

// Of the If at p, whose condition stands at c: its cells, or its branches' constants.
fn if_domain(
    work: &[i32],
    p: usize,
    c: usize,
    left: usize,
    m: usize,
    base: usize,
    n: Counters,
) -> Interval
    requires { (folded_end ≤ length work.now) × ((p ≤ folded_end) × ((c ≤ folded_end) × ((base ≤ limit) × (Low n × Branching work.now left (split_by m) c base n)))) }
    ensures { IfBounds work.now left (split_by m) p c base n (Some result) }
{
    if scan::seen(work, p) != 1 {
        let low = scan::cell(work, p + 2);
        let high = scan::cell(work, p + 3);
        return Interval { low, high };
    }
    let d = scan::skip(work, c, left, m, base);
    let a = linear_of(work, d.at, left, m, d.base, n);
    let e = a.behind;
    let b = linear_of(work, e.at, left, m, e.base, e.n);
    let s = a.sum;
    let t = b.sum;
    between(s.constant, t.constant)
}

// The domain of the number x in the expression at a place, which is no sum.
fn find_lone(
    work: &[i32],
    at: usize,
    left: usize,
    m: usize,
    base: usize,
    n: Counters,
    x: u32,
) -> Option<Interval>
    requires { (folded_end ≤ length work.now) × ((at ≤ folded_end) × ((base ≤ limit) × (Low n × ((is-sum-of work.now left at ≡ false) × Branched work.now left (split_by m) at base n)))) }
    ensures { Finds work.now left (split_by m) at base n x result }
{
    if left == 0 {
        return None;
    }
    match word(work, at) {
        21 => {
            let v = below(word(work, at + 1), memory::MAX_INTS);
            if number_at(work, v) == x {
                return Some(declared(work, v));
            }
            None
        }
        23 => {
            let e = scan::survey_int(work, at, left, m, base, n);
            let c = e.n;
            if if_number(work, at, c.ints) == x {
                let one = within(at + 1);
                return Some(if_domain(work, at, one, left - 1, m, base, n));
            }
            None
        }
        _ => None,
    }
}

// The domain of the number x where it is first met in the expression at a place.
fn find(
    work: &[i32],
    at: usize,
    left: usize,
    m: usize,
    base: usize,
    n: Counters,
    x: u32,
) -> Option<Interval>
    requires { (folded_end ≤ length work.now) × ((at ≤ folded_end) × ((base ≤ limit) × (Low n × Branched work.now left (split_by m) at base n))) }
    ensures { Finds work.now left (split_by m) at base n x result }
{
    if !is_sum(work, at, left) {
        return find_lone(work, at, left, m, base, n, x);
    }
    let under = left - 1;
    let count = word(work, at + 1);
    let mut r = Behind {
        at: within(at + 2),
        base,
        n,
    };
    for _ in 0..count {
        let p = within(r.at + 1);
        if let Some(d) = find(work, p, under, m, r.base, r.n, x) {
            return Some(d);
        }
        r = end_of(work, p, under, m, r.base, r.n);
    }
    None
}

// The bounds of the sum s of the expression at a place.
fn bounds(
    s: LinearSum,
    work: &[i32],
    at: usize,
    left: usize,
    m: usize,
    base: usize,
    n: Counters,
) -> Interval
    requires { (folded_end ≤ length work.now) × ((at ≤ folded_end) × ((base ≤ limit) × (Low n × Bounded work.now left (split_by m) at base n s))) }
    ensures { Bounds work.now left (split_by m) at base n s result.low result.high }
{
    let nothing = Interval { low: 0, high: 0 };
    let mut low = s.constant;
    let mut high = s.constant;
    for i in 0..s.count {
        let k = s.coefs[i];
        let d = find(work, at, left, m, base, n, s.vars[i]).unwrap_or(nothing);
        low += domains::times_low(k, d.low, d.high);
        high += domains::times_low(k, d.high, d.low);
    }
    Interval { low, high }
}

// The lowest and the highest value of the expression at a place, by the domains of the numbers in its sum.
pub fn range_of(
    work: &[i32],
    at: usize,
    left: usize,
    m: usize,
    base: usize,
    n: Counters,
) -> Interval
    requires { (folded_end ≤ length work.now) × ((at ≤ folded_end) × ((base ≤ limit) × (Low n × Ranging work.now left (split_by m) at base n))) }
    ensures { Ranges work.now left (split_by m) at base n result.low result.high }
{
    let l = linear_of(work, at, left, m, base, n);
    let s = l.sum;
    bounds(s, work, at, left, m, base, n)
}
