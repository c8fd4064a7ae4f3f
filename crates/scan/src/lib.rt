// The read-only survey of the folded words with Ifs: what stands at a place, where it ends, and what its numbering and its clauses will come to.
#![tactic(auto)]

ghost use Rattle.std.specs.Prelude.{◌≡◌, true, ◌+◌, ◌≤◌, ◌<◌, length};
ghost use Rattle.std.specs.Option.{IfSome};
ghost use Rattle.memory.specs.Places.{folded_end, limit};
ghost use Rattle.syntax.specs.Words.{max_bools, max_ints};
ghost use Rattle.walk.specs.Decode.{word as word_in, constant_node, read_part};
ghost use Rattle.walks.specs.Tree.{inner as inner_of};
ghost use Rattle.walks.specs.Item.{has_ifs as has-ifs-in, more_ints as more-ints-of, more_bools as more-bools-of, meets_bool, meets_int, cell as cell_of, seen_in};
ghost use Rattle.walks.specs.Decode.{node_of};
ghost use Rattle.scan.specs.Skip.{split_by, inside_of, Skips, SkipsAll, IntSkips, TermSkips, LiteralMember, LeafTerm};
ghost use Rattle.scan.specs.LeafLaws.{counted, swapped as swapped-of, LeavesAt, LeavesAll};
ghost use Rattle.scan.specs.IfLaws.{seen_code, seen_at, passed_at, Low};
ghost use Rattle.scan.specs.SurveyLaws.{scanned, single_of, joined_of, behind_at, Surveys, SurveysAll, IntSurveys, TermSurveys, Makes, named};

use survey::{
    Skipped, add_member, below, bump, close_cross, close_disj, fresh, longer, single, within, word,
};
use walk::{Counters, Node, Surveyed};

// ---- nodes

fn constant_at(x: usize, g: bool, q: usize) -> Node
    ensures { result ≡ constant_node x g q }
{
    Node::Join((x == 1) == g, 0, g, g, q)
}

// What the code word at a place asks; of a comparison, its operator's code and where its first side stands.
#[inline]
pub fn node_at(work: &[i32], g: bool, at: usize) -> Node
    requires { (folded_end ≤ length work.now) × (at ≤ folded_end) }
    ensures { result ≡ node_of (read_part work.now) g at (word_in (read_part work.now) at) }
{
    let x = word(work, at + 1);
    let one = within(at + 1);
    let two = within(at + 2);
    match word(work, at) {
        10 => constant_at(x, g, two),
        11 => Node::Var(below(x, memory::MAX_BOOLS), two),
        12 => Node::Join(g, x, g, g, two),
        13 => Node::Join(!g, x, g, g, two),
        14 => Node::Not(one),
        15 => Node::Cross(g, one),
        16 => Node::Cross(!g, one),
        17 => Node::Join(!g, 2, !g, g, one),
        18 => Node::Cmp(x, two),
        _ => Node::Join(true, 0, g, g, one),
    }
}

// ---- the end alone

// Splittings are codes: 0 for never, 1 for below, 2 for here. The one inside an Xor, an Iff or a comparison.
pub fn inner(m: usize) -> usize
    ensures { split_by result ≡ inner_of (split_by m) }
{
    if m == 0 {
        return 0;
    }
    2
}

// The splitting's next number inside an Xor or Iff.
fn inside_base(m: usize, base: usize) -> usize
    ensures { result ≡ inside_of (split_by m) base }
{
    if m < 2 {
        return base;
    }
    bump(base, 2)
}

// Below this place three words are folded ones, or four.
const THREE_WORDS: usize = memory::FOLDED_END - 2;

const FOUR_WORDS: usize = memory::FOLDED_END - 3;

// How many words the member at a place has, with levels left, if it is a variable or the negation of one.
fn literal_words(work: &[i32], q: usize, left: usize) -> Option<usize>
    requires { folded_end ≤ length work.now }
    ensures { IfSome result (λ k. LiteralMember work.now left q k) }
{
    if left < 2 || q >= THREE_WORDS {
        return None;
    }
    match (work[q], work[q + 1]) {
        (11, _) => Some(2),
        (14, 11) => Some(3),
        _ => None,
    }
}

// So many members.
#[cycle(skip)]
pub fn skips(work: &[i32], at: usize, left: usize, m: usize, count: usize, base: usize) -> Skipped
    requires { (folded_end ≤ length work.now) × ((at ≤ folded_end) × (base ≤ limit)) }
    ensures { SkipsAll (read_part work.now) left (split_by m) count at base result.at result.base }
{
    let mut q = at;
    let mut b = base;
    for _ in 0..count {
        if let Some(k) = literal_words(work, q, left) {
            q += k;
            continue;
        }
        let s = skip(work, q, left, m, b);
        q = s.at;
        b = s.base;
    }
    Skipped { at: q, base: b }
}

// The expression at a place, whatever its polarity.
#[cycle(skip)]
pub fn skip(work: &[i32], at: usize, left: usize, m: usize, base: usize) -> Skipped
    requires { (folded_end ≤ length work.now) × ((at ≤ folded_end) × (base ≤ limit)) }
    ensures { Skips (read_part work.now) left (split_by m) at base result.at result.base }
{
    if left == 0 {
        return Skipped { at, base };
    }
    let under = left - 1;
    match node_at(work, false, at) {
        Node::Var(_, q) => Skipped { at: q, base },
        Node::Cmp(_, q) => {
            let j = inner(m);
            let a = skip_int(work, q, under, j, base);
            skip_int(work, a.at, under, j, a.base)
        }
        Node::Not(q) => skip(work, q, under, m, base),
        Node::Join(_, k, _, _, q) => skips(work, q, under, m, k, base),
        Node::Cross(_, q) => skips(work, q, under, inner(m), 2, inside_base(m, base)),
    }
}

// Whether the term at a place, with levels left, is a constant or a variable: its three words are passed at once.
pub fn is_leaf(work: &[i32], q: usize, left: usize) -> bool
    requires { folded_end ≤ length work.now }
    ensures { result ≡ true → LeafTerm work.now left q }
{
    if left == 0 || q >= FOUR_WORDS {
        return false;
    }
    let k = work[q + 1];
    k != 22 && k != 23
}

// So many terms.
#[cycle(skip)]
fn skip_terms(work: &[i32], at: usize, left: usize, m: usize, count: usize, base: usize) -> Skipped
    requires { (folded_end ≤ length work.now) × ((at ≤ folded_end) × (base ≤ limit)) }
    ensures { TermSkips (read_part work.now) left (split_by m) count at base result.at result.base }
{
    let mut q = at;
    let mut b = base;
    for _ in 0..count {
        if is_leaf(work, q, left) {
            q += 3;
            continue;
        }
        let p = within(q + 1);
        let s = skip_int(work, p, left, m, b);
        q = s.at;
        b = s.base;
    }
    Skipped { at: q, base: b }
}

// The integer expression at a place.
#[cycle(skip)]
pub fn skip_int(work: &[i32], at: usize, left: usize, m: usize, base: usize) -> Skipped
    requires { (folded_end ≤ length work.now) × ((at ≤ folded_end) × (base ≤ limit)) }
    ensures { IntSkips (read_part work.now) left (split_by m) at base result.at result.base }
{
    if left == 0 {
        return Skipped { at, base };
    }
    let under = left - 1;
    let x = word(work, at + 1);
    let one = within(at + 1);
    let two = within(at + 2);
    match word(work, at) {
        22 => skip_terms(work, two, under, m, x, base),
        23 => {
            let c = skip(work, one, under, m, base);
            let t = skip_int(work, c.at, under, m, c.base);
            skip_int(work, t.at, under, m, t.base)
        }
        _ => Skipped { at: two, base },
    }
}

// ---- counters

// Behind a declared Boolean: one more where it has the counter's own number.
pub fn met(work: &[i32], v: usize, n: Counters) -> Counters
    requires { (v < max_bools) × (n.bools ≤ limit) }
    ensures { result ≡ meets_bool work.now v n }
{
    let b = n.bools;
    if memory::entry(work, memory::BOOL_MAP + v) == b + 1 {
        return Counters {
            bools: bump(b, 1),
            ..n
        };
    }
    n
}

// Whether the folded statements have Ifs.
pub fn has_ifs(work: &[i32]) -> bool
    ensures { result ≡ has-ifs-in work.now }
{
    memory::plain(work, memory::IFS_WORD) != 0
}

// One integer more, where there are Ifs.
pub fn more_ints(work: &[i32], n: Counters) -> Counters
    ensures { result ≡ more-ints-of work.now 1 n }
{
    if has_ifs(work) {
        return Counters {
            ints: bump(n.ints, 1),
            ..n
        };
    }
    n
}

// One Boolean more.
pub fn more_bools(n: Counters) -> Counters
    ensures { result ≡ more-bools-of 1 n }
{
    Counters {
        bools: bump(n.bools, 1),
        ..n
    }
}

// Behind a declared integer.
fn met_int(work: &[i32], v: usize, n: Counters) -> Counters
    requires { (v < max_ints) × (n.ints ≤ limit) }
    ensures { result ≡ meets_int work.now v n }
{
    if memory::entry(work, memory::INT_MAP + v) == n.ints + 1 {
        return more_ints(work, n);
    }
    n
}

// The cell of a place.
pub fn cell(work: &[i32], p: usize) -> i32
    requires { p ≤ folded_end + 3 }
    ensures { result ≡ cell_of work.now p }
{
    memory::plain(work, memory::CELLS + p)
}

// What a cell says of an If: 0 for nothing, 1 for constant branches, else its number plus 2.
fn code_of(z: i32) -> usize
    ensures { result ≡ seen_code (seen_in z) }
{
    if z > 0 {
        return z as usize + 1;
    }
    z.unsigned_abs() as usize
}

// The same of the If at a place.
pub fn seen(work: &[i32], at: usize) -> usize
    requires { at ≤ folded_end }
    ensures { result ≡ seen_code (seen_at work.now at) }
{
    code_of(cell(work, at + 1))
}

// Whether a visit that starts with so many integers passes over the If at a place.
pub fn is_passed(work: &[i32], at: usize, ints: usize) -> bool
    requires { at ≤ folded_end }
    ensures { result ≡ passed_at work.now at ints }
{
    if !has_ifs(work) {
        return true;
    }
    let k = seen(work, at);
    k >= 2 && k - 2 < ints
}

// ---- leaves

// Where an expression ends, the splitting's next number behind it, and its leaves, plain and negated; counts stop at the limit.
#[derive(Drop)]
pub struct LeafCount {
    pub at: usize,
    pub base: usize,
    pub plain: usize,
    pub negated: usize,
}

fn leaf_count(at: usize, base: usize, plain: usize, negated: usize) -> LeafCount
    ensures { result ≡ counted at base plain negated }
{
    LeafCount {
        at,
        base,
        plain,
        negated,
    }
}

// The first, or the second where turned.
fn swapped(f: bool, x: usize, y: usize) -> usize
    ensures { result ≡ swapped-of f x y }
{
    if f { y } else { x }
}

// So many members, the first negated if g, the others if h.
#[cycle(leaves)]
fn leaves_all(
    work: &[i32],
    at: usize,
    left: usize,
    m: usize,
    count: usize,
    base: usize,
    g: bool,
    h: bool,
) -> LeafCount
    requires { (folded_end ≤ length work.now) × ((at ≤ folded_end) × (base ≤ limit)) }
    ensures { LeavesAll (read_part work.now) left (split_by m) count g h at base result.at result.base result.plain result.negated }
{
    let mut q = at;
    let mut b = base;
    let mut x = 0;
    let mut y = 0;
    let mut f = g;
    for _ in 0..count {
        let s = leaves(work, q, left, m, b);
        x = bump(x, swapped(f, s.plain, s.negated));
        y = bump(y, swapped(!f, s.plain, s.negated));
        q = s.at;
        b = s.base;
        f = h;
    }
    LeafCount {
        at: q,
        base: b,
        plain: x,
        negated: y,
    }
}

// Of the expression at a place.
#[cycle(leaves)]
pub fn leaves(work: &[i32], at: usize, left: usize, m: usize, base: usize) -> LeafCount
    requires { (folded_end ≤ length work.now) × ((at ≤ folded_end) × (base ≤ limit)) }
    ensures { LeavesAt (read_part work.now) left (split_by m) at base result.at result.base result.plain result.negated }
{
    if left == 0 {
        return leaf_count(at, base, 0, 0);
    }
    let under = left - 1;
    match node_at(work, false, at) {
        Node::Var(_, q) => leaf_count(q, base, 1, 1),
        Node::Cmp(_, q) => {
            let j = inner(m);
            let a = skip_int(work, q, under, j, base);
            let c = skip_int(work, a.at, under, j, a.base);
            leaf_count(c.at, c.base, 1, 1)
        }
        Node::Not(q) => {
            let s = leaves(work, q, under, m, base);
            leaf_count(s.at, s.base, s.negated, s.plain)
        }
        Node::Join(_, k, a, b, q) => leaves_all(work, q, under, m, k, base, a, b),
        Node::Cross(h, q) => {
            if m <= 1 {
                let s = leaves_all(work, q, under, inner(m), 2, base, false, h);
                let t = bump(s.plain, s.negated);
                return leaf_count(s.at, s.base, t, t);
            }
            let s = skip(work, at, left, m, base);
            leaf_count(s.at, s.base, 4, 4)
        }
    }
}

// ---- the survey

// What a survey finds of an expression, or of so many members, with the Boolean counter behind it, and the integer counter behind it.
#[derive(Clone, Copy)]
pub struct Scanned {
    pub part: Surveyed,
    pub ints: usize,
}

// Where an integer expression ends, the splitting's next number and the counters behind it.
#[derive(Clone, Copy)]
pub struct Behind {
    pub at: usize,
    pub base: usize,
    pub n: Counters,
}

fn behind_of(at: usize, base: usize, n: Counters) -> Behind
    ensures { result ≡ behind_at at base n }
{
    Behind { at, base, n }
}

fn with_ints(s: Surveyed, k: usize) -> Scanned
    ensures { result ≡ scanned s k }
{
    Scanned { part: s, ints: k }
}

// A single member of so many literals and comparisons.
fn single_at(at: usize, base: usize, n: Counters, lits: usize, cmps: usize) -> Scanned
    ensures { result ≡ single_of at base n lits cmps }
{
    with_ints(single(at, base, n.bools, lits, cmps), n.ints)
}

// A disjunction of what is found of its members, or a conjunction.
fn join(d: bool, s: Scanned) -> Scanned
    ensures { result ≡ joined_of d s }
{
    let p = s.part;
    if d {
        return with_ints(close_disj(p), s.ints);
    }
    with_ints(longer(p.at, p.base, p.n, p.all), s.ints)
}

// The counters behind what a new Boolean stands for: the negated condition and the plain one, each in a list with its literal.
fn name_condition(s: Scanned, u: Scanned) -> Counters
    requires { (s.part.lits ≤ folded_end) × (u.part.lits ≤ folded_end) }
    ensures { result ≡ named s u }
{
    let a = s.part;
    let b = u.part;
    let x = bump(b.n, fresh(a.longs, a.lits + 1, a.cmps));
    let y = bump(x, fresh(b.longs, b.lits + 1, b.cmps));
    Counters {
        bools: y,
        ints: u.ints,
    }
}

// So many members, the first negated if g, the others if h.
#[cycle(survey)]
pub fn surveys(
    work: &[i32],
    at: usize,
    left: usize,
    m: usize,
    count: usize,
    base: usize,
    g: bool,
    h: bool,
    n: Counters,
) -> Scanned
    requires { (folded_end ≤ length work.now) × ((at ≤ folded_end) × ((base ≤ limit) × Low n)) }
    ensures { SurveysAll work.now left (split_by m) count g h at base n result }
{
    let mut r = Surveyed {
        at,
        base,
        n: n.bools,
        longs: 0,
        lits: 0,
        cmps: 0,
        lines: 0,
        all: 0,
    };
    let mut ints = n.ints;
    let mut turned = g;
    for _ in 0..count {
        let k = Counters { bools: r.n, ints };
        let s = survey(work, r.at, left, m, r.base, turned, k);
        let p = s.part;
        r = add_member(r, p);
        ints = s.ints;
        turned = h;
    }
    Scanned { part: r, ints }
}

// The expression at a place, negated if g.
#[cycle(survey)]
pub fn survey(
    work: &[i32],
    at: usize,
    left: usize,
    m: usize,
    base: usize,
    g: bool,
    n: Counters,
) -> Scanned
    requires { (folded_end ≤ length work.now) × ((at ≤ folded_end) × ((base ≤ limit) × Low n)) }
    ensures { Surveys work.now left (split_by m) g at base n result }
{
    if left == 0 {
        return single_at(at, base, n, 0, 0);
    }
    let under = left - 1;
    match node_at(work, g, at) {
        Node::Var(v, q) => single_at(q, base, met(work, v, n), 1, 0),
        Node::Cmp(_, q) => {
            let j = inner(m);
            let a = survey_int(work, q, under, j, base, n);
            let b = survey_int(work, a.at, under, j, a.base, a.n);
            single_at(b.at, b.base, b.n, 0, 1)
        }
        Node::Not(q) => survey(work, q, under, m, base, !g, n),
        Node::Join(d, k, a, b, q) => {
            let s = surveys(work, q, under, m, k, base, a, b, n);
            join(d, s)
        }
        Node::Cross(h, q) => {
            let j = inner(m);
            if m > 1 {
                let s = skips(work, q, under, j, 2, bump(base, 2));
                return with_ints(longer(s.at, s.base, n.bools, 2), n.ints);
            }
            let s = surveys(work, q, under, j, 2, base, false, h, n);
            let p = s.part;
            let k = Counters {
                bools: p.n,
                ints: s.ints,
            };
            let u = surveys(work, q, under, j, 2, base, true, !h, k);
            let o = u.part;
            with_ints(close_cross(p, o), u.ints)
        }
    }
}

// So many terms.
#[cycle(survey)]
fn survey_terms(
    work: &[i32],
    at: usize,
    left: usize,
    m: usize,
    count: usize,
    base: usize,
    n: Counters,
) -> Behind
    requires { (folded_end ≤ length work.now) × ((at ≤ folded_end) × ((base ≤ limit) × Low n)) }
    ensures { TermSurveys work.now left (split_by m) count at base n result }
{
    let mut r = Behind { at, base, n };
    for _ in 0..count {
        let p = within(r.at + 1);
        r = survey_int(work, p, left, m, r.base, r.n);
    }
    r
}

// Behind the branches of the If at p, whose condition stands at c.
#[cycle(survey)]
fn make_if(
    work: &[i32],
    p: usize,
    c: usize,
    left: usize,
    m: usize,
    base: usize,
    n: Counters,
) -> Counters
    requires { (folded_end ≤ length work.now) × ((p ≤ folded_end) × ((c ≤ folded_end) × ((base ≤ limit) × Low n))) }
    ensures { Makes work.now left (split_by m) p c base n result }
{
    if seen(work, p) != 1 {
        let i = more_ints(work, n);
        let a = survey(work, c, left, m, base, false, i);
        let q = a.part;
        let k = Counters {
            bools: q.n,
            ints: a.ints,
        };
        let b = survey(work, c, left, m, base, true, k);
        let o = b.part;
        return more_bools(Counters {
            bools: o.n,
            ints: b.ints,
        });
    }
    if word(work, c) == 11 {
        let v = below(word(work, c + 1), memory::MAX_BOOLS);
        return more_ints(work, met(work, v, n));
    }
    let a = survey(work, c, left, m, base, true, more_bools(n));
    let q = a.part;
    let k = Counters {
        bools: q.n,
        ints: a.ints,
    };
    let b = survey(work, c, left, m, base, false, k);
    more_ints(work, name_condition(a, b))
}

// The integer expression at a place.
#[cycle(survey)]
pub fn survey_int(
    work: &[i32],
    at: usize,
    left: usize,
    m: usize,
    base: usize,
    n: Counters,
) -> Behind
    requires { (folded_end ≤ length work.now) × ((at ≤ folded_end) × ((base ≤ limit) × Low n)) }
    ensures { IntSurveys work.now left (split_by m) at base n result }
{
    if left == 0 {
        return behind_of(at, base, n);
    }
    if !has_ifs(work) {
        let s = skip_int(work, at, left, m, base);
        return behind_of(s.at, s.base, n);
    }
    let under = left - 1;
    let x = word(work, at + 1);
    let one = within(at + 1);
    let two = within(at + 2);
    match word(work, at) {
        21 => behind_of(two, base, met_int(work, below(x, memory::MAX_INTS), n)),
        22 => survey_terms(work, two, under, m, x, base, n),
        23 => {
            if is_passed(work, at, n.ints) {
                let s = skip_int(work, at, left, m, base);
                return behind_of(s.at, s.base, n);
            }
            let d = skip(work, one, under, m, base);
            let t = survey_int(work, d.at, under, m, d.base, n);
            let f = survey_int(work, t.at, under, m, t.base, t.n);
            let k = make_if(work, at, one, under, m, base, f.n);
            behind_of(f.at, f.base, k)
        }
        _ => behind_of(two, base, n),
    }
}
