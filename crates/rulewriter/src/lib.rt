// The words of a rule's clauses, written straight into the output in their final form: what its Ifs add, then its own.
// The folded words may hold Ifs.
#![tactic(auto)]

ghost use Rattle.std.specs.Prelude.{◌≡◌, true, false, not, cond, [], ◌∷◌, ◌++◌, ◌+◌, ◌≤◌, ◌<◌};
ghost use Rattle.std.proofs.Math.Option.{none};
ghost use Rattle.laws.specs.Writes.{Wrote, Open};
ghost use Rattle.memory.specs.Places.{folded_end, limit};
ghost use Rattle.syntax.specs.Syntax.{op_at};
ghost use Rattle.syntax.specs.Words.{max_bools};
ghost use Rattle.walk.specs.Item.{bump as bump-of, tally, lines_of, word_of, clause_text, block as Block-of};
ghost use Rattle.walk.specs.Decode.{read_part, surveyed};
ghost use Rattle.walks.specs.Form.{nil, cons};
ghost use Rattle.walks.specs.Item.{more_bools, meets_bool, regs, reg_lines, block_words, block_lines, constant_making, form_int_item, equal_item, cross_item, condition_item, tallies, var_item, pools as pools-of, texts, long_texts, disj_text};
ghost use Rattle.walks.specs.Decode.{many, decode, many_terms, decode_int, many_ties, cross_ties, terms_ties, ties_at, ties_int_at};
ghost use Rattle.walks.specs.Tree.{below};
ghost use Rattle.walks.specs.DecodeExact.{rule_at, pair_at};
ghost use Rattle.scan.specs.IfLaws.{Low};
ghost use Rattle.scan.specs.Skip.{split_by, Skips, SkipsAll, IntSkips, TermSkips};
ghost use Rattle.scan.specs.SurveyLaws.{scanned, counters_of, Surveys, SurveysAll, IntSurveys};
ghost use Rattle.output.specs.Suffix.{suffix, Stacked, extra_lits};
ghost use Rattle.rulewriter.specs.Places.{Placed, item_at, items_at, int_at, terms_at, left_at, right_at, compared, BehindSides, Fit, AllFit, IntFit, AllTermsFit, SidesFit, BranchFits, Tallied, share, Probed, ProbedAll, PassedBy, CmpSeen, CrossSeen};
ghost use Rattle.rulewriter.specs.Making.{Puts, PutsNamed, opened, if_at, Branches, made, sides_adds, sides_added, crossed, tied_at, Listed};
ghost use Rattle.rulewriter.specs.Ties.{Blocks, no_extras, two_extras, behind_rule};
ghost use Rattle.rulewriter.specs.Pair.{pair_extras, pair_next, pair_numbers, unequal, unequal_at};

use output::{
    Extra, Suffix, push, pushed, put, put_block, put_linear, put_lit, put_suffix, put_two, word_of,
};
use scan::{Behind, Scanned, has_ifs, survey, survey_int, surveys};
use survey::{add_member, bump, close_cross, close_disj, longer, single, within, word};
use walk::{Counters, Mode, Node, Surveyed};

// ---- longer or single

fn counters(s: Scanned) -> Counters
    ensures { result ≡ counters_of s }
{
    let p = s.part;
    Counters {
        bools: p.n,
        ints: s.ints,
    }
}

fn with_ints(s: Surveyed, k: usize) -> Scanned
    ensures { result ≡ scanned s k }
{
    Scanned { part: s, ints: k }
}

// Before the first member.
fn no_members(at: usize, base: usize, n: Counters) -> Scanned
    ensures { result ≡ scanned (surveyed at base n.bools 0 0 0 0 0) n.ints }
{
    let s = Surveyed {
        at,
        base,
        n: n.bools,
        longs: 0,
        lits: 0,
        cmps: 0,
        lines: 0,
        all: 0,
    };
    Scanned {
        part: s,
        ints: n.ints,
    }
}

// So many members, as far as the first longer one.
#[cycle(probe)]
fn probes(
    work: &[i32],
    at: usize,
    left: usize,
    m: usize,
    count: usize,
    base: usize,
    g: bool,
    h: bool,
    n: Counters,
) -> Scanned
    requires { Placed work.now at base n }
    ensures { ProbedAll work.now left (split_by m) count g h at base n result }
{
    let mut r = no_members(at, base, n);
    let mut f = g;
    for _ in 0..count {
        let p = r.part;
        let s = probe(work, p.at, left, m, p.base, f, counters(r));
        let q = s.part;
        if q.longs != 0 {
            return s;
        }
        r = with_ints(add_member(p, q), s.ints);
        f = h;
    }
    r
}

// What a survey finds of the expression at a place if it has one clause; of a longer one only that it is longer, at once.
#[cycle(probe)]
fn probe(
    work: &[i32],
    at: usize,
    left: usize,
    m: usize,
    base: usize,
    g: bool,
    n: Counters,
) -> Scanned
    requires { Placed work.now at base n }
    ensures { Probed work.now left (split_by m) g at base n result }
{
    if left == 0 {
        return survey(work, at, left, m, base, g, n);
    }
    let under = left - 1;
    match scan::node_at(work, g, at) {
        Node::Not(q) => probe(work, q, under, m, base, !g, n),
        Node::Join(d, k, a, b, q) => {
            if d {
                let s = probes(work, q, under, m, k, base, a, b, n);
                let p = s.part;
                return with_ints(close_disj(p), s.ints);
            }
            with_ints(longer(at, base, n.bools, 0), n.ints)
        }
        Node::Cross(_, _) => with_ints(longer(at, base, n.bools, 0), n.ints),
        _ => survey(work, at, left, m, base, g, n),
    }
}

// ---- the pool

// What a variable has in the pool: its literal among the literals (b), nothing among the comparisons.
fn pool_var(
    work: &[i32],
    v: usize,
    g: bool,
    n: Counters,
    b: bool,
    out: &mut [i32],
    o: usize,
) -> usize
    requires { (v < max_bools) × Open out.old o }
    ensures { Wrote out.old o ((var_item v g).pool b work.now n) out.new result }
{
    if b {
        return put(out, o, survey::signed(survey::literal(work, v), g));
    }
    o
}

// The same of a comparison whose sides stand at a place.
fn pool_cmp(
    work: &[i32],
    at: usize,
    left: usize,
    m: usize,
    base: usize,
    n: Counters,
    k: usize,
    g: bool,
    b: bool,
    out: &mut [i32],
    o: usize,
) -> usize
    requires { Placed work.now at base n × Open out.old o × SidesFit (left_at work.now left (split_by m) at base) (right_at work.now left (split_by m) at base) }
    ensures { Wrote out.old o (cond b [] (compared work.now left (split_by m) at base n (op_at k) g)) out.new result }
{
    if b {
        return o;
    }
    let x = put_sides(work, at, left, m, base, n, k, g, out, o);
    x.o
}

// How many literals (b) or comparisons were found.
fn found(x: Scanned, b: bool) -> usize
    ensures { result ≡ cond b x.part.lits x.part.cmps }
{
    let s = x.part;
    if b { s.lits } else { s.cmps }
}

// Behind a member that has nothing in the pool; without Ifs the counters may stay, since no pool depends on them.
fn pass(work: &[i32], at: usize, left: usize, m: usize, base: usize, g: bool, n: Counters) -> Behind
    requires { Placed work.now at base n }
    ensures { PassedBy work.now left (split_by m) g at base n result }
{
    if has_ifs(work) {
        let x = survey(work, at, left, m, base, g, n);
        let p = x.part;
        return Behind {
            at: p.at,
            base: p.base,
            n: counters(x),
        };
    }
    let y = scan::skip(work, at, left, m, base);
    Behind {
        at: y.at,
        base: y.base,
        n,
    }
}

// The literals (b) or the comparisons of the single members among so many; there are j of them, and no member behind the last is read.
// Its loop counts down what is still to be found, not the members, so it is a while.
#[cycle(pool)]
fn pools(
    work: &[i32],
    at: usize,
    left: usize,
    m: usize,
    count: usize,
    base: usize,
    g: bool,
    h: bool,
    n: Counters,
    b: bool,
    j: usize,
    out: &mut [i32],
    o: usize,
) -> usize
    requires placed { Placed work.now at base n × Open out.old o × AllFit (many (decode (read_part work.now) left (split_by m)) count g h at base).trees }
    requires j_value { j ≡ share b (tallies (items_at work.now left (split_by m) count g h at base)) }
    ensures { Wrote out.old o (pools-of (items_at work.now left (split_by m) count g h at base) b work.now n) out.new result }
{
    let mut q = at;
    let mut rest = count;
    let mut f = g;
    let mut c = base;
    let mut e = n;
    let mut k = j;
    let mut p = o;
    while k != 0 {
        let s = probe(work, q, left, m, c, f, e);
        let a = s.part;
        if a.longs == 0 {
            let x = found(s, b);
            p = pool(work, q, left, m, c, f, e, b, x, out, p);
            q = a.at;
            c = a.base;
            e = counters(s);
            k -= x;
            rest -= 1;
            f = h;
            continue;
        }
        let y = pass(work, q, left, m, c, f, e);
        q = y.at;
        c = y.base;
        e = y.n;
        rest -= 1;
        f = h;
    }
    p
}

// The j literals (b) or comparisons of the expression at a place, which has one clause.
#[cycle(pool)]
fn pool(
    work: &[i32],
    at: usize,
    left: usize,
    m: usize,
    base: usize,
    g: bool,
    n: Counters,
    b: bool,
    j: usize,
    out: &mut [i32],
    o: usize,
) -> usize
    requires placed { Placed work.now at base n × Open out.old o × Fit (decode (read_part work.now) left (split_by m) g at base).tree }
    requires base_value { ((item_at work.now left (split_by m) g at base).unit.longs ≡ 0) × (j ≡ share b (item_at work.now left (split_by m) g at base).unit) }
    ensures { Wrote out.old o ((item_at work.now left (split_by m) g at base).pool b work.now n) out.new result }
{
    if left == 0 {
        return o;
    }
    let under = left - 1;
    match scan::node_at(work, g, at) {
        Node::Var(v, _) => pool_var(work, v, g, n, b, out, o),
        Node::Cmp(k, q) => pool_cmp(work, q, under, scan::inner(m), base, n, k, g, b, out, o),
        Node::Not(q) => pool(work, q, under, m, base, !g, n, b, j, out, o),
        Node::Join(d, k, x, y, q) => {
            if d {
                return pools(work, q, under, m, k, base, x, y, n, b, j, out, o);
            }
            o
        }
        Node::Cross(_, _) => o,
    }
}

// The clause of the pool, with the block's numbers and the suffix.
fn put_pool(
    work: &[i32],
    at: usize,
    left: usize,
    m: usize,
    count: usize,
    base: usize,
    g: bool,
    h: bool,
    n: Counters,
    block: usize,
    x: Surveyed,
    s: Suffix,
    out: &mut [i32],
    o: usize,
) -> usize
    requires placed { Placed work.now at base n × Open out.old o × AllFit (many (decode (read_part work.now) left (split_by m)) count g h at base).trees }
    requires tallied { Tallied work.now left (split_by m) count g h at base x × Stacked s 0 × (block ≤ limit) }
    ensures { Wrote out.old o (clause_text (pools-of (items_at work.now left (split_by m) count g h at base) true work.now n) (Block-of block x.longs ++ suffix s) x.cmps (pools-of (items_at work.now left (split_by m) count g h at base) false work.now n)) out.new result }
{
    let k = x.longs;
    let y = x.lits + k + (64 - s.from);
    let a = put(out, o, word_of(y, false));
    let b = pools(
        work, at, left, m, count, base, g, h, n, true, x.lits, out, a,
    );
    let c = put_block(block, k, out, b);
    let d = put_suffix(s, out, c);
    let e = put(out, d, word_of(x.cmps, false));
    pools(
        work, at, left, m, count, base, g, h, n, false, x.cmps, out, e,
    )
}

// ---- leaves of the walk

// The empty clause.
fn put_none(s: Suffix, out: &mut [i32], o: usize) -> usize
    requires { Stacked s 0 × Open out.old o }
    ensures { Wrote out.old o (clause_text [] (suffix s) 0 []) out.new result }
{
    let n = 64 - s.from;
    let a = put(out, o, word_of(n, false));
    let b = put_suffix(s, out, a);
    put(out, b, 0)
}

// A split Xor or Iff, whose sides have the numbers n and n + 1; h: the second is negated in the first clause.
fn put_split(n: usize, h: bool, s: Suffix, out: &mut [i32], o: usize) -> usize
    requires { (n ≤ limit) × Stacked s 0 × Open out.old o }
    ensures { Wrote out.old o (clause_text (word_of (n + 1) false ∷ word_of (n + 1 + 1) h ∷ []) (suffix s) 0 [] ++ clause_text (word_of (n + 1) true ∷ word_of (n + 1 + 1) (not h) ∷ []) (suffix s) 0 []) out.new result }
{
    let a = put_two(n, false, n + 1, h, s, out, o);
    put_two(n, true, n + 1, !h, s, out, a)
}

// What is found of an expression (or of members) whose clauses are written, and the position behind them.
#[derive(Drop)]
pub struct Walked {
    pub seen: Scanned,
    pub o: usize,
}

// The empty clause of an expression with no level left.
fn write_none(at: usize, base: usize, n: Counters, s: Suffix, out: &mut [i32], o: usize) -> Walked
    requires { Stacked s 0 × Open out.old o }
    ensures { (result.seen ≡ scanned (surveyed at base n.bools 0 0 0 0 1) n.ints) × Wrote out.old o (clause_text [] (suffix s) 0 []) out.new result.o }
{
    let p = put_none(s, out, o);
    let x = with_ints(single(at, base, n.bools, 0, 0), n.ints);
    Walked { seen: x, o: p }
}

// A variable whose words end at q.
fn write_var(
    work: &[i32],
    v: usize,
    q: usize,
    base: usize,
    g: bool,
    n: Counters,
    s: Suffix,
    out: &mut [i32],
    o: usize,
) -> Walked
    requires { (v < max_bools) × Low n × Stacked s 0 × Open out.old o }
    ensures { (result.seen ≡ scanned (surveyed q base (meets_bool work.now v n).bools 0 1 0 0 1) (meets_bool work.now v n).ints) × Wrote out.old o ((var_item v g).text work.now n (suffix s)) out.new result.o }
{
    let p = put_lit(survey::signed(survey::literal(work, v), g), s, out, o);
    let k = scan::met(work, v, n);
    let x = with_ints(single(q, base, k.bools, 1, 0), k.ints);
    Walked { seen: x, o: p }
}

// A comparison whose sides stand at a place.
fn write_cmp(
    work: &[i32],
    at: usize,
    left: usize,
    m: usize,
    base: usize,
    n: Counters,
    k: usize,
    g: bool,
    s: Suffix,
    out: &mut [i32],
    o: usize,
) -> Walked
    requires { Placed work.now at base n × Open out.old o × SidesFit (left_at work.now left (split_by m) at base) (right_at work.now left (split_by m) at base) × Stacked s 0 }
    ensures { CmpSeen work.now left (split_by m) at base n result.seen × Wrote out.old o (clause_text [] (suffix s) 1 (compared work.now left (split_by m) at base n (op_at k) g)) out.new result.o }
{
    let j = 64 - s.from;
    let a = put(out, o, word_of(j, false));
    let b = put_suffix(s, out, a);
    let c = put(out, b, 1);
    let x = put_sides(work, at, left, m, base, n, k, g, out, c);
    let y = x.behind;
    let e = y.n;
    let z = with_ints(single(y.at, y.base, e.bools, 0, 1), e.ints);
    Walked { seen: z, o: x.o }
}

// ---- the walk

// The clauses of so many members, one after another.
#[cycle(write)]
fn write_all(
    work: &[i32],
    at: usize,
    left: usize,
    m: usize,
    count: usize,
    base: usize,
    g: bool,
    h: bool,
    n: Counters,
    s: Suffix,
    out: &mut [i32],
    o: usize,
) -> Walked
    requires placed { Placed work.now at base n × Open out.old o × AllFit (many (decode (read_part work.now) left (split_by m)) count g h at base).trees }
    requires stacked { Stacked s left }
    ensures { SurveysAll work.now left (split_by m) count g h at base n result.seen × Wrote out.old o (texts (items_at work.now left (split_by m) count g h at base) work.now n (suffix s)) out.new result.o }
{
    let mut r = no_members(at, base, n);
    let mut f = g;
    let mut p = o;
    for _ in 0..count {
        let a = r.part;
        let y = write(work, a.at, left, m, a.base, f, counters(r), s, out, p);
        let x = y.seen;
        let b = x.part;
        r = with_ints(add_member(a, b), x.ints);
        p = y.o;
        f = h;
    }
    Walked { seen: r, o: p }
}

// The clauses of the longer ones among so many members, each with its extra literal.
#[cycle(write)]
fn write_longs(
    work: &[i32],
    at: usize,
    left: usize,
    m: usize,
    count: usize,
    base: usize,
    g: bool,
    h: bool,
    n: Counters,
    x: Extra,
    s: Suffix,
    out: &mut [i32],
    o: usize,
) -> usize
    requires placed { Placed work.now at base n × Open out.old o × AllFit (many (decode (read_part work.now) left (split_by m)) count g h at base).trees }
    requires stacked { Stacked s (left + 1) × (x.base ≤ limit) }
    ensures { Wrote out.old o (long_texts x.mode x.base (extra_lits x) (items_at work.now left (split_by m) count g h at base) work.now n 0 (suffix s)) out.new result }
{
    let mut q = at;
    let mut f = g;
    let mut c = base;
    let mut e = n;
    let mut j: usize = 0;
    let mut p = o;
    for _ in 0..count {
        let y = probe(work, q, left, m, c, f, e);
        let a = y.part;
        if a.longs == 0 {
            q = a.at;
            c = a.base;
            e = counters(y);
            f = h;
            continue;
        }
        let z = write(work, q, left, m, c, f, e, pushed(s, x, j), out, p);
        let b = z.seen;
        let d = b.part;
        q = d.at;
        c = d.base;
        e = counters(b);
        p = z.o;
        f = h;
        j += 1;
    }
    p
}

// The disjunction of so many members, x their tally, its new numbers from `block` on.
#[cycle(write)]
fn write_disj(
    work: &[i32],
    at: usize,
    left: usize,
    m: usize,
    count: usize,
    base: usize,
    g: bool,
    h: bool,
    n: Counters,
    block: usize,
    x: Surveyed,
    s: Suffix,
    out: &mut [i32],
    o: usize,
) -> usize
    requires placed { Placed work.now at base n × Open out.old o × AllFit (many (decode (read_part work.now) left (split_by m)) count g h at base).trees }
    requires tallied { Tallied work.now left (split_by m) count g h at base x × Stacked s (left + 1) × (block ≤ limit) }
    ensures { Wrote out.old o (disj_text (items_at work.now left (split_by m) count g h at base) work.now n block (suffix s)) out.new result }
{
    match survey::mode_of(x.longs, x.lits, x.cmps) {
        Mode::Pool => put_pool(work, at, left, m, count, base, g, h, n, block, x, s, out, o),
        Mode::One => {
            let mut one = [0i32; 1];
            let k = x.lits;
            pools(
                work, at, left, m, count, base, g, h, n, true, k, &mut one, 0,
            );
            let y = Extra {
                mode: Mode::One,
                base: block,
                some: x.lits == 1,
                lit: one[0],
            };
            write_longs(work, at, left, m, count, base, g, h, n, y, s, out, o)
        }
        Mode::Two => {
            let y = Extra {
                mode: Mode::Two,
                base: block,
                some: false,
                lit: 0,
            };
            write_longs(work, at, left, m, count, base, g, h, n, y, s, out, o)
        }
        Mode::Each => {
            let y = Extra {
                mode: Mode::Each,
                base: block,
                some: false,
                lit: 0,
            };
            let p = write_longs(work, at, left, m, count, base, g, h, n, y, s, out, o);
            put_pool(work, at, left, m, count, base, g, h, n, block, x, s, out, p)
        }
    }
}

// The clauses of the expression at a place, negated if g, each with the suffix.
#[cycle(write)]
fn write(
    work: &[i32],
    at: usize,
    left: usize,
    m: usize,
    base: usize,
    g: bool,
    n: Counters,
    s: Suffix,
    out: &mut [i32],
    o: usize,
) -> Walked
    requires placed { Placed work.now at base n × Open out.old o × Fit (decode (read_part work.now) left (split_by m) g at base).tree }
    requires stacked { Stacked s left }
    ensures { Surveys work.now left (split_by m) g at base n result.seen × Wrote out.old o ((item_at work.now left (split_by m) g at base).text work.now n (suffix s)) out.new result.o }
{
    if left == 0 {
        return write_none(at, base, n, s, out, o);
    }
    let under = left - 1;
    match scan::node_at(work, g, at) {
        Node::Var(v, q) => write_var(work, v, q, base, g, n, s, out, o),
        Node::Cmp(k, q) => write_cmp(work, q, under, scan::inner(m), base, n, k, g, s, out, o),
        Node::Not(q) => write(work, q, under, m, base, !g, n, s, out, o),
        Node::Join(d, k, a, b, q) => {
            if d {
                let x = surveys(work, q, under, m, k, base, a, b, n);
                let t = x.part;
                let p = write_disj(work, q, under, m, k, base, a, b, n, t.n, t, s, out, o);
                let y = with_ints(close_disj(t), x.ints);
                return Walked { seen: y, o: p };
            }
            let z = write_all(work, q, under, m, k, base, a, b, n, s, out, o);
            let x = z.seen;
            let t = x.part;
            let y = with_ints(longer(t.at, t.base, t.n, t.all), x.ints);
            Walked { seen: y, o: z.o }
        }
        Node::Cross(h, q) => {
            let i = scan::inner(m);
            if m > 1 {
                let x = scan::skips(work, q, under, i, 2, bump(base, 2));
                let p = put_split(base, h, s, out, o);
                let y = with_ints(longer(x.at, x.base, n.bools, 2), n.ints);
                return Walked { seen: y, o: p };
            }
            write_cross(work, q, under, i, base, h, n, s, out, o)
        }
    }
}

// An Xor or Iff that is not split, its sides at a place: both disjunctions.
#[cycle(write)]
fn write_cross(
    work: &[i32],
    at: usize,
    left: usize,
    m: usize,
    base: usize,
    h: bool,
    n: Counters,
    s: Suffix,
    out: &mut [i32],
    o: usize,
) -> Walked
    requires placed { Placed work.now at base n × Open out.old o × AllFit (many (decode (read_part work.now) left (split_by m)) 2 false h at base).trees × AllFit (many (decode (read_part work.now) left (split_by m)) 2 true (not h) at base).trees }
    requires stacked { Stacked s (left + 1) }
    ensures { CrossSeen work.now left (split_by m) h at base n result.seen × Wrote out.old o ((cross_item (items_at work.now left (split_by m) 2 false h at base) (items_at work.now left (split_by m) 2 true (not h) at base)).text work.now n (suffix s)) out.new result.o }
{
    let x = surveys(work, at, left, m, 2, base, false, h, n);
    let k = counters(x);
    let u = surveys(work, at, left, m, 2, base, true, !h, k);
    let p = x.part;
    let q = u.part;
    let b = q.n;
    let r = write_disj(work, at, left, m, 2, base, false, h, n, b, p, s, out, o);
    let e = bump(b, survey::fresh(p.longs, p.lits, p.cmps));
    let z = write_disj(work, at, left, m, 2, base, true, !h, k, e, q, s, out, r);
    let y = with_ints(close_cross(p, q), u.ints);
    Walked { seen: y, o: z }
}

// Behind the two sides of a comparison, and the position behind its words.
#[derive(Drop)]
pub struct Sided {
    pub behind: Behind,
    pub o: usize,
}

// The words of a comparison whose sides stand at a place, its operator k negated if g.
fn put_sides(
    work: &[i32],
    at: usize,
    left: usize,
    m: usize,
    base: usize,
    n: Counters,
    k: usize,
    g: bool,
    out: &mut [i32],
    o: usize,
) -> Sided
    requires { Placed work.now at base n × Open out.old o × SidesFit (left_at work.now left (split_by m) at base) (right_at work.now left (split_by m) at base) }
    ensures { BehindSides work.now left (split_by m) at base n result.behind × Wrote out.old o (compared work.now left (split_by m) at base n (op_at k) g) out.new result.o }
{
    let x = totals::difference(work, at, left, m, base, n);
    let s = x.sum;
    let p = put_linear(k, g, s, out, o);
    let b = x.behind;
    Sided { behind: b, o: p }
}

// ---- the block of an If

fn no_suffix() -> Suffix
    ensures { (suffix result ≡ []) × Stacked result 64 }
{
    Suffix {
        words: [0i32; 64],
        from: 64,
    }
}

fn one_literal(x: usize, g: bool) -> Suffix
    ensures { (suffix result ≡ word_of x g ∷ []) × Stacked result 63 }
{
    push(no_suffix(), word_of(x, g))
}

// How many clauses were written, and the position behind them.
#[derive(Drop)]
pub struct Added {
    pub lines: usize,
    pub o: usize,
}

fn nothing(o: usize) -> Added
    ensures { (result.lines ≡ 0) × (result.o ≡ o) }
{
    Added { lines: 0, o }
}

// What was written in two parts, the second behind the first.
fn both(a: Added, b: Added) -> Added
    ensures { (result.lines ≡ bump-of a.lines b.lines) × (result.o ≡ b.o) }
{
    Added {
        lines: bump(a.lines, b.lines),
        o: b.o,
    }
}

// The clause of an expression that has only one, p what is found of it, with the literal of the number v in front.
fn put_single(
    work: &[i32],
    v: usize,
    h: bool,
    at: usize,
    left: usize,
    m: usize,
    base: usize,
    g: bool,
    n: Counters,
    p: Surveyed,
    out: &mut [i32],
    o: usize,
) -> usize
    requires placed { Placed work.now at base n × Open out.old o × Fit (decode (read_part work.now) left (split_by m) g at base).tree }
    requires v_le_limit { (v ≤ limit) × (p.longs ≡ 0) × (tally p.longs p.lits p.cmps p.lines ≡ (item_at work.now left (split_by m) g at base).unit) × (p.lits + p.cmps ≤ folded_end) }
    ensures { Wrote out.old o (clause_text (word_of (v + 1) h ∷ (item_at work.now left (split_by m) g at base).pool true work.now n) [] p.cmps ((item_at work.now left (split_by m) g at base).pool false work.now n)) out.new result }
{
    let a = put(out, o, word_of(p.lits + 1, false));
    let b = put(out, a, word_of(v + 1, h));
    let c = pool(work, at, left, m, base, g, n, true, p.lits, out, b);
    let d = put(out, c, word_of(p.cmps, false));
    pool(work, at, left, m, base, g, n, false, p.cmps, out, d)
}

// The disjunction of the literal of the number v and the expression at a place: one clause has the literal in front, longer ones behind.
fn put_named(
    work: &[i32],
    v: usize,
    h: bool,
    at: usize,
    left: usize,
    m: usize,
    base: usize,
    g: bool,
    n: Counters,
    out: &mut [i32],
    o: usize,
) -> Added
    requires placed { Placed work.now at base n × Open out.old o × Fit (decode (read_part work.now) left (split_by m) g at base).tree }
    requires v_le_limit { (v ≤ limit) × (left ≤ 63) }
    ensures { PutsNamed v h (item_at work.now left (split_by m) g at base) work.now n out.old o out.new result }
{
    let x = probe(work, at, left, m, base, g, n);
    let p = x.part;
    if p.longs == 0 {
        let q = put_single(work, v, h, at, left, m, base, g, n, p, out, o);
        return Added { lines: 1, o: q };
    }
    let s = one_literal(v + 1, h);
    let z = write(work, at, left, m, base, g, n, s, out, o);
    let y = z.seen;
    let t = y.part;
    Added {
        lines: t.all,
        o: z.o,
    }
}

// The clauses of the number v and the condition at a place, which it stands for: the condition negated, then plain.
fn put_condition(
    work: &[i32],
    v: usize,
    at: usize,
    left: usize,
    m: usize,
    base: usize,
    n: Counters,
    out: &mut [i32],
    o: usize,
) -> Added
    requires placed { Placed work.now at base n × Open out.old o × Fit (decode (read_part work.now) left (split_by m) false at base).tree × Fit (decode (read_part work.now) left (split_by m) true at base).tree }
    requires v_le_limit { (v ≤ limit) × (left ≤ 63) }
    ensures { Puts ((condition_item (item_at work.now left (split_by m) false at base) (item_at work.now left (split_by m) true at base) v).text work.now n []) (lines_of (condition_item (item_at work.now left (split_by m) false at base) (item_at work.now left (split_by m) true at base) v).unit) out.old o out.new result }
{
    let x = survey(work, at, left, m, base, true, n);
    let a = put_named(work, v, false, at, left, m, base, true, n, out, o);
    let b = put_named(
        work,
        v,
        true,
        at,
        left,
        m,
        base,
        false,
        counters(x),
        out,
        a.o,
    );
    both(a, b)
}

// The clause that the integer expression at a place has the number v, with the suffix.
fn put_equal(
    work: &[i32],
    at: usize,
    left: usize,
    m: usize,
    base: usize,
    n: Counters,
    v: usize,
    s: Suffix,
    out: &mut [i32],
    o: usize,
) -> Sided
    requires { Placed work.now at base n × Open out.old o × BranchFits (decode_int (read_part work.now) left (split_by m) at base).tree × Stacked s 0 × (v < 2147483648) }
    ensures { IntSurveys work.now left (split_by m) at base n result.behind × Wrote out.old o ((equal_item ((int_at work.now left (split_by m) at base).total work.now n) v).text work.now n (suffix s)) out.new result.o }
{
    let x = totals::linear_of(work, at, left, m, base, n);
    let y = x.sum;
    let d = totals::less_variable(y, v as u32);
    let j = 64 - s.from;
    let a = put(out, o, word_of(j, false));
    let b = put_suffix(s, out, a);
    let c = put(out, b, 1);
    let p = put_linear(0, false, d, out, c);
    let e = x.behind;
    Sided { behind: e, o: p }
}

// The clauses of an open If of number v whose condition stands at a place and whose first branch at t: each branch has the number or its side fails.
fn put_open(
    work: &[i32],
    at: usize,
    left: usize,
    m: usize,
    base: usize,
    n: Counters,
    t: Behind,
    v: usize,
    out: &mut [i32],
    o: usize,
) -> Added
    requires placed { Placed work.now at base n × Open out.old o × Fit (decode (read_part work.now) left (split_by m) false at base).tree × Fit (decode (read_part work.now) left (split_by m) true at base).tree }
    requires placed_2 { Placed work.now t.at t.base t.n × BranchFits (left_at work.now left (split_by m) t.at t.base) × BranchFits (right_at work.now left (split_by m) t.at t.base) × (v < 2147483648) × (left ≤ 63) }
    ensures { Puts ((opened work.now left (split_by m) at base t v).text work.now n []) (lines_of (opened work.now left (split_by m) at base t v).unit) out.old o out.new result }
{
    let x = survey(work, at, left, m, base, false, n);
    let k = counters(x);
    let y = survey(work, at, left, m, base, true, k);
    let p = x.part;
    let q = y.part;
    let u = q.n;
    let s = one_literal(u + 1, true);
    let a = write(work, at, left, m, base, false, n, s, out, o);
    let b = put_equal(work, t.at, left, m, t.base, t.n, v, s, out, a.o);
    let f = b.behind;
    let z = one_literal(u + 1, false);
    let c = write(work, at, left, m, base, true, k, z, out, b.o);
    let d = put_equal(work, f.at, left, m, f.base, f.n, v, z, out, c.o);
    Added {
        lines: bump(bump(p.all, 1), bump(q.all, 1)),
        o: d.o,
    }
}

// ---- what Ifs add before an expression's own clauses

// Of the two sides of a comparison.
#[cycle(register)]
fn register_sides(
    work: &[i32],
    at: usize,
    left: usize,
    m: usize,
    base: usize,
    n: Counters,
    out: &mut [i32],
    o: usize,
) -> Added
    requires placed { Placed work.now at base n × Open out.old o × IntFit (left_at work.now left (split_by m) at base) × IntFit (right_at work.now left (split_by m) at base) }
    requires left_bound { left ≤ 64 }
    ensures { Puts (sides_adds work.now left (split_by m) at base n) (sides_added work.now left (split_by m) at base n) out.old o out.new result }
{
    let a = register_int(work, at, left, m, base, n, out, o);
    let x = survey_int(work, at, left, m, base, n);
    let b = register_int(work, x.at, left, m, x.base, x.n, out, a.o);
    both(a, b)
}

// Of so many members.
#[cycle(register)]
fn registers(
    work: &[i32],
    at: usize,
    left: usize,
    m: usize,
    count: usize,
    base: usize,
    g: bool,
    h: bool,
    n: Counters,
    out: &mut [i32],
    o: usize,
) -> Added
    requires placed { Placed work.now at base n × Open out.old o × AllFit (many (decode (read_part work.now) left (split_by m)) count g h at base).trees }
    requires left_bound { left ≤ 64 }
    ensures { Puts (regs (items_at work.now left (split_by m) count g h at base) work.now n) (reg_lines (items_at work.now left (split_by m) count g h at base) work.now n) out.old o out.new result }
{
    let mut q = at;
    let mut f = g;
    let mut c = base;
    let mut e = n;
    let mut k: usize = 0;
    let mut p = o;
    for _ in 0..count {
        let x = register(work, q, left, m, c, f, e, out, p);
        let y = survey(work, q, left, m, c, f, e);
        let a = y.part;
        q = a.at;
        c = a.base;
        e = counters(y);
        k = bump(k, x.lines);
        p = x.o;
        f = h;
    }
    Added { lines: k, o: p }
}

// Of an Xor or Iff that is not split, its sides at a place.
#[cycle(register)]
fn register_cross(
    work: &[i32],
    at: usize,
    left: usize,
    m: usize,
    base: usize,
    h: bool,
    n: Counters,
    out: &mut [i32],
    o: usize,
) -> Added
    requires placed { Placed work.now at base n × Open out.old o × AllFit (many (decode (read_part work.now) left (split_by m)) 2 false h at base).trees × AllFit (many (decode (read_part work.now) left (split_by m)) 2 true (not h) at base).trees }
    requires left_bound { left ≤ 64 }
    ensures { Puts ((crossed work.now left (split_by m) h at base).reg work.now n) ((crossed work.now left (split_by m) h at base).lines work.now n) out.old o out.new result }
{
    let a = registers(work, at, left, m, 2, base, false, h, n, out, o);
    let x = surveys(work, at, left, m, 2, base, false, h, n);
    let b = registers(work, at, left, m, 2, base, true, !h, counters(x), out, a.o);
    both(a, b)
}

// Of the expression at a place, negated if g.
#[cycle(register)]
fn register(
    work: &[i32],
    at: usize,
    left: usize,
    m: usize,
    base: usize,
    g: bool,
    n: Counters,
    out: &mut [i32],
    o: usize,
) -> Added
    requires placed { Placed work.now at base n × Open out.old o × Fit (decode (read_part work.now) left (split_by m) g at base).tree }
    requires left_bound { left ≤ 64 }
    ensures { Puts ((item_at work.now left (split_by m) g at base).reg work.now n) ((item_at work.now left (split_by m) g at base).lines work.now n) out.old o out.new result }
{
    if left == 0 {
        return nothing(o);
    }
    let under = left - 1;
    match scan::node_at(work, g, at) {
        Node::Var(_, _) => nothing(o),
        Node::Cmp(_, q) => register_sides(work, q, under, scan::inner(m), base, n, out, o),
        Node::Not(q) => register(work, q, under, m, base, !g, n, out, o),
        Node::Join(_, k, a, b, q) => registers(work, q, under, m, k, base, a, b, n, out, o),
        Node::Cross(h, q) => {
            if m > 1 {
                return nothing(o);
            }
            register_cross(work, q, under, scan::inner(m), base, h, n, out, o)
        }
    }
}

// Of so many terms.
#[cycle(register)]
fn register_terms(
    work: &[i32],
    at: usize,
    left: usize,
    m: usize,
    count: usize,
    base: usize,
    n: Counters,
    out: &mut [i32],
    o: usize,
) -> Added
    requires placed { Placed work.now at base n × Open out.old o × AllTermsFit (many_terms (read_part work.now) (decode_int (read_part work.now) left (split_by m)) count at base).trees }
    requires left_bound { left ≤ 64 }
    ensures { Puts ((terms_at work.now left (split_by m) count at base).adds work.now n) ((terms_at work.now left (split_by m) count at base).added work.now n) out.old o out.new result }
{
    let mut y = Behind { at, base, n };
    let mut k: usize = 0;
    let mut p = o;
    for _ in 0..count {
        let q = within(y.at + 1);
        let x = register_int(work, q, left, m, y.base, y.n, out, p);
        y = survey_int(work, q, left, m, y.base, y.n);
        k = bump(k, x.lines);
        p = x.o;
    }
    Added { lines: k, o: p }
}

// Of the integer expression at a place.
#[cycle(register)]
pub fn register_int(
    work: &[i32],
    at: usize,
    left: usize,
    m: usize,
    base: usize,
    n: Counters,
    out: &mut [i32],
    o: usize,
) -> Added
    requires placed { Placed work.now at base n × Open out.old o × IntFit (decode_int (read_part work.now) left (split_by m) at base).tree }
    requires left_bound { left ≤ 64 }
    ensures { Puts ((int_at work.now left (split_by m) at base).adds work.now n) ((int_at work.now left (split_by m) at base).added work.now n) out.old o out.new result }
{
    if left == 0 {
        return nothing(o);
    }
    let under = left - 1;
    let x = word(work, at + 1);
    let two = within(at + 2);
    match word(work, at) {
        22 => register_terms(work, two, under, m, x, base, n, out, o),
        23 => register_if(work, at, under, m, base, n, out, o),
        _ => nothing(o),
    }
}

// Of the If at a place: its branches', then its own block, where this visit makes it.
#[cycle(register)]
fn register_if(
    work: &[i32],
    at: usize,
    left: usize,
    m: usize,
    base: usize,
    n: Counters,
    out: &mut [i32],
    o: usize,
) -> Added
    requires placed { Placed work.now at base n × Open out.old o × IntFit (if_at work.now left (split_by m) at base) }
    requires left_bound { left ≤ 63 }
    ensures { Puts ((form_int_item [] (if_at work.now left (split_by m) at base)).adds work.now n) ((form_int_item [] (if_at work.now left (split_by m) at base)).added work.now n) out.old o out.new result }
{
    if scan::is_passed(work, at, n.ints) {
        return nothing(o);
    }
    let x = scan::skip(work, within(at + 1), left, m, base);
    let t = Behind {
        at: x.at,
        base: x.base,
        n,
    };
    let a = register_int(work, t.at, left, m, t.base, n, out, o);
    let y = survey_int(work, t.at, left, m, t.base, n);
    let b = register_int(work, y.at, left, m, y.base, y.n, out, a.o);
    let z = survey_int(work, y.at, left, m, y.base, y.n);
    let e = make_if(work, at, left, m, base, t, z.n, out, b.o);
    both(a, both(b, e))
}

// The block of an If, behind its branches', t the first branch's place and the counters there, n those behind both.
#[cycle(register)]
fn make_if(
    work: &[i32],
    at: usize,
    left: usize,
    m: usize,
    base: usize,
    t: Behind,
    n: Counters,
    out: &mut [i32],
    o: usize,
) -> Added
    requires placed { Placed work.now at base n × Open out.old o × IntFit (if_at work.now left (split_by m) at base) × Branches work.now left (split_by m) at base t }
    requires left_bound { left ≤ 63 }
    ensures { Puts (made work.now left (split_by m) at base t n).words (made work.now left (split_by m) at base t n).lines out.old o out.new result }
{
    let c = within(at + 1);
    if scan::seen(work, at) != 1 {
        let v = totals::if_number(work, at, 0);
        let k = scan::more_ints(work, n);
        return make_open(work, c, left, m, base, k, t, v as usize, out, o);
    }
    if word(work, c) == 11 {
        return nothing(o);
    }
    make_named(work, c, left, m, base, n, out, o)
}

// Constant branches: a new number stands for the condition.
#[cycle(register)]
fn make_named(
    work: &[i32],
    at: usize,
    left: usize,
    m: usize,
    base: usize,
    n: Counters,
    out: &mut [i32],
    o: usize,
) -> Added
    requires placed { Placed work.now at base n × Open out.old o × Fit (decode (read_part work.now) left (split_by m) false at base).tree × Fit (decode (read_part work.now) left (split_by m) true at base).tree }
    requires left_bound { left ≤ 63 }
    ensures { Puts (constant_making work.now (item_at work.now left (split_by m) false at base) (item_at work.now left (split_by m) true at base) none n).words (constant_making work.now (item_at work.now left (split_by m) false at base) (item_at work.now left (split_by m) true at base) none n).lines out.old o out.new result }
{
    let k = scan::more_bools(n);
    let a = register(work, at, left, m, base, true, k, out, o);
    let x = survey(work, at, left, m, base, true, k);
    let b = register(work, at, left, m, base, false, counters(x), out, a.o);
    let c = put_condition(work, n.bools, at, left, m, base, k, out, b.o);
    both(both(a, b), c)
}

// Other branches: the number v of its own; k the counters behind it.
#[cycle(register)]
fn make_open(
    work: &[i32],
    at: usize,
    left: usize,
    m: usize,
    base: usize,
    k: Counters,
    t: Behind,
    v: usize,
    out: &mut [i32],
    o: usize,
) -> Added
    requires placed { Placed work.now at base k × Open out.old o × Fit (decode (read_part work.now) left (split_by m) false at base).tree × Fit (decode (read_part work.now) left (split_by m) true at base).tree }
    requires placed_2 { Placed work.now t.at t.base t.n × BranchFits (left_at work.now left (split_by m) t.at t.base) × BranchFits (right_at work.now left (split_by m) t.at t.base) × (v < 2147483648) × (left ≤ 63) }
    ensures { Puts (block_words (opened work.now left (split_by m) at base t v) work.now k) (block_lines (opened work.now left (split_by m) at base t v) work.now k) out.old o out.new result }
{
    let a = register(work, at, left, m, base, false, k, out, o);
    let x = survey(work, at, left, m, base, false, k);
    let b = register(work, at, left, m, base, true, counters(x), out, a.o);
    let c = put_open(work, at, left, m, base, k, t, v, out, b.o);
    both(both(a, b), c)
}

// ---- blocks: what Ifs add, then the clauses

// What the Ifs of the expression at a place add; nothing at once where there are none.
fn add_ifs(
    work: &[i32],
    at: usize,
    left: usize,
    m: usize,
    base: usize,
    g: bool,
    n: Counters,
    out: &mut [i32],
    o: usize,
) -> Added
    requires placed { Placed work.now at base n × Open out.old o × Fit (decode (read_part work.now) left (split_by m) g at base).tree }
    requires left_bound { left ≤ 64 }
    ensures { Puts ((item_at work.now left (split_by m) g at base).reg work.now n) ((item_at work.now left (split_by m) g at base).lines work.now n) out.old o out.new result }
{
    if has_ifs(work) {
        return register(work, at, left, m, base, g, n, out, o);
    }
    nothing(o)
}

// The same of the expression plain, then negated.
fn add_both(
    work: &[i32],
    at: usize,
    left: usize,
    m: usize,
    base: usize,
    n: Counters,
    out: &mut [i32],
    o: usize,
) -> Added
    requires placed { Placed work.now at base n × Open out.old o × Fit (decode (read_part work.now) left (split_by m) false at base).tree × Fit (decode (read_part work.now) left (split_by m) true at base).tree }
    requires left_bound { left ≤ 64 }
    ensures { Puts ((tied_at work.now left (split_by m) 0 at base).reg work.now n) ((tied_at work.now left (split_by m) 0 at base).lines work.now n) out.old o out.new result }
{
    if has_ifs(work) {
        let a = register(work, at, left, m, base, false, n, out, o);
        let x = survey(work, at, left, m, base, false, n);
        let b = register(work, at, left, m, base, true, counters(x), out, a.o);
        return both(a, b);
    }
    nothing(o)
}

// Of what was written: where its words end, the splitting's next number and the counters behind it, how many clauses, the position behind them.
#[derive(Drop)]
pub struct Tied {
    pub at: usize,
    pub base: usize,
    pub n: Counters,
    pub lines: usize,
    pub o: usize,
}

// The block of the expression at a place.
fn write_block(
    work: &[i32],
    at: usize,
    left: usize,
    m: usize,
    base: usize,
    g: bool,
    n: Counters,
    out: &mut [i32],
    o: usize,
) -> Tied
    requires placed { Placed work.now at base n × Open out.old o × Fit (decode (read_part work.now) left (split_by m) g at base).tree }
    requires left_bound { left ≤ 64 }
    ensures { Listed work.now (item_at work.now left (split_by m) g at base ∷ []) n out.old o out.new result.n result.lines result.o × Skips (read_part work.now) left (split_by m) at base result.at result.base }
{
    let a = add_ifs(work, at, left, m, base, g, n, out, o);
    let s = no_suffix();
    let q = write(work, at, left, m, base, g, n, s, out, a.o);
    let y = q.seen;
    let p = y.part;
    let k = counters(y);
    Tied {
        at: p.at,
        base: p.base,
        n: k,
        lines: bump(a.lines, p.all),
        o: q.o,
    }
}

// The block of the side at a place, tied to the number v: its clauses with the number negated behind them, then those of its negation with it plain.
fn put_tie(
    work: &[i32],
    v: usize,
    at: usize,
    left: usize,
    m: usize,
    base: usize,
    n: Counters,
    out: &mut [i32],
    o: usize,
) -> Tied
    requires placed { Placed work.now at base n × Open out.old o × Fit (decode (read_part work.now) left (split_by m) false at base).tree × Fit (decode (read_part work.now) left (split_by m) true at base).tree }
    requires left_bound { (left ≤ 63) × (v ≤ limit + 1) }
    ensures { Listed work.now (tied_at work.now left (split_by m) v at base ∷ []) n out.old o out.new result.n result.lines result.o × Skips (read_part work.now) left (split_by m) at base result.at result.base }
{
    let a = add_both(work, at, left, m, base, n, out, o);
    let s = one_literal(v + 1, true);
    let b = write(work, at, left, m, base, false, n, s, out, a.o);
    let x = b.seen;
    let p = x.part;
    let z = one_literal(v + 1, false);
    let c = write(work, at, left, m, base, true, counters(x), z, out, b.o);
    let y = c.seen;
    let q = y.part;
    let k = counters(y);
    Tied {
        at: p.at,
        base: p.base,
        n: k,
        lines: bump(a.lines, bump(p.all, q.all)),
        o: c.o,
    }
}

// ---- the extras

// Nothing is written.
fn no_ties(at: usize, base: usize, n: Counters, o: usize) -> Tied
    ensures { result ≡ no_extras at base n o }
{
    Tied {
        at,
        base,
        n,
        lines: 0,
        o,
    }
}

// What was written in two parts, the second behind the first.
fn two_ties(a: Tied, b: Tied) -> Tied
    ensures { result ≡ two_extras a b }
{
    Tied {
        lines: bump(a.lines, b.lines),
        ..b
    }
}

// Of so many terms; a constant or a variable has none.
#[cycle(ties)]
fn term_ties(
    work: &[i32],
    at: usize,
    left: usize,
    m: usize,
    count: usize,
    base: usize,
    n: Counters,
    out: &mut [i32],
    o: usize,
) -> Tied
    requires placed { Placed work.now at base n × Open out.old o × AllFit (terms_ties (read_part work.now) (decode_int (read_part work.now) left (split_by m)) (ties_int_at (read_part work.now) left (split_by m)) count at base) }
    requires left_bound { left ≤ 63 }
    ensures { Blocks work.now (terms_ties (read_part work.now) (decode_int (read_part work.now) left (split_by m)) (ties_int_at (read_part work.now) left (split_by m)) count at base) n out.old o out.new result × TermSkips (read_part work.now) left (split_by m) count at base result.at result.base }
{
    let mut x = no_ties(at, base, n, o);
    for _ in 0..count {
        if scan::is_leaf(work, x.at, left) {
            let e = no_ties(x.at + 3, x.base, x.n, x.o);
            x = two_ties(x, e);
            continue;
        }
        let q = within(x.at + 1);
        let y = int_ties(work, q, left, m, x.base, x.n, out, x.o);
        x = two_ties(x, y);
    }
    x
}

// Of the integer expression at a place.
#[cycle(ties)]
fn int_ties(
    work: &[i32],
    at: usize,
    left: usize,
    m: usize,
    base: usize,
    n: Counters,
    out: &mut [i32],
    o: usize,
) -> Tied
    requires placed { Placed work.now at base n × Open out.old o × AllFit (ties_int_at (read_part work.now) left (split_by m) at base) }
    requires left_bound { left ≤ 64 }
    ensures { Blocks work.now (ties_int_at (read_part work.now) left (split_by m) at base) n out.old o out.new result × IntSkips (read_part work.now) left (split_by m) at base result.at result.base }
{
    if left == 0 {
        return no_ties(at, base, n, o);
    }
    let under = left - 1;
    let k = word(work, at + 1);
    let one = within(at + 1);
    let two = within(at + 2);
    match word(work, at) {
        22 => term_ties(work, two, under, m, k, base, n, out, o),
        23 => {
            let a = write_ties(work, one, under, m, base, n, out, o);
            let b = int_ties(work, a.at, under, m, a.base, a.n, out, a.o);
            let c = int_ties(work, b.at, under, m, b.base, b.n, out, b.o);
            two_ties(a, two_ties(b, c))
        }
        _ => no_ties(two, base, n, o),
    }
}

// Of so many members.
#[cycle(ties)]
fn member_ties(
    work: &[i32],
    at: usize,
    left: usize,
    m: usize,
    count: usize,
    base: usize,
    n: Counters,
    out: &mut [i32],
    o: usize,
) -> Tied
    requires placed { Placed work.now at base n × Open out.old o × AllFit (many_ties (decode (read_part work.now) left (split_by m)) (ties_at (read_part work.now) left (split_by m)) count at base) }
    requires left_bound { left ≤ 63 }
    ensures { Blocks work.now (many_ties (decode (read_part work.now) left (split_by m)) (ties_at (read_part work.now) left (split_by m)) count at base) n out.old o out.new result × SkipsAll (read_part work.now) left (split_by m) count at base result.at result.base }
{
    let mut x = no_ties(at, base, n, o);
    for _ in 0..count {
        let y = write_ties(work, x.at, left, m, x.base, x.n, out, x.o);
        x = two_ties(x, y);
    }
    x
}

// Of a split Xor or Iff, whose sides have the numbers base and base + 1: of each side its extras, then its tie.
#[cycle(ties)]
fn split_ties(
    work: &[i32],
    at: usize,
    left: usize,
    base: usize,
    n: Counters,
    out: &mut [i32],
    o: usize,
) -> Tied
    requires placed { Placed work.now at base n × Open out.old o × AllFit (cross_ties (decode (read_part work.now) left) (ties_at (read_part work.now) left) (split_by 2) at base) }
    requires left_bound { left ≤ 63 }
    ensures { Blocks work.now (cross_ties (decode (read_part work.now) left) (ties_at (read_part work.now) left) (split_by 2) at base) n out.old o out.new result × SkipsAll (read_part work.now) left (split_by 2) 2 at (bump-of base 2) result.at result.base }
{
    let c = bump(base, 2);
    let a = write_ties(work, at, left, 2, c, n, out, o);
    let b = put_tie(work, base, at, left, 2, c, a.n, out, a.o);
    let d = write_ties(work, a.at, left, 2, a.base, b.n, out, b.o);
    let e = put_tie(work, base + 1, a.at, left, 2, a.base, d.n, out, d.o);
    two_ties(a, two_ties(b, two_ties(d, e)))
}

// Of the expression at a place.
#[cycle(ties)]
fn write_ties(
    work: &[i32],
    at: usize,
    left: usize,
    m: usize,
    base: usize,
    n: Counters,
    out: &mut [i32],
    o: usize,
) -> Tied
    requires placed { Placed work.now at base n × Open out.old o × AllFit (ties_at (read_part work.now) left (split_by m) at base) }
    requires left_bound { left ≤ 64 }
    ensures { Blocks work.now (ties_at (read_part work.now) left (split_by m) at base) n out.old o out.new result × Skips (read_part work.now) left (split_by m) at base result.at result.base }
{
    if left == 0 {
        return no_ties(at, base, n, o);
    }
    let under = left - 1;
    match scan::node_at(work, false, at) {
        Node::Var(_, q) => no_ties(q, base, n, o),
        Node::Cmp(_, q) => {
            let i = scan::inner(m);
            let a = int_ties(work, q, under, i, base, n, out, o);
            let b = int_ties(work, a.at, under, i, a.base, a.n, out, a.o);
            two_ties(a, b)
        }
        Node::Not(q) => write_ties(work, q, under, m, base, n, out, o),
        Node::Join(_, k, _, _, q) => member_ties(work, q, under, m, k, base, n, out, o),
        Node::Cross(_, q) => {
            if m > 1 {
                return split_ties(work, q, under, base, n, out, o);
            }
            member_ties(work, q, under, scan::inner(m), 2, base, n, out, o)
        }
    }
}

// ---- a rule

// The extras of a rule, c the splitting's number behind it; where the splitting takes no number there are none, and nothing is walked.
fn rule_ties(
    work: &[i32],
    at: usize,
    base: usize,
    c: usize,
    n: Counters,
    out: &mut [i32],
    o: usize,
) -> Tied
    requires { Placed work.now at base n × Open out.old o × AllFit (ties_at (read_part work.now) 64 below at base) × (c ≡ (decode (read_part work.now) 64 below false at base).next) }
    ensures { Blocks work.now (ties_at (read_part work.now) 64 below at base) n out.old o out.new result }
{
    if c == base && base < memory::LIMIT {
        return no_ties(at, base, n, o);
    }
    write_ties(work, at, 64, 1, base, n, out, o)
}

// The rule at a place, n the counters before it: the numbers of its splitting come first, then the blocks of its extras, then its own.
pub fn write_rule(work: &[i32], at: usize, n: Counters, out: &mut [i32], o: usize) -> Tied
    requires { Placed work.now at n.bools n × Open out.old o × AllFit (rule_at (read_part work.now) 64 at n.bools) }
    ensures { Blocks work.now (rule_at (read_part work.now) 64 at n.bools) (behind_rule work.now at n) out.old o out.new result × Skips (read_part work.now) 64 below at n.bools result.at result.base }
{
    let b = n.bools;
    let s = scan::skip(work, at, 64, 1, b);
    let k = Counters { bools: s.base, ..n };
    let x = rule_ties(work, at, b, s.base, k, out, o);
    let y = write_block(work, at, 64, 1, b, false, x.n, out, x.o);
    two_ties(x, y)
}

// ---- a pair of an AllDifferent

// The extras of the sides at p and q, whose splitting takes the numbers from `base` to `next`; nothing at once where it takes none.
fn pair_ties(
    work: &[i32],
    p: usize,
    q: usize,
    base: usize,
    next: usize,
    n: Counters,
    out: &mut [i32],
    o: usize,
) -> Tied
    requires placed { Placed work.now p base n × (q ≤ folded_end) × Open out.old o × AllFit (pair_extras (read_part work.now) p q base) }
    requires next_value { next ≡ pair_next (read_part work.now) p q base }
    ensures { Blocks work.now (pair_extras (read_part work.now) p q base) n out.old o out.new result }
{
    if next == base && next < memory::LIMIT {
        return no_ties(q, base, n, o);
    }
    let a = int_ties(work, p, 64, 2, base, n, out, o);
    let b = int_ties(work, q, 64, 2, a.base, a.n, out, a.o);
    two_ties(a, b)
}

// What the Ifs of the sides at p and q add.
fn register_pair(
    work: &[i32],
    p: usize,
    q: usize,
    base: usize,
    n: Counters,
    out: &mut [i32],
    o: usize,
) -> Added
    requires { Placed work.now p base n × (q ≤ folded_end) × Open out.old o × Fit (unequal (read_part work.now) p q base) }
    ensures { Puts ((unequal_at work.now p q base).reg work.now n) ((unequal_at work.now p q base).lines work.now n) out.old o out.new result }
{
    let a = register_int(work, p, 64, 2, base, n, out, o);
    let x = survey_int(work, p, 64, 2, base, n);
    let b = register_int(work, q, 64, 2, x.base, x.n, out, a.o);
    both(a, b)
}

// The clause that the sides at p and q differ.
fn put_unequal(
    work: &[i32],
    p: usize,
    q: usize,
    base: usize,
    n: Counters,
    out: &mut [i32],
    o: usize,
) -> Sided
    requires { Placed work.now p base n × (q ≤ folded_end) × Open out.old o × Fit (unequal (read_part work.now) p q base) }
    ensures { Wrote out.old o ((unequal_at work.now p q base).text work.now n []) out.new result.o × (result.behind.n ≡ (unequal_at work.now p q base).count work.now n) × Low result.behind.n }
{
    let a = put(out, o, 0);
    let b = put(out, a, 1);
    let x = totals::linear_of(work, p, 64, 2, base, n);
    let y = totals::less_side(x, work, q, 64, 2);
    let s = y.sum;
    let c = put_linear(1, false, s, out, b);
    let e = y.behind;
    Sided { behind: e, o: c }
}

// The block of the comparison of the sides at p and q.
fn write_unequal(
    work: &[i32],
    p: usize,
    q: usize,
    base: usize,
    n: Counters,
    out: &mut [i32],
    o: usize,
) -> Tied
    requires { Placed work.now p base n × (q ≤ folded_end) × Open out.old o × Fit (unequal (read_part work.now) p q base) }
    ensures { Blocks work.now (cons (unequal (read_part work.now) p q base) nil) n out.old o out.new result }
{
    let a = register_pair(work, p, q, base, n, out, o);
    let x = put_unequal(work, p, q, base, n, out, a.o);
    let e = x.behind;
    let k = e.n;
    Tied {
        at: e.at,
        base: e.base,
        n: k,
        lines: bump(a.lines, 1),
        o: x.o,
    }
}

// The clauses that the expressions at p and q differ, n the counters before them: the numbers of the splitting come first, then the extras, then the comparison.
pub fn write_pair(work: &[i32], p: usize, q: usize, n: Counters, out: &mut [i32], o: usize) -> Tied
    requires { Placed work.now p n.bools n × (q ≤ folded_end) × Open out.old o × AllFit (pair_at (read_part work.now) 64 p q n.bools) }
    ensures { Blocks work.now (pair_at (read_part work.now) 64 p q n.bools) (more_bools (pair_numbers (read_part work.now) p q n.bools) n) out.old o out.new result }
{
    let b = n.bools;
    let x = scan::skip_int(work, p, 64, 2, b);
    let y = scan::skip_int(work, q, 64, 2, x.base);
    let k = Counters { bools: y.base, ..n };
    let t = pair_ties(work, p, q, b, y.base, k, out, o);
    let z = write_unequal(work, p, q, b, t.n, out, t.o);
    two_ties(t, z)
}
