// The first walk with Ifs: numbers at first meeting and creation, and the records of the emitted integers, over the folded words.
#![tactic(auto)]

ghost use Rattle.std.specs.Prelude.{◌≡◌, true, false, IfSome, ◌||◌, List, [], ◌∷◌, ◌+◌, ◌-◌, ◌*◌, ◌≤◌, ◌<◌, ℤ, pos, nat_abs, ◌+ℤ◌, length, ltb};
ghost use Rattle.std.proofs.lemmas.List.Edits.{sets};
ghost use Rattle.laws.specs.Same.{same_words as same-words-of};
ghost use Rattle.memory.specs.Places.{folded_end, limit};
ghost use Rattle.syntax.specs.Syntax.{Domain, Range};
ghost use Rattle.syntax.specs.Words.{max_weight, max_bools, max_ints};
ghost use Rattle.walk.specs.Item.{bump as bump-of};
ghost use Rattle.walks.specs.Item.{cell as cell_of, seen_in, known_in};
ghost use Rattle.walks.specs.Tree.{never, below as below_in, here};
ghost use Rattle.walks.specs.Decode.{decode, decode_int};
ghost use Rattle.walks.specs.Meet.{words_at, find_equal as find-equal-of, set_cells, copied, number_word as number-word-of, range_record, two_record};
ghost use Rattle.walk.specs.Decode.{read_part};
ghost use Rattle.declared.specs.DomainTable.{word_at};
ghost use Rattle.scan.specs.Skip.{split_by, Skips, SkipsAll, IntSkips, TermSkips};
ghost use Rattle.numbering.specs.Equal.{equal_at, option_of};
ghost use Rattle.numbering.specs.Ties.{ties_of, int_ties_of, each_ties_of, terms_ties_of, sides_of, tie_of};
ghost use Rattle.numbering.specs.Rules.{rule_task, pair_task};
ghost use Rattle.numbering.specs.Pairs.{Unsplit};
ghost use Rattle.numbering.specs.Columns.{SpanReady, Makes, column_task};
ghost use Rattle.numbering.specs.Task.{state_of, Ready, Done, Starts};
ghost use Rattle.numbering.specs.Steps.{form_at, members_at, int_at};
ghost use Rattle.numbering.specs.IntSteps.{leaf_at, terms_at, if_at};
ghost use Rattle.numbering.specs.Sized.{SizedAt, SizedAll};
ghost use Rattle.numbering.specs.If.{PartsAt, choice_at, new_at};
ghost use Rattle.numbering.specs.Make.{counters_in, Begins, branches_at, constant_at, open_at, SumsReady, ConstantsAre, RangeIs};
ghost use Rattle.numbering.specs.Conditions.{leaves_in, follow_task, Follows, Concludes, Opens, Settles};
ghost use Rattle.numbering.specs.Members.{numbered, standing, renewed, Closes, IfSkips};
ghost use Rattle.numbering.specs.Leaf.{bool_task, int_var_task};

use memory::{entry, plain, store, store_number};
use scan::{cell, has_ifs, inner, leaves, node_at, skip, skip_int, skips};
use survey::{below, bump, fresh, literal, within, word};
use totals::{linear_of, range_of};
use walk::{Counters, Node};

// The next Boolean's and the next integer's number, and words of the answer that are sure to come.
#[derive(Clone, Copy)]
pub struct Progress {
    pub bools: usize,
    pub ints: usize,
    pub used: usize,
}

// Where the records begin in the output, and the longest answer.
#[derive(Clone, Copy)]
pub struct Room {
    pub records: usize,
    pub cap: usize,
}

// ---- counters

// So many Booleans more.
fn advance(c: Progress, k: usize) -> Progress
    ensures { result ≡ record { bools = bump-of c.bools k; ints = c.ints; used = c.used } }
{
    Progress {
        bools: bump(c.bools, k),
        ..c
    }
}

// An integer more.
fn count_int(c: Progress) -> Progress
    ensures { result ≡ record { bools = c.bools; ints = bump-of c.ints 1; used = c.used } }
{
    Progress {
        ints: bump(c.ints, 1),
        ..c
    }
}

// So many words more.
fn spend(c: Progress, k: usize) -> Progress
    ensures { result ≡ record { bools = c.bools; ints = c.ints; used = bump-of c.used k } }
{
    Progress {
        used: bump(c.used, k),
        ..c
    }
}

fn is_full(room: Room, c: Progress) -> bool
    ensures { result ≡ ltb room.cap c.used }
{
    room.cap < c.used
}

// ---- records

// The record of the emitted integer k: its kind and three words.
fn put_record(out: &mut [i32], records: usize, k: usize, kind: i32, x: i32, y: i32, z: i32)
    requires { (records ≤ limit) × (k ≤ limit) }
    ensures { (out.new ≡ sets out.old (records + 4 * k) (kind ∷ x ∷ y ∷ z ∷ [])) × (length out.new ≡ length out.old) }
{
    let p = records + 4 * k;
    store(out, p, kind);
    store(out, p + 1, x);
    store(out, p + 2, y);
    store(out, p + 3, z);
}

// ---- declared variables

// A declared Boolean gets its number at its first meeting.
fn declare(work: &mut [i32], v: usize, c: Progress) -> Progress
    requires { (v < max_bools) × ((c.bools ≤ limit) × ((c.ints ≤ limit) × (c.used ≤ limit))) }
    ensures { ((out : List ℤ) → Done (bool_task v) (state_of work.old out c) (state_of work.new out result)) × (length work.new ≡ length work.old) }
{
    if literal(work, v) == 0 {
        store_number(work, memory::BOOL_MAP + v, c.bools + 1);
        return advance(c, 1);
    }
    c
}

// The word of the table that holds the declared domains.
fn told(work: &[i32], v: usize, k: usize) -> i32
    requires { (v < max_ints) × (k < 3) }
    ensures { result ≡ word_at work.now v k }
{
    plain(work, memory::DECLARED_DOMAINS + 3 * v + k)
}

// The record of the declared integer v, whose number is k.
fn put_declared(work: &[i32], out: &mut [i32], v: usize, records: usize, k: usize)
    requires { (v < max_ints) × ((records ≤ limit) × ((k ≤ limit) × (nat_abs (word_at work.now v 2) < 2147483647))) }
    ensures { (out.new ≡ sets out.old (records + 4 * k) (pos 0 ∷ word_at work.now v 0 ∷ word_at work.now v 1 ∷ (word_at work.now v 2 +ℤ pos 1) ∷ [])) × (length out.new ≡ length out.old) }
{
    let x = told(work, v, 0);
    let y = told(work, v, 1);
    let z = told(work, v, 2);
    put_record(out, records, k, 0, x, y, z + 1);
}

// A declared integer gets its number and its record.
fn declare_int(work: &mut [i32], out: &mut [i32], v: usize, room: Room, c: Progress) -> Progress
    requires { (v < max_ints) × ((room.records ≤ limit) × ((c.bools ≤ limit) × ((c.ints ≤ limit) × ((c.used ≤ limit) × Ready (int_var_task room.records room.cap v) (state_of work.old out.old c))))) }
    ensures { Done (int_var_task room.records room.cap v) (state_of work.old out.old c) (state_of work.new out.new result) }
{
    if entry(work, memory::INT_MAP + v) == 0 {
        store_number(work, memory::INT_MAP + v, c.ints + 1);
        put_declared(work, out, v, room.records, c.ints);
        return count_int(c);
    }
    c
}

// ---- the words of Ifs

// Whether an If of this word has its number, and below k.
fn is_known(z: i32, k: usize) -> bool
    ensures { result ≡ known_in (seen_in z) k }
{
    if z > 0 {
        let n = z as usize;
        return n - 1 < k;
    }
    if z < -1 {
        let n = (-2 - z) as usize;
        return n < k;
    }
    false
}

// Whether so many words at q are those at p.
fn same_words(work: &[i32], p: usize, q: usize, n: usize) -> bool
    requires { (folded_end ≤ length work.now) × ((p + n ≤ folded_end) × (q + n ≤ folded_end)) }
    ensures { result ≡ same-words-of (words_at work.now q n) (words_at work.now p n) }
{
    for i in 0..n {
        if work[q + i] != work[p + i] {
            return false;
        }
    }
    true
}

// Whether an If of the same words has its number at q.
fn is_equal(work: &[i32], p: usize, q: usize, n: usize) -> bool
    requires { (folded_end ≤ length work.now) × ((p + n ≤ folded_end) × (q ≤ folded_end)) }
    ensures { result ≡ equal_at work.now p q n }
{
    cell(work, q + 1) > 0 && q + n <= memory::FOLDED_END && same_words(work, p, q, n)
}

// The first place where an equal If has its number.
fn find_equal(work: &[i32], at: usize, size: usize, whole: bool) -> Option<usize>
    requires { (folded_end ≤ length work.now) × (at + size ≤ folded_end) }
    ensures { (option_of result ≡ find-equal-of work.now (record { at = at; size = size; whole = whole })) × IfSome result (λ q. q ≤ folded_end) }
{
    if !whole || cell(work, at + 1) != 0 {
        return None;
    }
    for q in memory::FOLDED..memory::FOLDED_END {
        if is_equal(work, at, q, size) {
            return Some(q);
        }
    }
    None
}

// An If's three cells.
fn store_cells(work: &mut [i32], p: usize, x: i32, y: i32, z: i32)
    requires { p ≤ folded_end }
    ensures { (work.new ≡ set_cells p x y z work.old) × (length work.new ≡ length work.old) }
{
    store(work, memory::CELLS + (p + 1), x);
    store(work, memory::CELLS + (p + 2), y);
    store(work, memory::CELLS + (p + 3), z);
}

// Those of the If at q for the one at p.
fn copy_cells(work: &mut [i32], p: usize, q: usize)
    requires { (p ≤ folded_end) × (q ≤ folded_end) }
    ensures { (work.new ≡ copied p q work.old) × (length work.new ≡ length work.old) }
{
    let x = cell(work, q + 1);
    let y = cell(work, q + 2);
    let z = cell(work, q + 3);
    store_cells(work, p, x, y, z);
}

// The word of the number v; negative where equal Ifs do not share it.
fn number_word(whole: bool, v: usize) -> i32
    requires { v ≤ limit }
    ensures { result ≡ number-word-of whole v }
{
    if whole {
        return (v + 1) as i32;
    }
    let w = (v + 2) as i32;
    -w
}

// ---- records

// The record of the integer k between two words.
fn put_range(out: &mut [i32], records: usize, k: usize, lo: i32, hi: i32)
    requires { (records ≤ limit) × ((k ≤ limit) × ((nat_abs lo ≤ max_weight) × (nat_abs hi ≤ max_weight))) }
    ensures { (out.new ≡ sets out.old (records + 4 * k) (range_record (Range lo hi))) × (length out.new ≡ length out.old) }
{
    put_record(out, records, k, 0, lo, hi, hi - lo + 1);
}

// The record of the integer k that is x where the literal l is true, and y where not.
fn put_two(out: &mut [i32], records: usize, k: usize, l: i32, x: i32, y: i32)
    requires { (records ≤ limit) × ((k ≤ limit) × (nat_abs l ≤ limit + 1)) }
    ensures { (out.new ≡ sets out.old (records + 4 * k) (two_record l x y)) × (length out.new ≡ length out.old) }
{
    if x < y {
        put_record(out, records, k, 1, -l, x, y);
        return;
    }
    if x == y {
        put_record(out, records, k, 0, x, x, 1);
        return;
    }
    put_record(out, records, k, 1, l, y, x);
}

// ---- the walk

// What the walk over an expression or members leaves: the counters, where it ends, the splitting's next number, and the tally as a member of a
// disjunction.
#[derive(Clone, Copy)]
pub struct Numbered {
    pub progress: Progress,
    pub at: usize,
    pub base: usize,
    pub longs: usize,
    pub lits: usize,
    pub cmps: usize,
}

// A single member of so many literals and comparisons.
fn single(c: Progress, at: usize, base: usize, lits: usize, cmps: usize) -> Numbered
    ensures { result ≡ numbered c at base 0 lits cmps }
{
    Numbered {
        progress: c,
        at,
        base,
        longs: 0,
        lits,
        cmps,
    }
}

// A longer member.
fn longer(c: Progress, at: usize, base: usize) -> Numbered
    ensures { result ≡ numbered c at base 1 0 0 }
{
    Numbered {
        progress: c,
        at,
        base,
        longs: 1,
        lits: 0,
        cmps: 0,
    }
}

// The members so far and the next one.
fn add(r: Numbered, s: Numbered) -> Numbered
    requires { (r.longs + r.lits + r.cmps ≤ folded_end) × (s.longs + s.lits + s.cmps ≤ folded_end) }
    ensures { result ≡ numbered s.progress s.at s.base (r.longs + s.longs) (r.lits + s.lits) (r.cmps + s.cmps) }
{
    Numbered {
        longs: r.longs + s.longs,
        lits: r.lits + s.lits,
        cmps: r.cmps + s.cmps,
        ..s
    }
}

// The counters behind a disjunction of members with this tally.
fn renew(c: Progress, s: Numbered) -> Progress
    ensures { result ≡ renewed c s }
{
    advance(c, fresh(s.longs, s.lits, s.cmps))
}

// A disjunction of members: a pool, or longer.
fn close(s: Numbered) -> Numbered
    ensures { Closes s result }
{
    let c = renew(s.progress, s);
    if s.longs == 0 {
        return single(c, s.at, s.base, s.lits, s.cmps);
    }
    longer(c, s.at, s.base)
}

// Two lists of members, the second behind the first.
fn cross(a: Numbered, b: Numbered) -> Numbered
    ensures { result ≡ numbered (renewed (renewed b.progress a) b) b.at b.base 1 0 0 }
{
    let c = renew(b.progress, a);
    longer(renew(c, b), b.at, b.base)
}

// What the walk over an integer expression or terms leaves.
#[derive(Clone, Copy)]
pub struct NumberedInt {
    pub progress: Progress,
    pub at: usize,
    pub base: usize,
}

fn ended(c: Progress, at: usize, base: usize) -> NumberedInt
    ensures { result ≡ standing c at base }
{
    NumberedInt {
        progress: c,
        at,
        base,
    }
}

// The variable or constant at a place, whose code is known.
fn number_leaf(
    work: &mut [i32],
    out: &mut [i32],
    at: usize,
    code: usize,
    room: Room,
    c: Progress,
) -> Progress
    requires { Starts (leaf_at room.records room.cap (read_part work.old) at code) (state_of work.old out.old c) room.records at 0 }
    ensures { Done (leaf_at room.records room.cap (read_part work.old) at code) (state_of work.old out.old c) (state_of work.new out.new result) }
{
    if code == 21 {
        let x = word(work, at + 1);
        return declare_int(work, out, below(x, memory::MAX_INTS), room, c);
    }
    c
}

// Whether a term's expression with this code is a variable or a constant, with so many levels left.
fn is_leaf(left: usize, code: usize) -> bool
    ensures { result ≡ true → (left ≡ 0 → ⊥) × ((code ≡ 22 → ⊥) × (code ≡ 23 → ⊥)) }
{
    left != 0 && code != 22 && code != 23
}

// Where an If's condition, its branches and its end stand; one, two, base: the splitting's next number at the branches and at the end.
#[derive(Clone, Copy)]
pub struct IfParts {
    pub cond: usize,
    pub first: usize,
    pub one: usize,
    pub second: usize,
    pub two: usize,
    pub at: usize,
    pub base: usize,
}

fn parts_of(work: &[i32], one: usize, left: usize, m: usize, base: usize) -> IfParts
    requires { (folded_end ≤ length work.now) × ((one ≤ folded_end) × (base ≤ limit)) }
    ensures { PartsAt (read_part work.now) left (split_by m) one base result }
{
    let c = skip(work, one, left, m, base);
    let t = skip_int(work, c.at, left, m, c.base);
    let f = skip_int(work, t.at, left, m, t.base);
    IfParts {
        cond: one,
        first: c.at,
        one: c.base,
        second: t.at,
        two: t.base,
        at: f.at,
        base: f.base,
    }
}

// An If is passed over: the answer is too long already, or its number is known.
fn is_passed(work: &[i32], at: usize, room: Room, c: Progress) -> bool
    requires { at ≤ folded_end }
    ensures { result ≡ ltb room.cap c.used || known_in (seen_in (cell_of work.now (at + 1))) c.ints }
{
    is_full(room, c) || is_known(cell(work, at + 1), c.ints)
}

// ---- Ifs: the parts outside the cycle of calls

// Lowest and highest of either branch.
#[derive(Clone, Copy)]
pub struct Span {
    pub low: i32,
    pub high: i32,
}

// The counters as the second walk's.
fn counters_of(work: &[i32], c: Progress) -> Counters
    ensures { result ≡ counters_in work.now c }
{
    Counters {
        bools: c.bools,
        ints: if has_ifs(work) { c.ints } else { 0 },
    }
}

// The constants of the branches where both are constant; s and y: where the branches began.
fn branch_sums(
    work: &[i32],
    left: usize,
    m: usize,
    p: IfParts,
    s: Progress,
    y: Progress,
) -> Option<(i32, i32)>
    requires { (folded_end ≤ length work.now) × (Begins p s y × SumsReady work.now (decode_int (read_part work.now) left (split_by m) p.first p.one).tree (decode_int (read_part work.now) left (split_by m) p.second p.two).tree (counters_in work.now s) (counters_in work.now y)) }
    ensures { (ds : List Domain) → ConstantsAre ds work.now (decode_int (read_part work.now) left (split_by m) p.first p.one).tree (decode_int (read_part work.now) left (split_by m) p.second p.two).tree (counters_in work.now s) (counters_in work.now y) result }
{
    let a = linear_of(work, p.first, left, m, p.one, counters_of(work, s));
    let b = linear_of(work, p.second, left, m, p.two, counters_of(work, y));
    let l = a.sum;
    let o = b.sum;
    if l.count == 0 && o.count == 0 {
        return Some((l.constant, o.constant));
    }
    None
}

// The domain of either branch.
fn branch_range(work: &[i32], left: usize, m: usize, p: IfParts, s: Progress, y: Progress) -> Span
    requires { (folded_end ≤ length work.now) × (Begins p s y × SumsReady work.now (decode_int (read_part work.now) left (split_by m) p.first p.one).tree (decode_int (read_part work.now) left (split_by m) p.second p.two).tree (counters_in work.now s) (counters_in work.now y)) }
    ensures { RangeIs work.now (decode_int (read_part work.now) left (split_by m) p.first p.one).tree (decode_int (read_part work.now) left (split_by m) p.second p.two).tree (counters_in work.now s) (counters_in work.now y) result.low result.high }
{
    let a = range_of(work, p.first, left, m, p.one, counters_of(work, s));
    let b = range_of(work, p.second, left, m, p.two, counters_of(work, y));
    Span {
        low: a.low.min(b.low),
        high: a.high.max(b.high),
    }
}

// The leaves of the condition in both polarities.
fn leaves_of(work: &[i32], p: IfParts, left: usize, m: usize, base: usize) -> usize
    requires { (folded_end ≤ length work.now) × ((p.cond ≤ folded_end) × (base ≤ limit)) }
    ensures { result ≡ leaves_in (read_part work.now) left (split_by m) base p }
{
    let l = leaves(work, p.cond, left, m, base);
    bump(l.plain, l.negated)
}

// A condition that is a declared variable: it is met, and the integer follows its literal.
fn follow(
    work: &mut [i32],
    out: &mut [i32],
    v: usize,
    room: Room,
    c: Progress,
    x: i32,
    y: i32,
) -> Progress
    requires { (v < max_bools) × ((room.records ≤ limit) × ((c.bools ≤ limit) × ((c.ints ≤ limit) × ((c.used ≤ limit) × Ready (follow_task v) (state_of work.old out.old c))))) }
    ensures { Follows work.old out.old c v room.records x y work.new out.new result }
{
    let d = declare(work, v, c);
    let l = literal(work, v);
    put_two(out, room.records, d.ints, l, x, y);
    count_int(d)
}

// Another condition, walked negated (d) and plain (e): the new numbers of both sides, and the integer that follows the number n.
fn conclude(
    out: &mut [i32],
    room: Room,
    n: usize,
    d: Numbered,
    e: Numbered,
    x: i32,
    y: i32,
) -> Progress
    requires { (room.records ≤ limit) × ((n ≤ limit) × ((e.progress.ints ≤ limit) × ((d.lits ≤ folded_end) × (e.lits ≤ folded_end)))) }
    ensures { Concludes out.old room.records n d e x y out.new result }
{
    let a = advance(e.progress, fresh(d.longs, d.lits + 1, d.cmps));
    let b = advance(a, fresh(e.longs, e.lits + 1, e.cmps));
    put_two(out, room.records, b.ints, (n + 1) as i32, x, y);
    count_int(b)
}

// The If's own integer, and the words of its condition's k leaves.
fn start_open(out: &mut [i32], room: Room, c: Progress, k: usize, lo: i32, hi: i32) -> Progress
    requires { (room.records ≤ limit) × ((c.ints ≤ limit) × ((nat_abs lo ≤ max_weight) × (nat_abs hi ≤ max_weight))) }
    ensures { Opens out.old room.records c k lo hi out.new result }
{
    put_range(out, room.records, c.ints, lo, hi);
    spend(count_int(c), k)
}

// From now on the If's number v is known, and its bounds.
fn settle(
    work: &mut [i32],
    at: usize,
    whole: bool,
    v: usize,
    lo: i32,
    hi: i32,
    c: Progress,
) -> Progress
    requires { (at ≤ folded_end) × (v ≤ limit) }
    ensures { Settles work.old at whole v lo hi c work.new result }
{
    let z = number_word(whole, v);
    store_cells(work, at, z, lo, hi);
    advance(c, 1)
}

// ---- the cycle of calls

// An If whose branches are not both constant: its integer between lo and hi, then its condition.
#[cycle(number)]
fn number_open(
    work: &mut [i32],
    out: &mut [i32],
    at: usize,
    left: usize,
    m: usize,
    base: usize,
    p: IfParts,
    room: Room,
    c: Progress,
    lo: i32,
    hi: i32,
) -> Progress
    requires { Starts (open_at room.records room.cap left (split_by m) at base p lo hi (read_part work.old)) (state_of work.old out.old c) room.records at base × (PartsAt (read_part work.old) left (split_by m) p.cond base p × ((nat_abs lo ≤ max_weight) × (nat_abs hi ≤ max_weight))) }
    ensures { Done (open_at room.records room.cap left (split_by m) at base p lo hi (read_part work.old)) (state_of work.old out.old c) (state_of work.new out.new result) }
{
    let k = leaves_of(work, p, left, m, base);
    let s = start_open(out, room, c, k, lo, hi);
    if is_full(room, s) {
        return s;
    }
    let d = number(work, out, p.cond, left, m, base, false, room, s);
    let e = number(work, out, p.cond, left, m, base, true, room, d.progress);
    settle(work, at, p.base <= base, c.ints, lo, hi, e.progress)
}

// An If with constant branches x and y: the condition's literal or number, then its integer.
#[cycle(number)]
fn number_constant(
    work: &mut [i32],
    out: &mut [i32],
    at: usize,
    left: usize,
    m: usize,
    base: usize,
    p: IfParts,
    room: Room,
    c: Progress,
    x: i32,
    y: i32,
) -> Progress
    requires { Starts (constant_at room.records room.cap left (split_by m) at base p x y (read_part work.old)) (state_of work.old out.old c) room.records p.cond base }
    ensures { Done (constant_at room.records room.cap left (split_by m) at base p x y (read_part work.old)) (state_of work.old out.old c) (state_of work.new out.new result) }
{
    let q = p.cond;
    if word(work, q) == 11 {
        let z = word(work, q + 1);
        return follow(work, out, below(z, memory::MAX_BOOLS), room, c, x, y);
    }
    let k = leaves_of(work, p, left, m, base);
    let s = spend(c, k);
    if is_full(room, s) {
        return s;
    }
    let d = number(work, out, q, left, m, base, true, room, advance(s, 1));
    let e = number(work, out, q, left, m, base, false, room, d.progress);
    conclude(out, room, c.bools, d, e, x, y)
}

// An If behind its branches, which began at s and y.
#[cycle(number)]
fn number_branches(
    work: &mut [i32],
    out: &mut [i32],
    at: usize,
    left: usize,
    m: usize,
    base: usize,
    p: IfParts,
    room: Room,
    s: Progress,
    y: Progress,
    c: Progress,
) -> Progress
    requires { Starts (branches_at room.records room.cap left (split_by m) at base p (counters_in work.old s) (counters_in work.old y) (read_part work.old)) (state_of work.old out.old c) room.records at base × (PartsAt (read_part work.old) left (split_by m) p.cond base p × Begins p s y) }
    ensures { Done (branches_at room.records room.cap left (split_by m) at base p (counters_in work.old s) (counters_in work.old y) (read_part work.old)) (state_of work.old out.old c) (state_of work.new out.new result) }
{
    if let Some((x, z)) = branch_sums(work, left, m, p, s, y) {
        store(work, memory::CELLS + (at + 1), -1);
        return number_constant(work, out, at, left, m, base, p, room, c, x, z);
    }
    let d = branch_range(work, left, m, p, s, y);
    number_open(work, out, at, left, m, base, p, room, c, d.low, d.high)
}

// An If of which nothing is known: its branches first.
#[cycle(number)]
fn number_new(
    work: &mut [i32],
    out: &mut [i32],
    at: usize,
    left: usize,
    m: usize,
    base: usize,
    p: IfParts,
    room: Room,
    c: Progress,
) -> Progress
    requires { Starts (new_at room.records room.cap left (split_by m) at base p (read_part work.old)) (state_of work.old out.old c) room.records at base × PartsAt (read_part work.old) left (split_by m) p.cond base p }
    ensures { Done (new_at room.records room.cap left (split_by m) at base p (read_part work.old)) (state_of work.old out.old c) (state_of work.new out.new result) }
{
    let s = spend(c, 4);
    if is_full(room, s) {
        return s;
    }
    let a = number_int(work, out, p.first, left, m, p.one, room, s);
    let y = a.progress;
    let b = number_int(work, out, p.second, left, m, p.two, room, y);
    let d = b.progress;
    if is_full(room, d) {
        return d;
    }
    number_branches(work, out, at, left, m, base, p, room, s, y, d)
}

// An If with its parts: passed over, found, or made.
#[cycle(number)]
fn number_choice(
    work: &mut [i32],
    out: &mut [i32],
    at: usize,
    left: usize,
    m: usize,
    base: usize,
    p: IfParts,
    room: Room,
    c: Progress,
) -> Progress
    requires { Starts (choice_at room.records room.cap left (split_by m) at base p (read_part work.old)) (state_of work.old out.old c) room.records at base × (PartsAt (read_part work.old) left (split_by m) p.cond base p × (at ≤ p.at)) }
    ensures { Done (choice_at room.records room.cap left (split_by m) at base p (read_part work.old)) (state_of work.old out.old c) (state_of work.new out.new result) }
{
    if is_passed(work, at, room, c) {
        return c;
    }
    if let Some(q) = find_equal(work, at, p.at - at, p.base <= base) {
        copy_cells(work, at, q);
        return c;
    }
    number_new(work, out, at, left, m, base, p, room, c)
}

// The If at a place, whose condition stands at `one`.
#[cycle(number)]
fn number_if(
    work: &mut [i32],
    out: &mut [i32],
    at: usize,
    one: usize,
    left: usize,
    m: usize,
    base: usize,
    room: Room,
    c: Progress,
) -> NumberedInt
    requires { Starts (if_at room.records room.cap (read_part work.old) left (split_by m) at one base) (state_of work.old out.old c) room.records at base × ((at ≤ one) × (one ≤ folded_end)) }
    ensures { Done (if_at room.records room.cap (read_part work.old) left (split_by m) at one base) (state_of work.old out.old c) (state_of work.new out.new result.progress) × IfSkips (read_part work.old) left (split_by m) at one base result.at result.base }
{
    let p = parts_of(work, one, left, m, base);
    let d = number_choice(work, out, at, left, m, base, p, room, c);
    ended(d, p.at, p.base)
}

// So many terms.
#[cycle(number)]
fn number_terms(
    work: &mut [i32],
    out: &mut [i32],
    at: usize,
    left: usize,
    m: usize,
    count: usize,
    base: usize,
    room: Room,
    c: Progress,
) -> NumberedInt
    requires { Starts (terms_at room.records room.cap (read_part work.old) left (split_by m) count at base) (state_of work.old out.old c) room.records at base }
    ensures { Done (terms_at room.records room.cap (read_part work.old) left (split_by m) count at base) (state_of work.old out.old c) (state_of work.new out.new result.progress) × TermSkips (read_part work.old) left (split_by m) count at base result.at result.base }
{
    let mut r = ended(c, at, base);
    for _ in 0..count {
        let p = within(r.at + 1);
        let k = word(work, p);
        if is_leaf(left, k) {
            let d = number_leaf(work, out, p, k, room, r.progress);
            r = ended(d, within(p + 2), r.base);
            continue;
        }
        r = number_int(work, out, p, left, m, r.base, room, r.progress);
    }
    r
}

// The integer expression at a place.
#[cycle(number)]
pub fn number_int(
    work: &mut [i32],
    out: &mut [i32],
    at: usize,
    left: usize,
    m: usize,
    base: usize,
    room: Room,
    c: Progress,
) -> NumberedInt
    requires { Starts (int_at room.records room.cap (read_part work.old) left (split_by m) at base) (state_of work.old out.old c) room.records at base }
    ensures { Done (int_at room.records room.cap (read_part work.old) left (split_by m) at base) (state_of work.old out.old c) (state_of work.new out.new result.progress) × IntSkips (read_part work.old) left (split_by m) at base result.at result.base }
{
    if left == 0 {
        return ended(c, at, base);
    }
    let under = left - 1;
    let code = word(work, at);
    let two = within(at + 2);
    if code == 22 {
        let x = word(work, at + 1);
        return number_terms(work, out, two, under, m, x, base, room, c);
    }
    if code == 23 {
        return number_if(work, out, at, within(at + 1), under, m, base, room, c);
    }
    let d = number_leaf(work, out, at, code, room, c);
    ended(d, two, base)
}

// So many members, the first negated if g, the others if h.
#[cycle(number)]
fn numbers(
    work: &mut [i32],
    out: &mut [i32],
    at: usize,
    left: usize,
    m: usize,
    count: usize,
    base: usize,
    g: bool,
    h: bool,
    room: Room,
    c: Progress,
) -> Numbered
    requires { Starts (members_at room.records room.cap (read_part work.old) left (split_by m) count g h at base) (state_of work.old out.old c) room.records at base }
    ensures { Done (members_at room.records room.cap (read_part work.old) left (split_by m) count g h at base) (state_of work.old out.old c) (state_of work.new out.new result.progress) × SizedAll (read_part work.old) left (split_by m) count g h at base result.at result.base result.longs result.lits result.cmps }
{
    let mut r = single(c, at, base, 0, 0);
    let mut f = g;
    for _ in 0..count {
        let s = number(work, out, r.at, left, m, r.base, f, room, r.progress);
        r = add(r, s);
        f = h;
    }
    r
}

// The expression at a place, negated if g; m: the splitting's code.
#[cycle(number)]
fn number(
    work: &mut [i32],
    out: &mut [i32],
    at: usize,
    left: usize,
    m: usize,
    base: usize,
    g: bool,
    room: Room,
    c: Progress,
) -> Numbered
    requires { Starts (form_at room.records room.cap (read_part work.old) left (split_by m) g at base) (state_of work.old out.old c) room.records at base }
    ensures { Done (form_at room.records room.cap (read_part work.old) left (split_by m) g at base) (state_of work.old out.old c) (state_of work.new out.new result.progress) × SizedAt (read_part work.old) left (split_by m) g at base result.at result.base result.longs result.lits result.cmps }
{
    if left == 0 {
        return single(c, at, base, 0, 0);
    }
    let under = left - 1;
    match node_at(work, g, at) {
        Node::Var(v, q) => {
            let d = declare(work, v, c);
            single(d, q, base, 1, 0)
        }
        Node::Cmp(_, q) => {
            let j = inner(m);
            let a = number_int(work, out, q, under, j, base, room, c);
            let b = number_int(work, out, a.at, under, j, a.base, room, a.progress);
            single(b.progress, b.at, b.base, 0, 1)
        }
        Node::Not(q) => number(work, out, q, under, m, base, !g, room, c),
        Node::Join(d, k, a, b, q) => {
            let s = numbers(work, out, q, under, m, k, base, a, b, room, c);
            if d {
                return close(s);
            }
            longer(s.progress, s.at, s.base)
        }
        Node::Cross(h, q) => {
            if m <= 1 {
                let j = inner(m);
                let a = numbers(work, out, q, under, j, 2, base, false, h, room, c);
                let b = numbers(work, out, q, under, j, 2, base, true, !h, room, a.progress);
                return cross(a, b);
            }
            let s = skips(work, q, under, m, 2, bump(base, 2));
            longer(c, s.at, s.base)
        }
    }
}

// ---- the extras

// A side tied to its number: plain, then negated.
fn number_tie(
    work: &mut [i32],
    out: &mut [i32],
    at: usize,
    left: usize,
    m: usize,
    base: usize,
    room: Room,
    c: Progress,
) -> Progress
    requires { Starts (tie_of room.records room.cap (read_part work.old) left (split_by m) at base) (state_of work.old out.old c) room.records at base }
    ensures { Done (tie_of room.records room.cap (read_part work.old) left (split_by m) at base) (state_of work.old out.old c) (state_of work.new out.new result) }
{
    let d = number(work, out, at, left, m, base, false, room, c);
    let e = number(work, out, at, left, m, base, true, room, d.progress);
    e.progress
}

// The extras of so many members.
#[cycle(ties)]
fn number_each_ties(
    work: &mut [i32],
    out: &mut [i32],
    at: usize,
    left: usize,
    m: usize,
    count: usize,
    base: usize,
    room: Room,
    c: Progress,
) -> NumberedInt
    requires { Starts (each_ties_of room.records room.cap (read_part work.old) left (split_by m) count at base) (state_of work.old out.old c) room.records at base }
    ensures { Done (each_ties_of room.records room.cap (read_part work.old) left (split_by m) count at base) (state_of work.old out.old c) (state_of work.new out.new result.progress) × SkipsAll (read_part work.old) left (split_by m) count at base result.at result.base }
{
    let mut r = ended(c, at, base);
    for _ in 0..count {
        r = number_ties(work, out, r.at, left, m, r.base, room, r.progress);
    }
    r
}

// Of so many terms; a constant or a variable has none.
#[cycle(ties)]
fn number_term_ties(
    work: &mut [i32],
    out: &mut [i32],
    at: usize,
    left: usize,
    m: usize,
    count: usize,
    base: usize,
    room: Room,
    c: Progress,
) -> NumberedInt
    requires { Starts (terms_ties_of room.records room.cap (read_part work.old) left (split_by m) count at base) (state_of work.old out.old c) room.records at base }
    ensures { Done (terms_ties_of room.records room.cap (read_part work.old) left (split_by m) count at base) (state_of work.old out.old c) (state_of work.new out.new result.progress) × TermSkips (read_part work.old) left (split_by m) count at base result.at result.base }
{
    let mut r = ended(c, at, base);
    for _ in 0..count {
        if scan::is_leaf(work, r.at, left) {
            r = ended(r.progress, r.at + 3, r.base);
            continue;
        }
        let p = within(r.at + 1);
        r = number_int_ties(work, out, p, left, m, r.base, room, r.progress);
    }
    r
}

// Of the integer expression at a place.
#[cycle(ties)]
fn number_int_ties(
    work: &mut [i32],
    out: &mut [i32],
    at: usize,
    left: usize,
    m: usize,
    base: usize,
    room: Room,
    c: Progress,
) -> NumberedInt
    requires { Starts (int_ties_of room.records room.cap (read_part work.old) left (split_by m) at base) (state_of work.old out.old c) room.records at base }
    ensures { Done (int_ties_of room.records room.cap (read_part work.old) left (split_by m) at base) (state_of work.old out.old c) (state_of work.new out.new result.progress) × IntSkips (read_part work.old) left (split_by m) at base result.at result.base }
{
    if left == 0 {
        return ended(c, at, base);
    }
    let under = left - 1;
    let code = word(work, at);
    let two = within(at + 2);
    if code == 22 {
        let x = word(work, at + 1);
        return number_term_ties(work, out, two, under, m, x, base, room, c);
    }
    if code == 23 {
        let a = number_ties(work, out, within(at + 1), under, m, base, room, c);
        let b = number_int_ties(work, out, a.at, under, m, a.base, room, a.progress);
        return number_int_ties(work, out, b.at, under, m, b.base, room, b.progress);
    }
    ended(c, two, base)
}

// Of a split Xor or Iff: of each side, its extras and its tie.
#[cycle(ties)]
fn number_sides(
    work: &mut [i32],
    out: &mut [i32],
    at: usize,
    left: usize,
    base: usize,
    room: Room,
    c: Progress,
) -> NumberedInt
    requires { Starts (sides_of room.records room.cap (read_part work.old) left at base) (state_of work.old out.old c) room.records at base }
    ensures { Done (sides_of room.records room.cap (read_part work.old) left at base) (state_of work.old out.old c) (state_of work.new out.new result.progress) × SkipsAll (read_part work.old) left (split_by 2) 2 at (bump-of base 2) result.at result.base }
{
    let n = bump(base, 2);
    let a = number_ties(work, out, at, left, 2, n, room, c);
    let q = a.at;
    let k = a.base;
    let b = number_tie(work, out, at, left, 2, n, room, a.progress);
    let d = number_ties(work, out, q, left, 2, k, room, b);
    let e = number_tie(work, out, q, left, 2, k, room, d.progress);
    ended(e, d.at, d.base)
}

// Of the expression at a place.
#[cycle(ties)]
fn number_ties(
    work: &mut [i32],
    out: &mut [i32],
    at: usize,
    left: usize,
    m: usize,
    base: usize,
    room: Room,
    c: Progress,
) -> NumberedInt
    requires { Starts (ties_of room.records room.cap (read_part work.old) left (split_by m) at base) (state_of work.old out.old c) room.records at base }
    ensures { Done (ties_of room.records room.cap (read_part work.old) left (split_by m) at base) (state_of work.old out.old c) (state_of work.new out.new result.progress) × Skips (read_part work.old) left (split_by m) at base result.at result.base }
{
    if left == 0 {
        return ended(c, at, base);
    }
    let under = left - 1;
    match node_at(work, false, at) {
        Node::Var(_, q) => ended(c, q, base),
        Node::Cmp(_, q) => {
            let j = inner(m);
            let a = number_int_ties(work, out, q, under, j, base, room, c);
            number_int_ties(work, out, a.at, under, j, a.base, room, a.progress)
        }
        Node::Not(q) => number_ties(work, out, q, under, m, base, room, c),
        Node::Join(_, k, _, _, q) => number_each_ties(work, out, q, under, m, k, base, room, c),
        Node::Cross(_, q) => {
            if m <= 1 {
                return number_each_ties(work, out, q, under, inner(m), 2, base, room, c);
            }
            number_sides(work, out, q, under, base, room, c)
        }
    }
}

// ---- a rule

// Whether an expression is split, from n to `next`; at the limit it may be.
fn is_split(n: usize, next: usize) -> bool
    ensures { result ≡ false → Unsplit n next }
{
    n >= memory::LIMIT || next != n
}

// The extras of the rule at a place, which is split from n to `next`. Where nothing is split there are none.
fn number_extras(
    work: &mut [i32],
    out: &mut [i32],
    at: usize,
    n: usize,
    next: usize,
    room: Room,
    c: Progress,
) -> Progress
    requires { Starts (ties_of room.records room.cap (read_part work.old) 64 below_in at n) (state_of work.old out.old c) room.records at n × (next ≡ (decode (read_part work.old) 64 below_in false at n).next) }
    ensures { Done (ties_of room.records room.cap (read_part work.old) 64 below_in at n) (state_of work.old out.old c) (state_of work.new out.new result) }
{
    if is_split(n, next) {
        let e = number_ties(work, out, at, 64, 1, n, room, c);
        return e.progress;
    }
    c
}

// The rule at a place: the splitting's numbers first, then its extras and itself; and where it ends.
pub fn number_rule(
    work: &mut [i32],
    out: &mut [i32],
    at: usize,
    room: Room,
    c: Progress,
) -> NumberedInt
    requires { Starts (rule_task room.records room.cap (read_part work.old) at) (state_of work.old out.old c) room.records at 0 }
    ensures { Done (rule_task room.records room.cap (read_part work.old) at) (state_of work.old out.old c) (state_of work.new out.new result.progress) × Skips (read_part work.old) 64 below_in at c.bools result.at result.base }
{
    let n = c.bools;
    let s = skip(work, at, 64, 1, n);
    let d = advance(c, s.base.saturating_sub(n));
    let e = number_extras(work, out, at, n, s.base, room, d);
    let f = number(work, out, at, 64, 1, n, false, room, e);
    ended(f.progress, s.at, s.base)
}

// ---- a pair of an AllDifferent

// The extras of the side at a place, which is split from n to `next`.
fn number_side_extras(
    work: &mut [i32],
    out: &mut [i32],
    at: usize,
    n: usize,
    next: usize,
    room: Room,
    c: Progress,
) -> Progress
    requires { Starts (int_ties_of room.records room.cap (read_part work.old) 64 here at n) (state_of work.old out.old c) room.records at n × (next ≡ (decode_int (read_part work.old) 64 here at n).next) }
    ensures { Done (int_ties_of room.records room.cap (read_part work.old) 64 here at n) (state_of work.old out.old c) (state_of work.new out.new result) }
{
    if is_split(n, next) {
        let e = number_int_ties(work, out, at, 64, 2, n, room, c);
        return e.progress;
    }
    c
}

// The pair whose sides stand at p and q: the splitting's numbers first, then the extras of both sides, then the sides.
pub fn number_pair(
    work: &mut [i32],
    out: &mut [i32],
    p: usize,
    q: usize,
    room: Room,
    c: Progress,
) -> Progress
    requires { Starts (pair_task room.records room.cap (read_part work.old) p q) (state_of work.old out.old c) room.records p 0 × (q ≤ folded_end) }
    ensures { Done (pair_task room.records room.cap (read_part work.old) p q) (state_of work.old out.old c) (state_of work.new out.new result) }
{
    let n = c.bools;
    let a = skip_int(work, p, 64, 2, n);
    let j = a.base;
    let b = skip_int(work, q, 64, 2, j);
    let d = advance(c, b.base.saturating_sub(n));
    let e = number_side_extras(work, out, p, n, j, room, d);
    let f = number_side_extras(work, out, q, j, b.base, room, e);
    let g = number_int(work, out, p, 64, 2, n, room, f);
    let h = number_int(work, out, q, 64, 2, j, room, g.progress);
    h.progress
}

// ---- a table's column

// The integer of the column at a place, whose expression is walked from c to d: its record between its bounds, its number at the column's place.
fn make_column(
    work: &mut [i32],
    out: &mut [i32],
    at: usize,
    room: Room,
    c: Progress,
    d: Progress,
) -> Progress
    requires { (folded_end ≤ length work.old) × ((at ≤ folded_end) × ((room.records ≤ limit) × SpanReady work.old at c d)) }
    ensures { Makes room.records at c d work.old out.old work.new out.new result }
{
    let r = range_of(work, at, 64, 0, 0, counters_of(work, c));
    put_range(out, room.records, d.ints, r.low, r.high);
    store_number(work, memory::CELLS + at, d.ints + 1);
    count_int(d)
}

// The column at a place, of which nothing is split; one that is no declared variable gets an integer; and where it ends.
pub fn number_column(
    work: &mut [i32],
    out: &mut [i32],
    at: usize,
    room: Room,
    c: Progress,
) -> NumberedInt
    requires { Starts (column_task room.records room.cap (read_part work.old) at) (state_of work.old out.old c) room.records at 0 }
    ensures { Done (column_task room.records room.cap (read_part work.old) at) (state_of work.old out.old c) (state_of work.new out.new result.progress) × IntSkips (read_part work.old) 64 never at 0 result.at result.base }
{
    let a = number_int(work, out, at, 64, 0, 0, room, c);
    let d = a.progress;
    if is_full(room, d) {
        return a;
    }
    if word(work, at) == 21 {
        return a;
    }
    let e = make_column(work, out, at, room, c, d);
    ended(e, a.at, a.base)
}
