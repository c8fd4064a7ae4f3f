// Folding (constant_folding_int, constant_folding_bool): the words of the set are read, the folded words are written from a place of the work slice on.
// The fixed values are the first words of the work slice: 0 false, 1 true, else open. `d` is the place of the set's first domain.
#![tactic(auto)]

ghost use Rattle.std.specs.Prelude.{◌≡◌, Bool, cond, ◌||◌, [], ◌∷◌, ◌+◌, ◌*◌, ◌-◌, ◌≤◌, ◌<◌, pos, length, get_or, set};
ghost use Rattle.std.proofs.Math.Seq.{slice};
ghost use Rattle.laws.specs.Slices.{Stored};
ghost use Rattle.syntax.specs.Syntax.{encode_bool};
ghost use Rattle.std.proofs.Math.Option.{Option};
ghost use Rattle.fold.specs.Fold.{Op as FoldOp, action as action_at, fold_var, is_value};
ghost use Rattle.fold.specs.Table.{op_num, state_num, action_num};
ghost use Rattle.domains.specs.Declared.{DomainBelow};
ghost use Rattle.folding.specs.Known.{known, is_open, op_of, action_of};
ghost use Rattle.folding.specs.Steps.{state_of, not_step, not_state, list_step, list_state, binary_step, binary_state, single_of, IntVarPost, ReadyInt, ReadyTerms, IntPost, TermsPost, Ready, ReadyMembers, FoldPost, MembersPost};

// Where reading and writing go on.
#[derive(Clone, Copy)]
pub struct Span {
    pub next: usize,
    pub end: usize,
}

// The same of a Boolean expression, and which constant it became.
#[derive(Clone, Copy)]
pub struct Folded {
    pub next: usize,
    pub end: usize,
    pub state: Option<bool>,
}

// The same of a list's members, whether one of them settles the list, and how many are kept.
#[derive(Clone, Copy)]
pub struct Listed {
    pub next: usize,
    pub end: usize,
    pub hit: bool,
    pub kept: usize,
}

// The operators with two sides, each with its code.
#[derive(Clone, Copy)]
enum Op {
    Xor = 15,
    Iff = 16,
    Imp = 17,
}

// What an operator and its two sides become.
#[derive(Clone, Copy)]
enum Becomes {
    Constant(bool),
    Left,
    NotLeft,
    Right,
    NotRight,
    Keep,
}

// ---- the leaves that know of signs

pub fn put(work: &mut [i32], o: usize, v: usize)
    requires { (o < length work.old) × (v < 2147483648) }
    ensures { work.new ≡ set work.old o (pos v) }
{
    work[o] = v as i32;
}

#[tactic(auto, unfolding(crate::specs::Steps::state_of))]
pub fn state_at(work: &[i32], v: usize) -> Option<bool>
    requires { v < length work.now }
    ensures { known result ≡ state_of (get_or work.now v (pos 0)) }
{
    match work[v] {
        0 => Some(false),
        1 => Some(true),
        _ => None,
    }
}

// The words from `from` up to `end`, moved down to `to`.
fn shift(work: &mut [i32], from: usize, end: usize, to: usize) -> usize
    requires { (to ≤ from) × (from ≤ end) × (end ≤ length work.old) }
    ensures { Stored work.old to (slice from end work.old) work.new result }
{
    let mut p = to;
    for i in from..end {
        work[p] = work[i];
        p += 1;
    }
    p
}

// ---- the table

fn op_at(code: usize) -> Op
    requires { (14 < code) × (code < 18) }
    ensures { code ≡ 15 + op_num (op_of result) }
{
    match code {
        15 => Op::Xor,
        16 => Op::Iff,
        _ => Op::Imp,
    }
}

// One number for each operator (Xor, Iff, Imp), three bits to an action: octal digit 3 * left + right, counted from the last, is the action for these sides.
// Sides: 0 false, 1 true, 2 unknown. Actions: 0 false, 1 true, 2 left, 3 not left, 4 right, 5 not right, 6 keep.
// No `match` over operators and sides: request 2.4 of document 02 asks for this form, since the station's image is short of constant space.
const ACTIONS: [u32; 3] = [0o632501410, 0o623410501, 0o613410111];

fn packed_action(op: usize, a: usize, b: usize) -> usize
    requires { (op < 3) × (a < 3) × (b < 3) }
    ensures { (o : FoldOp) (x y : Option Bool) → op ≡ op_num o → a ≡ state_num x → b ≡ state_num y → result ≡ action_num (action_at o x y) }
{
    let n = ACTIONS[op];
    let k = 9 * a + 3 * b;
    ((n >> k) % 8) as usize
}

fn side(state: Option<bool>) -> usize
    ensures { result ≡ state_num (known state) }
{
    match state {
        Some(b) => b as usize,
        None => 2,
    }
}

fn action(op: Op, left: Option<bool>, right: Option<bool>) -> Becomes
    ensures { action_of result ≡ action_at (op_of op) (known left) (known right) }
{
    match packed_action(op as usize - 15, side(left), side(right)) {
        0 => Becomes::Constant(false),
        1 => Becomes::Constant(true),
        2 => Becomes::Left,
        3 => Becomes::NotLeft,
        4 => Becomes::Right,
        5 => Becomes::NotRight,
        _ => Becomes::Keep,
    }
}

// ---- closing: the sides or members stand behind the place of the header

pub fn put_two(work: &mut [i32], o: usize, u: usize, v: usize) -> usize
    requires { (o + 2 ≤ length work.old) × (u < 2147483648) × (v < 2147483648) }
    ensures { Stored work.old o (pos u ∷ pos v ∷ []) work.new result }
{
    put(work, o, u);
    put(work, o + 1, v);
    o + 2
}

#[tactic(auto, unfolding(syntax::specs::Syntax::encode_bool))]
fn put_var(work: &mut [i32], o: usize, s: Option<bool>, v: usize) -> usize
    requires { (o + 2 ≤ length work.old) × (v < 2147483648) }
    ensures { Stored work.old o (encode_bool (fold_var (known s) v)) work.new result }
{
    match s {
        Some(b) => put_two(work, o, 10, b as usize),
        None => put_two(work, o, 11, v),
    }
}

#[tactic(auto, unfolding(crate::specs::Steps::not_step))]
fn close_not(work: &mut [i32], o: usize, inner: Folded) -> Folded
    requires { (o + 2 ≤ inner.end) × (inner.end ≤ length work.old) }
    ensures { (result.next ≡ inner.next) × (known result.state ≡ not_state (known inner.state)) × Stored work.old o (not_step (known inner.state) (slice (o + 1) inner.end work.old)) work.new result.end }
{
    match inner.state {
        Some(b) => {
            let end = put_two(work, o, 10, !b as usize);
            Folded {
                next: inner.next,
                end,
                state: Some(!b),
            }
        }
        None => {
            put(work, o, 14);
            inner
        }
    }
}

// The words of a list whose kept members stand behind its header; b is the constant that settles it.
#[tactic(auto, unfolding(crate::specs::Steps::list_step))]
fn put_list(work: &mut [i32], o: usize, e: usize, b: bool, hit: bool, kept: usize) -> usize
    requires { (o + 2 ≤ e) × (e ≤ length work.old) × (kept < 2147483648) }
    ensures { Stored work.old o (list_step b hit kept (slice (o + 2) e work.old)) work.new result }
{
    if hit {
        return put_two(work, o, 10, b as usize);
    }
    if kept == 0 {
        return put_two(work, o, 10, !b as usize);
    }
    if kept == 1 {
        return shift(work, o + 2, e, o);
    }
    put(work, o, 12 + b as usize);
    put(work, o + 1, kept);
    e
}

#[tactic(auto, unfolding(crate::specs::Steps::list_state))]
fn list_state(b: bool, hit: bool, kept: usize) -> Option<bool>
    ensures { known result ≡ list_state b hit kept }
{
    if hit {
        return Some(b);
    }
    if kept == 0 { Some(!b) } else { None }
}

fn close_list(work: &mut [i32], o: usize, m: Listed, b: bool) -> Folded
    requires { (o + 2 ≤ m.end) × (m.end ≤ length work.old) × (m.kept < 2147483648) }
    ensures { (result.next ≡ m.next) × (known result.state ≡ list_state b m.hit m.kept) × Stored work.old o (list_step b m.hit m.kept (slice (o + 2) m.end work.old)) work.new result.end }
{
    let end = put_list(work, o, m.end, b, m.hit, m.kept);
    let state = list_state(b, m.hit, m.kept);
    Folded {
        next: m.next,
        end,
        state,
    }
}

// The words of an action on two sides that stand behind the header.
#[tactic(auto, unfolding(crate::specs::Steps::binary_step))]
fn put_binary(work: &mut [i32], o: usize, m: usize, e: usize, op: Op, k: Becomes) -> usize
    requires { (o + 2 ≤ m) × (m ≤ e) × (e ≤ length work.old) }
    ensures { Stored work.old o (binary_step (action_of k) (op_of op) (slice (o + 1) m work.old) (slice m e work.old)) work.new result }
{
    match k {
        Becomes::Constant(b) => put_two(work, o, 10, b as usize),
        Becomes::Left => shift(work, o + 1, m, o),
        Becomes::NotLeft => {
            put(work, o, 14);
            m
        }
        Becomes::Right => shift(work, m, e, o),
        Becomes::NotRight => {
            put(work, o, 14);
            shift(work, m, e, o + 1)
        }
        Becomes::Keep => {
            put(work, o, op as usize);
            e
        }
    }
}

fn binary_state(k: Becomes) -> Option<bool>
    ensures { known result ≡ binary_state (action_of k) }
{
    match k {
        Becomes::Constant(b) => Some(b),
        _ => None,
    }
}

fn close_binary(work: &mut [i32], o: usize, left: Folded, right: Folded, op: Op) -> Folded
    requires { (o + 2 ≤ left.end) × (left.end ≤ right.end) × (right.end ≤ length work.old) }
    ensures { let k = action_at (op_of op) (known left.state) (known right.state) in (result.next ≡ right.next) × (known result.state ≡ binary_state k) × Stored work.old o (binary_step k (op_of op) (slice (o + 1) left.end work.old) (slice left.end right.end work.old)) work.new result.end }
{
    let k = action(op, left.state, right.state);
    let end = put_binary(work, o, left.end, right.end, op, k);
    let state = binary_state(k);
    Folded {
        next: right.next,
        end,
        state,
    }
}

// ---- integer expressions

// A sum of one term, with coefficient 1.
#[tactic(auto, unfolding(crate::specs::Steps::single_of))]
fn is_single(words: &[i32], at: usize, n: usize) -> bool
    requires { n ≡ 1 → at < length words.now }
    ensures { result ≡ single_of n (get_or words.now at (pos 0)) }
{
    n == 1 && words[at] == 1
}

fn put_int_var(words: &[i32], d: usize, work: &mut [i32], o: usize, v: usize) -> usize
    requires domain_below { DomainBelow words.now d v }
    requires o_in_bounds { (o + 2 ≤ length work.old) × (v < 2147483648) }
    ensures { IntVarPost words.now d work.old o v work.new result }
{
    let at = domains::domain_of(words, d, v);
    match domains::as_constant(words, at) {
        None => put_two(work, o, 21, v),
        Some(p) => {
            put(work, o, 20);
            memory::copy_word(words, p, work, o + 1);
            o + 2
        }
    }
}

// As many terms as `count` says.
#[cycle(constant_folding)]
fn constant_folding_terms(
    words: &[i32],
    d: usize,
    at: usize,
    count: usize,
    work: &mut [i32],
    o: usize,
) -> Span
    requires { ReadyTerms words.now d at count work.old o }
    ensures { TermsPost words.now d at count work.old o work.new result.next result.end }
{
    let mut next = at;
    let mut end = o;
    for _ in 0..count {
        memory::copy_word(words, next, work, end);
        let a = constant_folding_int(words, d, next + 1, work, end + 1);
        next = a.next;
        end = a.end;
    }
    Span { next, end }
}

#[cycle(constant_folding)]
pub fn constant_folding_int(words: &[i32], d: usize, at: usize, work: &mut [i32], o: usize) -> Span
    requires { ReadyInt words.now d at work.old o }
    ensures { IntPost words.now d at work.old o work.new result.next result.end }
{
    let w = domains::number(words, at);
    if w == 20 {
        put(work, o, 20);
        memory::copy_word(words, at + 1, work, o + 1);
        return Span {
            next: at + 2,
            end: o + 2,
        };
    }
    if w == 21 {
        let v = domains::number(words, at + 1);
        let end = put_int_var(words, d, work, o, v);
        return Span { next: at + 2, end };
    }
    if w == 23 {
        return fold_if(words, d, at, work, o);
    }
    let n = domains::number(words, at + 1);
    if n == 0 {
        let end = put_two(work, o, 20, 0);
        return Span { next: at + 2, end };
    }
    if is_single(words, at + 2, n) {
        return constant_folding_int(words, d, at + 3, work, o);
    }
    let m = put_two(work, o, 22, n);
    constant_folding_terms(words, d, at + 2, n, work, m)
}

// An If. Where the condition is known, the branch that it picks is written over it; what the other one wrote lies behind the end, or below that branch.
#[cycle(constant_folding)]
fn fold_if(words: &[i32], d: usize, at: usize, work: &mut [i32], o: usize) -> Span
    requires ready_int { ReadyInt words.now d at work.old o }
    requires pos_value { get_or words.now at (pos 0) ≡ pos 23 }
    ensures { IntPost words.now d at work.old o work.new result.next result.end }
{
    put(work, o, 23);
    let c = constant_folding_bool(words, d, at + 1, work, o + 1);
    let p = kept_end(c.state, o, c.end);
    let t = constant_folding_int(words, d, c.next, work, p);
    let q = at_state(c.state, false, o, t.end);
    let e = constant_folding_int(words, d, t.next, work, q);
    let end = at_state(c.state, true, t.end, e.end);
    Span { next: e.next, end }
}

// ---- a member that is no constant is kept

fn kept_end(state: Option<bool>, o: usize, end: usize) -> usize
    ensures { result ≡ cond (is_open (known state)) end o }
{
    if state.is_none() { end } else { o }
}

fn kept_count(state: Option<bool>, n: usize) -> usize
    requires { n < 4611686018427387904 }
    ensures { result ≡ cond (is_open (known state)) (n + 1) n }
{
    if state.is_none() { n + 1 } else { n }
}

fn hits(state: Option<bool>, b: bool, hit: bool) -> bool
    ensures { result ≡ (is_value b (known state) || hit) }
{
    state == Some(b) || hit
}

// One place in one state, another in the others.
fn at_state(state: Option<bool>, s: bool, a: usize, b: usize) -> usize
    ensures { result ≡ cond (is_value s (known state)) a b }
{
    if state == Some(s) { a } else { b }
}

// ---- Boolean expressions

// A constant or a variable, whose code is w.
fn fold_leaf(words: &[i32], d: usize, at: usize, work: &mut [i32], o: usize, w: usize) -> Folded
    requires ready { Ready words.now d at work.old o }
    requires pos_value { (get_or words.now at (pos 0) ≡ pos w) × (w < 12) }
    ensures { FoldPost words.now d at work.old o work.new result.next result.end (known result.state) }
{
    let v = domains::number(words, at + 1);
    if w == 10 {
        let end = put_two(work, o, 10, v);
        return Folded {
            next: at + 2,
            end,
            state: Some(v == 1),
        };
    }
    let s = state_at(work, v);
    let end = put_var(work, o, s, v);
    Folded {
        next: at + 2,
        end,
        state: s,
    }
}

// A comparison is never folded; its sides are.
#[cycle(constant_folding)]
fn fold_comparison(words: &[i32], d: usize, at: usize, work: &mut [i32], o: usize) -> Folded
    requires ready { Ready words.now d at work.old o }
    requires pos_value { get_or words.now at (pos 0) ≡ pos 18 }
    ensures { FoldPost words.now d at work.old o work.new result.next result.end (known result.state) }
{
    let v = domains::number(words, at + 1);
    let m = put_two(work, o, 18, v);
    let a = constant_folding_int(words, d, at + 2, work, m);
    let b = constant_folding_int(words, d, a.next, work, a.end);
    Folded {
        next: b.next,
        end: b.end,
        state: None,
    }
}

// A side of Xor, Iff or Imp, mostly a variable.
#[cycle(constant_folding)]
fn fold_side(words: &[i32], d: usize, at: usize, work: &mut [i32], o: usize) -> Folded
    requires { Ready words.now d at work.old o }
    ensures { FoldPost words.now d at work.old o work.new result.next result.end (known result.state) }
{
    let w = domains::number(words, at);
    if w < 12 {
        return fold_leaf(words, d, at, work, o, w);
    }
    constant_folding_bool(words, d, at, work, o)
}

// As many members as `count` says, of which those that are no constant are written; b is the constant that settles the list.
#[cycle(constant_folding)]
fn constant_folding_members(
    words: &[i32],
    d: usize,
    at: usize,
    count: usize,
    work: &mut [i32],
    o: usize,
    b: bool,
) -> Listed
    requires { ReadyMembers words.now d at count work.old o }
    ensures { MembersPost words.now d at count work.old o b work.new result.next result.end result.hit result.kept }
{
    let mut next = at;
    let mut end = o;
    let mut hit = false;
    let mut kept = 0;
    for _ in 0..count {
        let f = constant_folding_bool(words, d, next, work, end);
        next = f.next;
        end = kept_end(f.state, end, f.end);
        hit = hits(f.state, b, hit);
        kept = kept_count(f.state, kept);
    }
    Listed {
        next,
        end,
        hit,
        kept,
    }
}

#[cycle(constant_folding)]
pub fn constant_folding_bool(
    words: &[i32],
    d: usize,
    at: usize,
    work: &mut [i32],
    o: usize,
) -> Folded
    requires { Ready words.now d at work.old o }
    ensures { FoldPost words.now d at work.old o work.new result.next result.end (known result.state) }
{
    let w = domains::number(words, at);
    if w < 12 {
        return fold_leaf(words, d, at, work, o, w);
    }
    if w == 18 {
        return fold_comparison(words, d, at, work, o);
    }
    if w == 14 {
        let a = constant_folding_bool(words, d, at + 1, work, o + 1);
        return close_not(work, o, a);
    }
    if w < 14 {
        let n = domains::number(words, at + 1);
        let m = constant_folding_members(words, d, at + 2, n, work, o + 2, w == 13);
        return close_list(work, o, m, w == 13);
    }
    let a = fold_side(words, d, at + 1, work, o + 1);
    let b = fold_side(words, d, a.next, work, a.end);
    close_binary(work, o, a, b, op_at(w))
}
