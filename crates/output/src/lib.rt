// Words put into the output in their final form, counted past its end: literals, comparisons, and the suffix of literals that a clause ends in.
#![tactic(auto)]

ghost use Rattle.std.specs.Prelude.{◌≡◌, [], ◌∷◌, ◌++◌, map, ◌+◌, ◌*◌, ◌-◌, ◌≤◌, length};
ghost use Rattle.laws.specs.Lists.{flat};
ghost use Rattle.laws.specs.Writes.{Wrote, Open};
ghost use Rattle.memory.specs.Places.{limit};
ghost use Rattle.syntax.specs.Syntax.{op_at, encode_op};
ghost use Rattle.sums.specs.Rising.{Each};
ghost use Rattle.sums.specs.Struct.{terms, sum_of};
ghost use Rattle.clauses.specs.Clause.{linear};
ghost use Rattle.clauses.specs.Normalize.{negate_op_if};
ghost use Rattle.answer.specs.Answer.{term_words, linear_words};
ghost use Rattle.walk.specs.Item.{word_of, clause_text, extra, block as Block-of};
ghost use Rattle.walks.specs.Totals.{Word};
ghost use Rattle.output.specs.Suffix.{suffix, Stacked, extra_lits};

use sums::LinearSum;
use walk::Mode;

// The word of the literal whose number plus 1 is x.
pub fn word_of(x: usize, g: bool) -> i32
    ensures { result ≡ word_of x g }
{
    if x <= memory::LIMIT {
        let w = x as i32;
        if g {
            return -w;
        }
        return w;
    }
    0
}

// A word written at o; one past the end is only counted.
pub fn put(out: &mut [i32], o: usize, w: i32) -> usize
    requires { Open out.old o }
    ensures { Wrote out.old o (w ∷ []) out.new result }
{
    if o < out.len() {
        out[o] = w;
        return o + 1;
    }
    if o < memory::CAP {
        return o + 1;
    }
    o
}

// Words written one after another.
pub fn put_all(words: &[i32], out: &mut [i32], o: usize) -> usize
    requires { Open out.old o }
    ensures { Wrote out.old o words.now out.new result }
{
    let mut p = o;
    for &w in words {
        p = put(out, p, w);
    }
    p
}

// The literals that the enclosing disjunctions append, from `from` on, the innermost first.
#[derive(Clone, Copy)]
pub struct Suffix {
    pub words: [i32; 64],
    pub from: usize,
}

pub fn push(s: Suffix, w: i32) -> Suffix
    requires { Stacked s 1 }
    ensures { (suffix result ≡ w ∷ suffix s) × (result.from ≡ s.from - 1) × (length result.words ≡ 64) }
{
    let mut a = s.words;
    let i = s.from - 1;
    a[i] = w;
    Suffix { words: a, from: i }
}

pub fn put_suffix(s: Suffix, out: &mut [i32], o: usize) -> usize
    requires { Stacked s 0 × Open out.old o }
    ensures { Wrote out.old o (suffix s) out.new result }
{
    put_all(&s.words[s.from..], out, o)
}

// The literals of k numbers from b on.
pub fn put_block(b: usize, k: usize, out: &mut [i32], o: usize) -> usize
    requires { (b + k ≤ 2 * limit) × Open out.old o }
    ensures { Wrote out.old o (Block-of b k) out.new result }
{
    let mut p = o;
    for n in b..b + k {
        p = put(out, p, word_of(n + 1, false));
    }
    p
}

// The clause of one literal.
pub fn put_lit(w: i32, s: Suffix, out: &mut [i32], o: usize) -> usize
    requires { Stacked s 0 × Open out.old o }
    ensures { Wrote out.old o (clause_text (w ∷ []) (suffix s) 0 []) out.new result }
{
    let n = 64 - s.from;
    let a = put(out, o, word_of(n + 1, false));
    let b = put(out, a, w);
    let c = put_suffix(s, out, b);
    put(out, c, 0)
}

// The word of the operator k, negated if g.
fn op_word(k: usize, g: bool) -> i32
    ensures { result ≡ encode_op (negate_op_if g (op_at k)) }
{
    if g {
        return match k {
            0 => 1,
            1 => 0,
            2 => 5,
            3 => 4,
            4 => 3,
            _ => 2,
        };
    }
    k.min(5) as i32
}

// The terms of a sum: variable and coefficient of each.
fn put_terms(s: LinearSum, out: &mut [i32], o: usize) -> usize
    requires { (s.count ≤ 64) × Each Word (terms s) × Open out.old o }
    ensures { Wrote out.old o (flat (map term_words (terms s))) out.new result }
{
    let mut p = o;
    for i in 0..s.count {
        let q = put(out, p, s.vars[i] as i32);
        p = put(out, q, s.coefs[i]);
    }
    p
}

// A comparison of a sum with 0, its operator k negated if g.
pub fn put_linear(k: usize, g: bool, s: LinearSum, out: &mut [i32], o: usize) -> usize
    requires { (s.count ≤ 64) × Each Word (terms s) × Open out.old o }
    ensures { Wrote out.old o (linear_words (linear (negate_op_if g (op_at k)) (sum_of s))) out.new result }
{
    let c = s.constant;
    let n = s.count;
    let a = put(out, o, op_word(k, g));
    let b = put(out, a, c);
    let d = put(out, b, n as i32);
    put_terms(s, out, d)
}

// The clause of two emitted numbers, each negated if so.
pub fn put_two(m: usize, g: bool, n: usize, h: bool, s: Suffix, out: &mut [i32], o: usize) -> usize
    requires { (m ≤ limit) × (n ≤ limit + 1) × Stacked s 0 × Open out.old o }
    ensures { Wrote out.old o (clause_text (word_of (m + 1) g ∷ word_of (n + 1) h ∷ []) (suffix s) 0 []) out.new result }
{
    let k = 64 - s.from;
    let a = put(out, o, word_of(k + 2, false));
    let b = put(out, a, word_of(m + 1, g));
    let c = put(out, b, word_of(n + 1, h));
    let d = put_suffix(s, out, c);
    put(out, d, 0)
}

// What a longer member's clauses get: the mode, the block's first number, and whether there is a pool literal, and its word.
#[derive(Clone, Copy)]
pub struct Extra {
    pub mode: Mode,
    pub base: usize,
    pub some: bool,
    pub lit: i32,
}

pub fn pushed(s: Suffix, x: Extra, k: usize) -> Suffix
    requires { Stacked s 1 × (x.base ≤ limit) × (k ≤ limit) }
    ensures { (suffix result ≡ extra x.mode x.base (extra_lits x) k ++ suffix s) × (s.from ≤ result.from + 1) × Stacked result 0 }
{
    let mode = x.mode;
    match mode {
        Mode::Pool => s,
        Mode::One => {
            if x.some {
                return push(s, x.lit);
            }
            s
        }
        Mode::Two => push(s, word_of(x.base + 1, k == 0)),
        Mode::Each => push(s, word_of(x.base + k + 1, true)),
    }
}
