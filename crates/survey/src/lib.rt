// Small functions of the walks over the folded words, literals, counters, and what members of a survey come to.
#![tactic(auto)]

ghost use Rattle.std.specs.Prelude.{◌≡◌, ◌+◌, ◌≤◌, ◌<◌, min};
ghost use Rattle.memory.specs.Places.{folded_end};
ghost use Rattle.syntax.specs.Words.{max_bools};
ghost use Rattle.walk.specs.Item.{bump as bump-of, bool_at, signed as Signed-of, mode_in, fresh_in, lines_in};
ghost use Rattle.walk.specs.Decode.{word as word_in, below as below_of, read_part, surveyed, closed_disj, closed_cross, added};

use walk::{Mode, Surveyed};

// The literal of a declared Boolean in the map: its number plus 1, negative if negated; 0 for none.
pub fn literal(work: &[i32], v: usize) -> i32
    requires { v < max_bools }
    ensures { result ≡ bool_at work.now v }
{
    memory::plain(work, memory::BOOL_MAP + v)
}

// The same literal, negated if g.
pub fn signed(z: i32, g: bool) -> i32
    ensures { result ≡ Signed-of z g }
{
    if z > memory::LIMIT_WORD || z < memory::LIMIT_NEGATED {
        return 0;
    }
    if g {
        return -z;
    }
    z
}

// The number at a place of the words that are read: those below the maps.
pub fn word(work: &[i32], at: usize) -> usize
    ensures { result ≡ word_in (read_part work.now) at }
{
    if at < memory::FOLDED_END {
        return memory::entry(work, at);
    }
    0
}

pub fn within(p: usize) -> usize
    ensures { result ≡ min p folded_end }
{
    p.min(memory::FOLDED_END)
}

// A variable's index; 0 for what is none.
pub fn below(x: usize, count: usize) -> usize
    ensures { result ≡ below_of count x }
{
    if x < count { x } else { 0 }
}

pub fn bump(n: usize, k: usize) -> usize
    ensures { result ≡ bump-of n k }
{
    n.saturating_add(k).min(memory::LIMIT)
}

pub fn mode_of(longs: usize, lits: usize, cmps: usize) -> Mode
    ensures { result ≡ mode_in longs lits cmps }
{
    match (longs, lits, cmps) {
        (0, _, _) => Mode::Pool,
        (1, 0 | 1, 0) => Mode::One,
        (2, 0, 0) => Mode::Two,
        _ => Mode::Each,
    }
}

// The new numbers of a disjunction.
pub fn fresh(longs: usize, lits: usize, cmps: usize) -> usize
    ensures { result ≡ fresh_in (mode_in longs lits cmps) longs }
{
    match mode_of(longs, lits, cmps) {
        Mode::Pool => 0,
        Mode::One => 0,
        Mode::Two => 1,
        Mode::Each => longs,
    }
}

// The clauses of a disjunction whose longer members have so many.
fn disj_lines(longs: usize, lits: usize, cmps: usize, lines: usize) -> usize
    ensures { result ≡ lines_in (mode_in longs lits cmps) lines }
{
    match mode_of(longs, lits, cmps) {
        Mode::Pool => 1,
        Mode::One => lines,
        Mode::Two => lines,
        Mode::Each => bump(lines, 1),
    }
}

// ---- ends

// Where an expression ends, and the splitting's next number behind it.
#[derive(Drop)]
pub struct Skipped {
    pub at: usize,
    pub base: usize,
}

// ---- the survey

// A single member of so many literals and comparisons.
pub fn single(at: usize, base: usize, n: usize, lits: usize, cmps: usize) -> Surveyed
    ensures { result ≡ surveyed at base n 0 lits cmps 0 1 }
{
    Surveyed {
        at,
        base,
        n,
        longs: 0,
        lits,
        cmps,
        lines: 0,
        all: 1,
    }
}

pub fn longer(at: usize, base: usize, n: usize, lines: usize) -> Surveyed
    ensures { result ≡ surveyed at base n 1 0 0 lines lines }
{
    Surveyed {
        at,
        base,
        n,
        longs: 1,
        lits: 0,
        cmps: 0,
        lines,
        all: lines,
    }
}

pub fn close_disj(s: Surveyed) -> Surveyed
    ensures { result ≡ closed_disj s }
{
    if s.longs == 0 {
        return Surveyed { all: 1, ..s };
    }
    let n = bump(s.n, fresh(s.longs, s.lits, s.cmps));
    longer(
        s.at,
        s.base,
        n,
        disj_lines(s.longs, s.lits, s.cmps, s.lines),
    )
}

pub fn close_cross(s: Surveyed, u: Surveyed) -> Surveyed
    ensures { result ≡ closed_cross s u }
{
    let p = bump(u.n, fresh(s.longs, s.lits, s.cmps));
    let n = bump(p, fresh(u.longs, u.lits, u.cmps));
    let a = disj_lines(s.longs, s.lits, s.cmps, s.lines);
    let b = disj_lines(u.longs, u.lits, u.cmps, u.lines);
    longer(u.at, u.base, n, bump(a, b))
}

// One member more.
pub fn add_member(r: Surveyed, s: Surveyed) -> Surveyed
    requires { (r.longs + s.longs ≤ folded_end) × (r.lits + s.lits ≤ folded_end) × (r.cmps + s.cmps ≤ folded_end) }
    ensures { result ≡ added r s }
{
    Surveyed {
        longs: r.longs + s.longs,
        lits: r.lits + s.lits,
        cmps: r.cmps + s.cmps,
        lines: bump(r.lines, s.lines),
        all: bump(r.all, s.all),
        ..s
    }
}
