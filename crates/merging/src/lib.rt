// Merging (merge_equivalent_variables): before numbering, rules that tie two variables give them one literal in the Boolean map.
#![tactic(auto)]

ghost use Rattle.std.specs.Prelude.{◌≡◌, true, ◌+◌, ◌≤◌, ◌<◌, length, set};
ghost use Rattle.memory.specs.Places.{folded_end, bool_map, limit};
ghost use Rattle.syntax.specs.Words.{max_bools};
ghost use Rattle.walk.specs.Decode.{read_part};
ghost use Rattle.statements.specs.Ties.{tie_words, meet_tie, meet_sides, meet_ties_at};
ghost use Rattle.statements.specs.Stages.{SomeFolded};
ghost use Rattle.merging.specs.Merging.{Ties, MergedAll};

// The literal of a variable is stored in the map.
fn give(work: &mut [i32], v: usize, z: i32)
    requires { v < max_bools }
    ensures { (work.new ≡ set work.old (bool_map + v) z) × (length work.new ≡ length work.old) }
{
    memory::store(work, memory::BOOL_MAP + v, z);
}

// x and y are without a literal: x gets a number, y its literal, negated if g. n: how many numbers there are.
fn merge_new(work: &mut [i32], x: usize, y: usize, g: bool, n: usize) -> usize
    requires { (x < max_bools) × ((y < max_bools) × (n ≤ limit)) }
    ensures { Ties (tie_words true true x y g) work.old n work.new result }
{
    let k = survey::bump(n, 1);
    let z = k as i32;
    give(work, x, z);
    give(work, y, survey::signed(z, g));
    k
}

// A rule ties x and y, as opposites if g: the one without a literal takes the other's. What comes back: how many numbers there are now.
fn merge_tie(work: &mut [i32], x: usize, y: usize, g: bool, n: usize) -> usize
    requires { (x < max_bools) × ((y < max_bools) × (n ≤ limit)) }
    ensures { Ties (meet_tie x y g) work.old n work.new result }
{
    if x == y {
        return n;
    }
    let a = survey::literal(work, x);
    let b = survey::literal(work, y);
    if a == 0 {
        if b == 0 {
            return merge_new(work, x, y, g, n);
        }
        give(work, x, survey::signed(b, g));
        return n;
    }
    if b != 0 {
        return n;
    }
    give(work, y, survey::signed(a, g));
    n
}

// The two sides of an Xor (g) or Iff from a place on, if both are variables.
fn merge_sides(work: &mut [i32], at: usize, g: bool, n: usize) -> usize
    requires { (at ≤ folded_end + 2) × (n ≤ limit) }
    ensures { Ties (meet_sides (read_part work.old) at g) work.old n work.new result }
{
    if survey::word(work, at) != 11 || survey::word(work, at + 2) != 11 {
        return n;
    }
    let x = survey::word(work, at + 1);
    if x >= memory::MAX_BOOLS {
        return n;
    }
    let y = survey::word(work, at + 3);
    if y >= memory::MAX_BOOLS {
        return n;
    }
    merge_tie(work, x, y, g, n)
}

// The statement at a place.
fn merge_statement(work: &mut [i32], at: usize, n: usize) -> usize
    requires { (at ≤ folded_end) × (n ≤ limit) }
    ensures { Ties (meet_ties_at (read_part work.old) at) work.old n work.new result }
{
    if survey::word(work, at) != 1 {
        return n;
    }
    match survey::word(work, at + 1) {
        15 => merge_sides(work, at + 2, true, n),
        16 => merge_sides(work, at + 2, false, n),
        _ => n,
    }
}

// All statements from 512 to `end`, in order: how many numbers the map has then.
fn merge_statements(work: &mut [i32], end: usize) -> usize
    requires { SomeFolded work.old end }
    ensures { MergedAll true work.old end work.new result }
{
    let mut q = memory::FOLDED;
    let mut n = 0;
    // from statement to statement, each of its own length
    while q < end {
        let next = stmtwords::statement_end(work, q);
        n = merge_statement(work, q, n);
        q = next;
    }
    n
}

// The same if it was chosen; else nothing.
pub fn merge_equivalent_variables(work: &mut [i32], end: usize, merge: bool) -> usize
    requires { SomeFolded work.old end }
    ensures { MergedAll merge work.old end work.new result }
{
    if merge {
        return merge_statements(work, end);
    }
    0
}
