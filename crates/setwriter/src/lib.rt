// The clauses of all statements, in order, behind the answer's front and its records.
#![tactic(auto)]

ghost use Rattle.std.specs.Prelude.{◌≡◌};
ghost use Rattle.walk.specs.Decode.{word as word_in, read_part};
ghost use Rattle.rows.specs.Emit.{Behind};
ghost use Rattle.setwriter.specs.Begin.{SomeSettles, Begins};
ghost use Rattle.setwriter.specs.Step.{Place, Mapped, SomeMapped, Did, SomeAllMapped, WrittenAll};
ghost use Rattle.setwriter.specs.One.{SomeRule, RulePut, SomeOne, OnePut};
ghost use Rattle.setwriter.specs.Again.{SomeWalked, DoesAgain, SomeStarts, RewroteAll};

use numbering::{Progress, Room};
use rows::Written;
use survey::{bump, word};
use walk::Counters;

// The maps and the cells become empty, and merging gives its numbers if it was chosen: how many. The walks over the statements up to `end` begin from there.
pub fn begin_walk(work: &mut [i32], end: usize, merge: bool) -> usize
    requires { SomeSettles work.old end }
    ensures { Begins merge work.old end work.new result }
{
    memory::clear_words(work, memory::BOOL_MAP, memory::IFS_WORD);
    merging::merge_equivalent_variables(work, end, merge)
}

// Behind a statement: the place of the next one, the counters, the place in the output and how many clauses stand there.
#[derive(Drop)]
struct Step {
    next: usize,
    n: Counters,
    at: usize,
    clauses: usize,
}

// ---- one statement, by the maps and cells in `work`; n: the counters before it

// The clauses of the rule at `at`, behind k others.
fn put_rule(work: &[i32], at: usize, n: Counters, out: &mut [i32], o: usize, k: usize) -> Step
    requires { SomeRule work.now at n × Behind out.old o k }
    ensures { RulePut work.now at n out.old o k out.new result.next result.n result.at result.clauses }
{
    let r = rulewriter::write_rule(work, at + 1, n, out, o);
    Step {
        next: r.at,
        n: r.n,
        at: r.o,
        clauses: rows::lesser(bump(k, r.lines), r.o),
    }
}

// The same of the rule or table at `at`.
fn write_one(
    set: &[i32],
    work: &mut [i32],
    at: usize,
    n: Counters,
    out: &mut [i32],
    o: usize,
    k: usize,
) -> Step
    requires { SomeOne set.now work.old at n × Behind out.old o k }
    ensures { OnePut set.now work.old at n out.old o k work.new out.new result.next result.n result.at result.clauses }
{
    if word(work, at) == 1 {
        return put_rule(work, at, n, out, o, k);
    }
    let t = tablewriter::write_table(set, work, at, n, out, o, k);
    Step {
        next: t.next,
        n: t.n,
        at: t.at,
        clauses: t.clauses,
    }
}

// ---- by the final maps, where no If stands

// The clauses of the AllDifferent at `at`. It takes no number.
fn write_different(
    set: &[i32],
    work: &[i32],
    at: usize,
    n: Counters,
    out: &mut [i32],
    o: usize,
    k: usize,
) -> Step
    requires { SomeMapped set.now work.now at n × (word_in (read_part work.now) at ≡ 3) × Behind out.old o k }
    ensures { (x : Place) → Mapped x set.now work.now at n → Did x work.now at out.old o k work.now out.new result.next result.n result.at result.clauses }
{
    let next = stmtwords::statement_end(work, at);
    let count = word(work, at + 1);
    let r = differing::put_different(set, work, n, at + 2, count, out, o, k);
    Step {
        next,
        n,
        at: r.at,
        clauses: r.clauses,
    }
}

// Those of the statement at `at`.
fn write_mapped(
    set: &[i32],
    work: &mut [i32],
    at: usize,
    n: Counters,
    out: &mut [i32],
    o: usize,
    k: usize,
) -> Step
    requires { SomeMapped set.now work.old at n × Behind out.old o k }
    ensures { (x : Place) → Mapped x set.now work.old at n → Did x work.old at out.old o k work.new out.new result.next result.n result.at result.clauses }
{
    if word(work, at) == 3 {
        return write_different(set, work, at, n, out, o, k);
    }
    write_one(set, work, at, n, out, o, k)
}

// The clauses of the statements from 512 to `end` by the final maps, where no If stands. `from` Booleans have a number already.
pub fn write_by_maps(
    set: &[i32],
    work: &mut [i32],
    end: usize,
    from: usize,
    out: &mut [i32],
    o: usize,
) -> Written
    requires { SomeAllMapped set.now work.old end from out.old o }
    ensures { WrittenAll set.now work.old end from out.old o work.new out.new result.at result.clauses }
{
    let mut q = memory::FOLDED;
    let mut n = Counters {
        bools: from,
        ints: 0,
    };
    let mut p = o;
    let mut k = 0;
    // Statements differ in length: the loop counts no index.
    while q < end {
        let r = write_mapped(set, work, q, n, out, p, k);
        q = r.next;
        n = r.n;
        p = r.at;
        k = r.clauses;
    }
    Written { at: p, clauses: k }
}

// ---- with Ifs

// As Step, with the state of the walk.
#[derive(Drop)]
struct Walked {
    next: usize,
    c: Progress,
    at: usize,
    clauses: usize,
}

// How many words of the answer the walk counted; the place in the output and how many clauses stand there.
#[derive(Drop)]
pub struct Rewritten {
    pub used: usize,
    pub at: usize,
    pub clauses: usize,
}

// The rule or table at `at` numbered again and, unless that makes the walk full, written.
fn rewrite_one(
    set: &[i32],
    work: &mut [i32],
    at: usize,
    room: Room,
    c: Progress,
    out: &mut [i32],
    o: usize,
    k: usize,
) -> Walked
    requires { SomeWalked set.now work.old at room c × (word_in (read_part work.old) at ≡ 3 → ⊥) × Behind out.old o k }
    ensures { DoesAgain set.now work.old at room c out.old o k work.new out.new result.next result.c result.at result.clauses }
{
    let mut none = [0i32; 0];
    let s = setnumbers::number_statement(work, &mut none, at, room, c);
    let d = s.progress;
    if room.cap < d.used {
        return Walked {
            next: at,
            c: d,
            at: o,
            clauses: k,
        };
    }
    let n = Counters {
        bools: c.bools,
        ints: c.ints,
    };
    let r = write_one(set, work, at, n, out, o, k);
    Walked {
        next: r.next,
        c: d,
        at: r.at,
        clauses: r.clauses,
    }
}

// The AllDifferent at `at`, each pair numbered again right before it is written.
fn rewrite_pairs(
    set: &[i32],
    work: &mut [i32],
    at: usize,
    room: Room,
    c: Progress,
    out: &mut [i32],
    o: usize,
    k: usize,
) -> Walked
    requires { SomeWalked set.now work.old at room c × (word_in (read_part work.old) at ≡ 3) × Behind out.old o k }
    ensures { DoesAgain set.now work.old at room c out.old o k work.new out.new result.next result.c result.at result.clauses }
{
    let next = stmtwords::statement_end(work, at);
    let mut none = [0i32; 0];
    let r = differing::rewrite_different(set, work, &mut none, at, room, c, out, o, k);
    Walked {
        next,
        c: r.walk,
        at: r.at,
        clauses: r.clauses,
    }
}

// The statement at `at` numbered again and written, up to where the walk is full.
fn write_again(
    set: &[i32],
    work: &mut [i32],
    at: usize,
    room: Room,
    c: Progress,
    out: &mut [i32],
    o: usize,
    k: usize,
) -> Walked
    requires { SomeWalked set.now work.old at room c × Behind out.old o k }
    ensures { DoesAgain set.now work.old at room c out.old o k work.new out.new result.next result.c result.at result.clauses }
{
    if word(work, at) == 3 {
        return rewrite_pairs(set, work, at, room, c, out, o, k);
    }
    rewrite_one(set, work, at, room, c, out, o, k)
}

// The clauses of the statements from 512 to `end`, each numbered again right before it is written, up to where the walk is full. `from` Booleans have a number already.
pub fn write_numbered(
    set: &[i32],
    work: &mut [i32],
    end: usize,
    room: Room,
    from: usize,
    out: &mut [i32],
    o: usize,
) -> Rewritten
    requires { SomeStarts set.now work.old end room from out.old o }
    ensures { RewroteAll set.now work.old end room from out.old o work.new out.new result.used result.at result.clauses }
{
    let mut q = memory::FOLDED;
    let mut c = Progress {
        bools: from,
        ints: 0,
        used: 0,
    };
    let mut p = o;
    let mut k = 0;
    // Statements differ in length: the loop counts no index.
    while q < end {
        let r = write_again(set, work, q, room, c, out, p, k);
        q = r.next;
        c = r.c;
        p = r.at;
        k = r.clauses;
        if room.cap < c.used {
            return Rewritten {
                used: c.used,
                at: p,
                clauses: k,
            };
        }
    }
    Rewritten {
        used: c.used,
        at: p,
        clauses: k,
    }
}
