// The first walk over all folded statements of the work slice with Ifs: numbers at first meeting and creation, and the records of the emitted integers.
#![tactic(auto)]

ghost use Rattle.std.specs.Prelude.{◌≡◌, true, false, ◌≤◌, length};
ghost use Rattle.memory.specs.Places.{folded, folded_end};
ghost use Rattle.walk.specs.Decode.{word as word_in, read_part};
ghost use Rattle.walks.specs.Item.{has_ifs as has-ifs-in};
ghost use Rattle.stages.specs.Start.{start};
ghost use Rattle.stages.specs.Columns.{columns_end as columns-end-in};
ghost use Rattle.stmtwords.specs.Stands.{StmtEnds, TableEnds};
ghost use Rattle.numbering.specs.Task.{skip as nothing, state_of, Done};
ghost use Rattle.numbering.specs.Tasks.{columns_task, row_task, pairs_task};
ghost use Rattle.setnumbers.specs.Once.{each_task, PlainSides};
ghost use Rattle.setnumbers.specs.KnownTie.{KnownSides, KnownTie};
ghost use Rattle.setnumbers.specs.Numbered.{Asks, AsksTable, DoneTable, AsksStmt, DoneStmt, AsksAll, DoneAll};

use numbering::{Progress, Room, number_column, number_int, number_pair, number_rule};
use stmtwords::{clear_pair, columns_end, table_fresh};
use survey::{below, bump, literal, within, word};

// The progress, and where what was numbered ends.
#[derive(Drop)]
pub struct NumberedStmt {
    pub progress: Progress,
    pub next: usize,
}

// So many columns from a place on, and where they end.
fn number_columns(
    work: &mut [i32],
    out: &mut [i32],
    at: usize,
    count: usize,
    room: Room,
    c: Progress,
) -> NumberedStmt
    requires { (at ≤ folded_end) × Asks (columns_task room.records room.cap (read_part work.old) count at) (state_of work.old out.old c) room.records }
    ensures { Done (columns_task room.records room.cap (read_part work.old) count at) (state_of work.old out.old c) (state_of work.new out.new result.progress) × (result.next ≡ columns-end-in (read_part work.old) count at) }
{
    let mut d = c;
    let mut q = at;
    for _ in 0..count {
        let s = number_column(work, out, q, room, d);
        d = s.progress;
        q = s.at;
    }
    NumberedStmt {
        progress: d,
        next: q,
    }
}

// The expression at p with each of so many from a place on.
fn number_row(
    work: &mut [i32],
    out: &mut [i32],
    p: usize,
    at: usize,
    count: usize,
    room: Room,
    c: Progress,
) -> Progress
    requires { (p ≤ folded_end) × ((at ≤ folded_end) × Asks (row_task room.records room.cap (read_part work.old) p count at nothing) (state_of work.old out.old c) room.records) }
    ensures { Done (row_task room.records room.cap (read_part work.old) p count at nothing) (state_of work.old out.old c) (state_of work.new out.new result) }
{
    let mut d = c;
    let mut q = at;
    for _ in 0..count {
        if room.cap < d.used {
            return d;
        }
        let o = q;
        let s = scan::skip_int(work, o, 64, 0, 0);
        clear_pair(work, p, o);
        d = number_pair(work, out, p, o, room, d);
        q = s.at;
    }
    d
}

// All pairs of so many expressions from a place on.
fn number_different(
    work: &mut [i32],
    out: &mut [i32],
    at: usize,
    count: usize,
    room: Room,
    c: Progress,
) -> Progress
    requires { (at ≤ folded_end) × Asks (pairs_task room.records room.cap (read_part work.old) count at nothing) (state_of work.old out.old c) room.records }
    ensures { Done (pairs_task room.records room.cap (read_part work.old) count at nothing) (state_of work.old out.old c) (state_of work.new out.new result) }
{
    let mut d = c;
    let mut p = at;
    for rest in (0..count).rev() {
        let o = p;
        let s = scan::skip_int(work, o, 64, 0, 0);
        p = s.at;
        d = number_row(work, out, o, p, rest, room, d);
    }
    d
}

// Each of so many expressions from a place on, once.
fn number_each(
    work: &mut [i32],
    out: &mut [i32],
    at: usize,
    count: usize,
    room: Room,
    c: Progress,
) -> Progress
    requires { (at ≤ folded_end) × Asks (each_task room.records room.cap (read_part work.old) count at) (state_of work.old out.old c) room.records }
    ensures { Done (each_task room.records room.cap (read_part work.old) count at) (state_of work.old out.old c) (state_of work.new out.new result) }
{
    let mut d = c;
    let mut q = at;
    for _ in 0..count {
        let s = number_int(work, out, q, 64, 2, 0, room, d);
        d = s.progress;
        q = s.at;
    }
    d
}

// All pairs of so many expressions from a place on, where the walk is not full. Without Ifs each expression is numbered once.
fn number_all_different(
    work: &mut [i32],
    out: &mut [i32],
    at: usize,
    n: usize,
    room: Room,
    c: Progress,
) -> Progress
    requires { (c.used ≤ room.cap) × ((at ≤ folded_end) × (Asks (pairs_task room.records room.cap (read_part work.old) n at nothing) (state_of work.old out.old c) room.records × (has-ifs-in work.old ≡ false → PlainSides (read_part work.old) n at))) }
    ensures { Done (pairs_task room.records room.cap (read_part work.old) n at nothing) (state_of work.old out.old c) (state_of work.new out.new result) }
{
    if scan::has_ifs(work) {
        return number_different(work, out, at, n, room, c);
    }
    if n < 2 {
        return c;
    }
    number_each(work, out, at, n, room, c)
}

// The table at a place: its columns, then the new numbers of its rows; and where it ends.
fn number_table(
    work: &mut [i32],
    out: &mut [i32],
    at: usize,
    room: Room,
    c: Progress,
) -> NumberedStmt
    requires { AsksTable room.records room.cap at (state_of work.old out.old c) }
    ensures { DoneTable room.records room.cap at (state_of work.old out.old c) (state_of work.new out.new result.progress) × ((length work.new ≡ length work.old) × (length out.new ≡ length out.old)) × TableEnds work.old at result.next }
{
    let n = word(work, at + 1);
    let k = word(work, at + 2);
    let r = number_columns(work, out, at + 3, n, room, c);
    let p = r.next;
    let f = table_fresh(work, p, n, k);
    let d = r.progress;
    let e = Progress {
        bools: bump(d.bools, f),
        ..d
    };
    NumberedStmt {
        progress: e,
        next: p + k * n,
    }
}

// Whether the two sides from a place on are variables that have literals.
fn known_sides(work: &[i32], p: usize) -> bool
    requires { (folded_end ≤ length work.now) × (p ≤ folded_end) }
    ensures { result ≡ true → KnownSides work.now p }
{
    let q = within(p + 2);
    if word(work, p) != 11 || word(work, q) != 11 {
        return false;
    }
    let x = below(word(work, p + 1), memory::MAX_BOOLS);
    let y = below(word(work, q + 1), memory::MAX_BOOLS);
    literal(work, x) != 0 && literal(work, y) != 0
}

// Whether the rule at a place ties two variables that have literals: then it takes no number.
fn known_tie(work: &[i32], at: usize) -> bool
    requires { (folded_end ≤ length work.now) × (at ≤ folded_end) }
    ensures { result ≡ true → KnownTie work.now at }
{
    let code = word(work, at);
    (code == 15 || code == 16) && known_sides(work, within(at + 1))
}

// The AllDifferent at a place, and where it ends.
fn number_different_at(
    work: &mut [i32],
    out: &mut [i32],
    at: usize,
    room: Room,
    c: Progress,
) -> NumberedStmt
    requires { (c.used ≤ room.cap) × ((word_in (read_part work.old) at ≡ 3) × AsksStmt room.records room.cap at (state_of work.old out.old c)) }
    ensures { DoneStmt room.records room.cap at (state_of work.old out.old c) (state_of work.new out.new result.progress) × ((length work.new ≡ length work.old) × (length out.new ≡ length out.old)) × StmtEnds work.old at result.next }
{
    let n = word(work, at + 1);
    let end = columns_end(work, at + 2, n);
    let d = number_all_different(work, out, at + 2, n, room, c);
    NumberedStmt {
        progress: d,
        next: end,
    }
}

// The statement at a place, where the walk is not full, and where it ends. A known tie has six words.
pub fn number_statement(
    work: &mut [i32],
    out: &mut [i32],
    at: usize,
    room: Room,
    c: Progress,
) -> NumberedStmt
    requires { (c.used ≤ room.cap) × AsksStmt room.records room.cap at (state_of work.old out.old c) }
    ensures { DoneStmt room.records room.cap at (state_of work.old out.old c) (state_of work.new out.new result.progress) × ((length work.new ≡ length work.old) × (length out.new ≡ length out.old)) × StmtEnds work.old at result.next }
{
    let kind = word(work, at);
    if kind == 1 {
        if known_tie(work, at + 1) {
            return NumberedStmt {
                progress: c,
                next: within(at + 6),
            };
        }
        let r = number_rule(work, out, at + 1, room, c);
        return NumberedStmt {
            progress: r.progress,
            next: r.at,
        };
    }
    if kind == 3 {
        return number_different_at(work, out, at, room, c);
    }
    number_table(work, out, at, room, c)
}

// All statements from 512 to `end`, in order, as long as the walk is not full. n: how many Booleans have a number already.
pub fn number_statements(
    work: &mut [i32],
    out: &mut [i32],
    end: usize,
    room: Room,
    n: usize,
) -> Progress
    requires { AsksAll room.records room.cap folded end (start work.old out.old n) }
    ensures { DoneAll room.records room.cap folded end (start work.old out.old n) (state_of work.new out.new result) }
{
    let mut q = memory::FOLDED;
    let mut c = Progress {
        bools: n,
        ints: 0,
        used: 0,
    };
    // from statement to statement, each of its own length
    while q < end {
        if room.cap < c.used {
            return c;
        }
        let r = number_statement(work, out, q, room, c);
        q = r.next;
        c = r.progress;
    }
    c
}
