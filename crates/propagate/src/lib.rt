// The passes (optimize): folding and requiring all statements until nothing changes. Where a set takes many passes, single statements are
// folded and required in between, in the order in which their variables get fixed: the end is the same (fold/specs/Ahead.antt).
#![tactic(auto)]

ghost use Rattle.std.specs.Prelude.{◌≡◌, ◌≤◌, ◌<◌, pos, length, get_or};
ghost use Rattle.syntax.specs.Words.{max_bools};
ghost use Rattle.passes.specs.Want.{rank};
ghost use Rattle.propagate.specs.Optimized.{SomeDomains, DomainsEndPost, Opened, ReadyPasses, PassesPost, Accepted, OptimizePost};
ghost use Rattle.propagate.specs.Worklist.{Only, ReadyStep, StepPost, NextPost, ReadyWorklist, Moves, WorklistPost, AfterPost, Places};

pub use passes::Status;

#[derive(Drop)]
pub struct Optimized {
    pub status: Status,
    pub end: usize,
}

// A statement folded and required: where it ends in the set and, folded, in the work slice.
#[derive(Drop)]
pub struct Stepped {
    pub next: usize,
    pub end: usize,
    pub status: Status,
}

// How many statements were put into the queue, those taken from it included.
#[derive(Drop)]
pub struct Moved {
    pub count: usize,
    pub status: Status,
}

// ---- numbers kept in arrays

// The number at i; 0 where there is none.
fn entry(a: &[i32], i: usize) -> usize
    ensures { ((result ≡ 0 → ⊥) → get_or a.now i (pos 0) ≡ pos result) × (result < 8192) }
{
    let n = memory::entry(a, i);
    if n < 8192 { n } else { 0 }
}

// n at i, where there is room.
fn store(a: &mut [i32], i: usize, n: usize)
    ensures { Only n a.old a.new }
{
    if n < 8192 {
        memory::store_number(a, i, n);
    }
}

// ---- the watches and the queue
// What they hold needs no proof, as any order of steps is right: at v, the place of the last occurrence of the variable v (0: none, or v is fixed);
// at 512 + p, for an occurrence at p, the occurrence before it, and at 513 + p its statement's index; at 4610 + i, whether the statement of
// index i is in the queue; at 6658 + k, the k-th statement of the queue. A set has at most 2046 statements, of two words.

// The occurrence of a variable at p, if there is one, in the statement of index i: the first one in the statement counts.
fn watch_at(words: &[i32], p: usize, i: usize, watches: &mut [i32]) {
    if entry(words, p) != 11 || p >= 4096 {
        return;
    }
    let v = entry(words, p + 1);
    if v >= memory::MAX_BOOLS {
        return;
    }
    let before = entry(watches, v);
    if before != 0 && entry(watches, 513 + before) == i {
        return;
    }
    store(watches, 512 + p, before);
    store(watches, 513 + p, i);
    store(watches, v, p);
}

fn watch(words: &[i32], from: usize, to: usize, i: usize, watches: &mut [i32]) {
    for p in from..to {
        watch_at(words, p, i, watches);
    }
}

// The next occurrence of a chain; 0: none.
fn earlier(watches: &[i32], p: usize) -> usize
    requires { (p ≡ 0 → ⊥) × (p < 8192) }
    ensures { result < p }
{
    let q = entry(watches, 512 + p);
    if q < p { q } else { 0 }
}

// The statement of index i is put into the queue, unless it waits there.
fn enqueue(watches: &mut [i32], i: usize, count: usize) -> usize
    requires { (count ≤ 2048) × (i < 8192) }
    ensures { result ≤ 2048 }
{
    if count >= 2048 || entry(watches, 4610 + i) != 0 {
        return count;
    }
    store(watches, 4610 + i, 1);
    store(watches, 6658 + count, i);
    count + 1
}

// The statements of a chain, from the occurrence at `first` on.
fn enqueue_chain(watches: &mut [i32], first: usize, queued: usize) -> usize
    requires { (queued ≤ 2048) × (first < 8192) }
    ensures { result ≤ 2048 }
{
    let mut count = queued;
    let mut p = first;
    while p != 0 {
        let i = entry(watches, 513 + p);
        count = enqueue(watches, i, count);
        p = earlier(watches, p);
    }
    count
}

// If the variable v is fixed, its statements are to be looked at again.
fn push(work: &[i32], v: usize, watches: &mut [i32], count: usize) -> usize
    requires { count ≤ 2048 }
    ensures { result ≤ 2048 }
{
    if v >= memory::MAX_BOOLS || entry(work, v) == 2 {
        return count;
    }
    let first = entry(watches, v);
    store(watches, v, 0);
    enqueue_chain(watches, first, count)
}

fn push_at(work: &[i32], p: usize, watches: &mut [i32], count: usize) -> usize
    requires count_bound { count ≤ 2048 }
    requires p_in_bounds { p < length work.now }
    ensures { result ≤ 2048 }
{
    if entry(work, p) == 11 {
        push(work, entry(work, p + 1), watches, count)
    } else {
        count
    }
}

// The variables of the folded statement, those that are fixed now.
fn push_fixed(work: &[i32], end: usize, watches: &mut [i32], queued: usize) -> usize
    requires queued_bound { queued ≤ 2048 }
    requires end_in_bounds { end ≤ length work.now }
    ensures { result ≤ 2048 }
{
    let mut count = queued;
    for p in memory::FOLDED..end {
        count = push_at(work, p, watches, count);
    }
    count
}

// ---- single statements

// The statement at `at`, folded under the values fixed so far, and required.
fn step(words: &[i32], at: usize, work: &mut [i32]) -> Stepped
    requires { ReadyStep words.now at work.old }
    ensures { StepPost words.now at work.old work.new result.end (rank result.status) × NextPost words.now at result.next }
{
    let a = passes::fold_stmt(words, 2, at, work, memory::FOLDED);
    let b = passes::prop_stmt(work, memory::FOLDED);
    Stepped {
        next: a.next,
        end: a.end,
        status: b.status,
    }
}

// Whether the folded statement, once required, may fix something later: a table, an AllDifferent, a constant and a variable do not.
fn lasting(work: &[i32], end: usize) -> bool {
    entry(work, memory::FOLDED) == 1 && end > 516
}

// The statement of index i, which stands from `at` to `next`, is watched if it may fix something later.
fn watch_statement(
    words: &[i32],
    at: usize,
    next: usize,
    i: usize,
    work: &[i32],
    end: usize,
    places: &mut [i32],
    watches: &mut [i32],
)
    ensures { Only at places.old places.new }
{
    if lasting(work, end) {
        store(places, i, at);
        watch(words, at, next, i, watches);
    }
}

// After a step of this status.
fn push_after(work: &[i32], end: usize, status: Status, watches: &mut [i32], count: usize) -> usize
    requires count_bound { count ≤ 2048 }
    requires end_in_bounds { end ≤ length work.now }
    ensures { result ≤ 2048 }
{
    if status != Status::Updated {
        return count;
    }
    push_fixed(work, end, watches, count)
}

// Every statement once, in order.
fn sweep(
    words: &[i32],
    at: usize,
    statements: usize,
    work: &mut [i32],
    places: &mut [i32],
    watches: &mut [i32],
) -> Moved
    requires ready_passes { ReadyPasses words.now at statements work.old }
    requires places { Places words.now at statements places.old }
    ensures { WorklistPost words.now at statements work.old work.new (rank result.status) × Places words.now at statements places.new × (result.count ≤ 2048) }
{
    let mut next = at;
    let mut count = 0;
    for i in 0..statements {
        let a = step(words, next, work);
        if a.status == Status::Unsatisfiable {
            return Moved {
                count: 0,
                status: a.status,
            };
        }
        watch_statement(words, next, a.next, i, work, a.end, places, watches);
        count = push_after(work, a.end, a.status, watches, count);
        next = a.next;
    }
    Moved {
        count,
        status: Status::Unchanged,
    }
}

// A statement that fixes nothing any more is forgotten.
fn forget_done(work: &[i32], end: usize, places: &mut [i32], i: usize)
    ensures { Only 0 places.old places.new }
{
    if !lasting(work, end) {
        store(places, i, 0);
    }
}

// The statement of index i again.
fn again(
    words: &[i32],
    i: usize,
    work: &mut [i32],
    places: &mut [i32],
    watches: &mut [i32],
    count: usize,
) -> Moved
    requires ready_worklist { ReadyWorklist words.now work.old places.old }
    requires count_bound { count ≤ 2048 }
    ensures { Moves words.now work.old places.old work.new places.new (rank result.status) × (result.count ≤ 2048) }
{
    let at = entry(places, i);
    if at == 0 {
        return Moved {
            count,
            status: Status::Unchanged,
        };
    }
    let a = step(words, at, work);
    forget_done(work, a.end, places, i);
    let more = push_after(work, a.end, a.status, watches, count);
    Moved {
        count: more,
        status: a.status,
    }
}

// Every statement of the queue, those that come up on the way too.
fn run_queue(
    words: &[i32],
    work: &mut [i32],
    places: &mut [i32],
    watches: &mut [i32],
    queued: usize,
) -> Status
    requires ready_worklist { ReadyWorklist words.now work.old places.old }
    requires queued_bound { queued ≤ 2048 }
    ensures { Moves words.now work.old places.old work.new places.new (rank result) }
{
    let mut k = 0;
    let mut count = queued;
    // the queue grows on the way
    while k < count {
        let i = entry(watches, 6658 + k);
        store(watches, 4610 + i, 0);
        let a = again(words, i, work, places, watches, count);
        if a.status == Status::Unsatisfiable {
            return a.status;
        }
        count = a.count;
        k += 1;
    }
    Status::Updated
}

// Statements one by one, each again once one of its variables was fixed. What is not unsatisfiable goes on.
fn run_worklist(words: &[i32], at: usize, statements: usize, work: &mut [i32]) -> Status
    requires { ReadyPasses words.now at statements work.old }
    ensures { WorklistPost words.now at statements work.old work.new (rank result) }
{
    let mut places = [0i32; 2048];
    let mut watches = [0i32; 8706];
    let a = sweep(words, at, statements, work, &mut places, &mut watches);
    if a.status == Status::Unsatisfiable {
        return a.status;
    }
    run_queue(words, work, &mut places, &mut watches, a.count)
}

// ---- the passes

// Every Boolean open.
fn fill_open(work: &mut [i32])
    requires { max_bools ≤ length work.old }
    ensures { Opened work.old work.new }
{
    work[..memory::MAX_BOOLS].fill(2);
}

// The place behind n domains.
fn domains_end(words: &[i32], d: usize, n: usize) -> usize
    requires { SomeDomains words.now d n }
    ensures { DomainsEndPost words.now d n result }
{
    let mut at = d;
    for _ in 0..n {
        at = domains::domain_end(words, at);
    }
    at
}

// After a pass of this status, `left` of the first passes to come.
fn after_pass(
    words: &[i32],
    at: usize,
    count: usize,
    work: &mut [i32],
    status: Status,
    end: usize,
    left: usize,
) -> Optimized
    requires { ReadyPasses words.now at count work.old }
    ensures { AfterPost words.now at count work.old (rank status) end work.new (rank result.status) result.end }
{
    if status != Status::Updated || left != 0 {
        return Optimized { status, end };
    }
    let s = run_worklist(words, at, count, work);
    if s == Status::Unsatisfiable {
        return Optimized {
            status: Status::Unsatisfiable,
            end: memory::FOLDED,
        };
    }
    Optimized { status, end }
}

// Fold every statement of the set under the values fixed so far, require each rule, and again while a variable was fixed.
fn run_passes(words: &[i32], at: usize, count: usize, work: &mut [i32]) -> Optimized
    requires { ReadyPasses words.now at count work.old }
    ensures { PassesPost words.now at count work.old work.new (rank result.status) result.end }
{
    let mut status = Status::Updated;
    let mut end = memory::FOLDED;
    let mut left = 3usize;
    while status == Status::Updated {
        left = left.saturating_sub(1);
        let a = passes::fold_stmts(words, 2, at, count, work, memory::FOLDED);
        let s = passes::constant_prop_stmts(work, memory::FOLDED, count);
        let b = after_pass(words, at, count, work, s, a.end, left);
        status = b.status;
        end = b.end;
    }
    Optimized { status, end }
}

// Unchanged: the fixed values and the folded statements stand in the work slice. Any other: the set is inconsistent.
pub fn optimize(words: &[i32], work: &mut [i32]) -> Optimized
    requires { Accepted words.now work.old }
    ensures { OptimizePost words.now work.old work.new (rank result.status) result.end }
{
    let ni = domains::number(words, 1);
    let at = domains_end(words, 2, ni);
    let count = domains::number(words, at);
    fill_open(work);
    run_passes(words, at + 1, count, work)
}
