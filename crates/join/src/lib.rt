// Two sets with identical declarations as one, written into a lent buffer; and a joined statement by its number, as a part of the set it came from.
#![tactic(auto)]

ghost use Rattle.std.specs.Prelude.{◌≡◌, ◌≤◌, length};
ghost use Rattle.laws.specs.Slices.{zeros};
ghost use Rattle.syntax.specs.Words.{max_ints};
ghost use Rattle.words.specs.Refusal.{by_number};
ghost use Rattle.join.specs.Join.{statement_at, words_of, address_of};
ghost use Rattle.join.specs.Steps.{ReadyBoth, ComparePost, AgreePost, ReadyWrite, WritePost, ReadyNth, NthPost, PartPost, ReadyFind};
ghost use Rattle.join.specs.Contract.{Joins, place_of, Finds};

use reader::Declared;
use words::Refusal;

// ---- two sets that can be joined

// What they declare, where their statements start, how many each has, and how many words the joined set has.
#[derive(Drop)]
pub struct Pair {
    pub ints: usize,
    pub at: usize,
    pub first: usize,
    pub second: usize,
    pub words: usize,
}

// Refusals 16, and 17 without regard to the buffer, of two accepted sets.
fn compare(first: &[i32], second: &[i32], d: Declared, e: Declared) -> Result<Pair, Refusal>
    requires { ReadyBoth first.now second.now d e }
    ensures { ComparePost first.now second.now d e (by_number result) }
{
    let at = d.at;
    if at != e.at || first[..at - 1] != second[..at - 1] {
        return Err(Refusal::DeclaredOtherwise);
    }
    let words = first.len() + second.len() - at;
    if words > memory::MAX_SET_WORDS {
        return Err(Refusal::LongJoin);
    }
    Ok(Pair {
        ints: d.ints,
        at,
        first: d.stmts,
        second: e.stmts,
        words,
    })
}

// The refusals of the first set, of the second, 16, and 17 without regard to the buffer; or what there is to join.
fn agree(first: &[i32], second: &[i32], work: &mut [i32]) -> Result<Pair, Refusal>
    ensures { AgreePost first.now second.now work.old work.new (by_number result) }
{
    let d = accept::accept(first, work)?;
    let e = accept::accept(second, work)?;
    compare(first, second, d, e)
}

// ---- the join

// The first set with both counts of statements together, then the second's statements.
fn write_both(first: &[i32], second: &[i32], d: Pair, buffer: &mut [i32])
    requires { ReadyWrite first.now second.now d buffer.old }
    ensures { WritePost first.now second.now buffer.old buffer.new }
{
    memory::copy_words(first, 0, first.len(), buffer, 0);
    let at = d.at;
    let count = d.first + d.second;
    buffer[at - 1] = count as i32;
    memory::copy_words(second, at, second.len() - at, buffer, first.len());
}

// The number of words written, or the refusal's number.
#[derive(Drop)]
pub enum Joined {
    Words(usize),
    Refused(usize),
}

// The join. The buffer is zero behind the joined words, and wholly so after a refusal; the work slice is zero after every call.
pub fn join(first: &[i32], second: &[i32], buffer: &mut [i32], work: &mut [i32]) -> Joined
    ensures { Joins first.now second.now buffer.old work.old buffer.new work.new result }
{
    memory::clear(buffer);
    let answer = agree(first, second, work);
    memory::clear(work);
    match answer {
        Err(refusal) => Joined::Refused(refusal.number()),
        Ok(d) => {
            let words = d.words;
            if words > buffer.len() {
                return Joined::Refused(17);
            }
            write_both(first, second, d, buffer);
            Joined::Words(words)
        }
    }
}

// ---- a joined statement

// Where a joined statement stands: in the first set (1), in the second (2) or in none (0), its first word and the one behind its last.
#[derive(Drop)]
pub struct Place {
    pub set: usize,
    pub from: usize,
    pub to: usize,
}

// The place of statement k of a set, from 0.
fn nth(set: &[i32], work: &[i32], at: usize, ni: usize, k: usize) -> usize
    requires { ReadyNth set.now work.now at ni k × (ni ≤ max_ints) }
    ensures { NthPost set.now work.now at ni k result }
{
    let mut next = at;
    for _ in 0..k {
        next = accept::statement(set, work, next, ni).next;
    }
    next
}

fn part_of(set: &[i32], work: &[i32], at: usize, ni: usize, k: usize, number: usize) -> Place
    requires { ReadyNth set.now work.now at ni k × (ni ≤ max_ints) }
    ensures { PartPost set.now work.now at ni k result.from result.to × (result.set ≡ number) }
{
    let from = nth(set, work, at, ni, k);
    let s = accept::statement(set, work, from, ni);
    Place {
        set: number,
        from,
        to: s.next,
    }
}

// Statements are numbered from 1, the first set's before the second's.
fn find(first: &[i32], second: &[i32], work: &[i32], d: Pair, number: usize) -> Place
    requires { ReadyFind first.now second.now work.now d }
    ensures { result ≡ place_of (statement_at first.now second.now (length work.now) number) }
{
    if number == 0 {
        return Place {
            set: 0,
            from: 0,
            to: 0,
        };
    }
    let k = number - 1;
    if k < d.first {
        return part_of(first, work, d.at, d.ints, k, 1);
    }
    let j = k - d.first;
    if j < d.second {
        return part_of(second, work, d.at, d.ints, j, 2);
    }
    Place {
        set: 0,
        from: 0,
        to: 0,
    }
}

// The place of a joined statement; none where the sets cannot be joined in any buffer. The work slice is zero after every call.
pub fn find_place(first: &[i32], second: &[i32], work: &mut [i32], number: usize) -> Place
    ensures { Finds first.now second.now work.old work.new number result }
{
    match agree(first, second, work) {
        Err(_) => {
            memory::clear(work);
            Place {
                set: 0,
                from: 0,
                to: 0,
            }
        }
        Ok(d) => {
            let r = find(first, second, work, d, number);
            memory::clear(work);
            r
        }
    }
}

// The words of a joined statement: a part of the set it came from, or an empty part of the first set. The work slice is zero after every call.
pub fn joined_statement<'a>(
    first: &'a [i32],
    second: &'a [i32],
    work: &mut [i32],
    number: usize,
) -> &'a [i32]
    ensures result_value { result.now ≡ words_of (statement_at first.now second.now (length work.old) number) }
    ensures ref_ptr_value { result.ref_ptr ≡ address_of (statement_at first.now second.now (length work.old) number) first.entry.ref_ptr second.entry.ref_ptr }
    ensures work_after { work.new ≡ zeros (length work.old) }
{
    let p = find_place(first, second, work, number);
    let from = p.from;
    let to = p.to;
    if p.set == 1 {
        return &first[from..to];
    }
    if p.set == 2 {
        return &second[from..to];
    }
    &first[0..0]
}
