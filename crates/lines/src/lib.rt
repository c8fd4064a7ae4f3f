// The lines of a listing, printed from the words of an answer: numbers parted by commas, domains, clauses. Where the words end early, what is there is printed.
#![tactic(auto)]

ghost use Rattle.std.specs.Prelude.{◌≡◌, ◌+◌, ◌≤◌, ◌<◌, length, drop};
ghost use Rattle.decimal.specs.Puts.{Puts};
ghost use Rattle.lines.specs.Lines.{count_word, print_numbers, times, print_domain, print_comparison, print_comparisons, comparisons_in, members, print_clause, total};
ghost use Rattle.lines.specs.Output.{Printed, Stops, part_of, line_of};

use decimal::keys::{CLAUSE, DOMAIN};
use decimal::{put_byte, put_bytes, put_number};

// Where the next byte goes, and the next word to show.
#[derive(Drop)]
pub struct Place {
    pub at: usize,
    pub next: usize,
}

// The same, with the number of literals and comparisons shown.
#[derive(Drop)]
pub struct Counted {
    pub at: usize,
    pub next: usize,
    pub members: usize,
}

// Numbers parted by commas.
fn put_numbers(out: &mut [u8], at: usize, part: &[i32]) -> usize
    ensures { Puts out.old at (print_numbers part.now) out.new result }
{
    if part.is_empty() {
        return at;
    }
    let mut o = put_number(out, at, part[0]);
    for z in &part[1..] {
        o = put_byte(out, o, b',');
        o = put_number(out, o, *z);
    }
    o
}

// The end of n words from a place on, or of those that there are.
pub fn stop(words: &[i32], from: usize, n: usize) -> usize
    requires { from ≤ length words.now }
    ensures { Stops words.now from n result }
{
    from + n.min(words.len() - from)
}

// The count that stands at a place; no word and a negative one count nothing.
pub fn count_at(words: &[i32], at: usize) -> usize
    ensures { (result ≡ count_word (drop at words.now)) × (result < 2147483648) }
{
    let w = words.get(at).copied().unwrap_or(0);
    usize::try_from(w).unwrap_or(0)
}

// n words, parted by commas.
fn put_part(out: &mut [u8], at: usize, words: &[i32], from: usize, n: usize) -> Place
    requires { from ≤ length words.now }
    ensures { Printed (part_of n (drop from words.now)) words.now from out.old at out.new result.at result.next }
{
    let e = stop(words, from, n);
    let o = put_numbers(out, at, &words[from..e]);
    Place { at: o, next: e }
}

// A line of n words.
pub fn put_line(
    out: &mut [u8],
    at: usize,
    key: &[u8],
    words: &[i32],
    from: usize,
    n: usize,
) -> Place
    requires { from ≤ length words.now }
    ensures { Printed (line_of key.now n (drop from words.now)) words.now from out.old at out.new result.at result.next }
{
    let o = put_bytes(out, at, key);
    let p = put_part(out, o, words, from, n);
    Place {
        at: put_byte(out, p.at, b'\n'),
        next: p.next,
    }
}

fn put_domain(out: &mut [u8], at: usize, words: &[i32], from: usize) -> Place
    requires { from ≤ length words.now }
    ensures { Printed (print_domain (drop from words.now)) words.now from out.old at out.new result.at result.next }
{
    put_line(out, at, DOMAIN, words, from, 4)
}

pub fn put_domains(out: &mut [u8], at: usize, words: &[i32], from: usize, n: usize) -> Place
    requires { from ≤ length words.now }
    ensures { Printed (times print_domain n (drop from words.now)) words.now from out.old at out.new result.at result.next }
{
    let mut p = Place { at, next: from };
    for _ in 0..n {
        if p.next == words.len() {
            return p;
        }
        p = put_domain(out, p.at, words, p.next);
    }
    p
}

fn put_comparison(out: &mut [u8], at: usize, words: &[i32], from: usize) -> Place
    requires { from ≤ length words.now }
    ensures { Printed (print_comparison (drop from words.now)) words.now from out.old at out.new result.at result.next }
{
    let i = put_byte(out, at, b';');
    let p = put_part(out, i, words, from, 1);
    let k = put_byte(out, p.at, b':');
    let q = put_part(out, k, words, p.next, 1);
    let m = put_byte(out, q.at, b':');
    let n = count_at(words, q.next);
    let c = stop(words, q.next, 1);
    put_part(out, m, words, c, n + n)
}

// The comparisons of a clause, from their count on.
fn put_comparisons(out: &mut [u8], at: usize, words: &[i32], from: usize) -> Counted
    requires { from ≤ length words.now }
    ensures printed { Printed (print_comparisons (drop from words.now)) words.now from out.old at out.new result.at result.next }
    ensures members_value { (result.members ≡ comparisons_in (count_word (drop from words.now)) (drop 1 (drop from words.now))) × (from + result.members ≤ result.next) }
{
    let n = count_at(words, from);
    let mut p = Counted {
        at,
        next: stop(words, from, 1),
        members: 0,
    };
    for _ in 0..n {
        if p.next == words.len() {
            return p;
        }
        let q = put_comparison(out, p.at, words, p.next);
        p = Counted {
            at: q.at,
            next: q.next,
            members: p.members + 1,
        };
    }
    p
}

fn put_clause(out: &mut [u8], at: usize, words: &[i32], from: usize) -> Counted
    requires { from ≤ length words.now }
    ensures printed { Printed (print_clause (drop from words.now)) words.now from out.old at out.new result.at result.next }
    ensures members_value { (result.members ≡ members (drop from words.now)) × (from + result.members ≤ result.next) }
{
    let n = count_at(words, from);
    let a = stop(words, from, 1);
    let i = put_bytes(out, at, CLAUSE);
    let p = put_part(out, i, words, a, n);
    let q = put_comparisons(out, p.at, words, p.next);
    Counted {
        at: put_byte(out, q.at, b'\n'),
        next: q.next,
        members: p.next - a + q.members,
    }
}

// n clauses, and how many literals and comparisons they have.
pub fn put_clauses(out: &mut [u8], at: usize, words: &[i32], from: usize, n: usize) -> Counted
    requires { from ≤ length words.now }
    ensures printed { Printed (times print_clause n (drop from words.now)) words.now from out.old at out.new result.at result.next }
    ensures members_value { result.members ≡ total n (drop from words.now) }
{
    let mut p = Counted {
        at,
        next: from,
        members: 0,
    };
    for _ in 0..n {
        if p.next == words.len() {
            return p;
        }
        let q = put_clause(out, p.at, words, p.next);
        p = Counted {
            members: p.members + q.members,
            ..q
        };
    }
    p
}
