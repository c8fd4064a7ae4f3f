// The clause sheet, written from the words of an answer straight into the lent bytes. Bytes past the end are dropped, and counted.
#![tactic(auto)]

ghost use Rattle.std.specs.Prelude.{◌≡◌, true, [], ◌∷◌, ◌++◌, map, ◌+◌, ◌*◌, ◌-◌, ◌≤◌, ◌<◌, length, drop};
ghost use Rattle.decimal.specs.Decimal.{print_natural, print_number};
ghost use Rattle.laws.specs.Lists.{all, flat};
ghost use Rattle.lines.specs.Lines.{count_word, print_numbers, print_comparison, print_comparisons, print_clause};
ghost use Rattle.page.specs.Sheet.{spaces, literal_item, in_front, pair_parts, comparison_item, comparison_items, clause_items, turn as turned, place_part, place_parts, place_item, place_items, numbered, all_lines, full, sheet_lines, print_sheet};
ghost use Rattle.page.specs.Writes.{Wrote, Few, far, Line, Moves, Shows, Begins, Rooms, pair_text, head_text, Starts};
ghost use Rattle.decimal.specs.Widths.{fitting};

use decimal::{put_byte, put_natural, put_number};
use lines::{count_at, stop};

// Where a line starts, where its next byte goes, and whether no item stands on it yet.
#[derive(Drop)]
pub struct Place {
    pub line: usize,
    pub at: usize,
    pub bare: bool,
}

// The number of digits.
fn natural_width(n: u64) -> usize
    ensures { result ≡ length (print_natural n) }
{
    let mut w = 1;
    let mut m = n;
    while 10 <= m {
        m /= 10;
        w += 1;
    }
    w
}

// The number of characters.
fn width(z: i32) -> usize
    ensures { (result ≡ length (print_number z)) × (result ≤ 11) }
{
    if z < 0 {
        return 1 + natural_width(u64::from(z.unsigned_abs()));
    }
    natural_width(z as u64)
}

// The number of characters of numbers parted by commas.
fn numbers_width(part: &[i32]) -> usize
    requires { Few part.now }
    ensures { (result ≡ length (print_numbers part.now)) × (result ≤ 12 * length part.now) }
{
    let mut w = 0;
    for z in part {
        w += width(*z) + 1;
    }
    w.saturating_sub(1)
}

// Numbers parted by commas.
fn put_numbers(out: &mut [u8], at: usize, part: &[i32]) -> usize
    requires { (at ≤ far) × (Few part.now) }
    ensures { (Wrote out.old at (print_numbers part.now) out.new result) × (result ≤ at + 11 + 12 * length part.now) }
{
    if part.is_empty() {
        return at;
    }
    put_number(out, at, part[0]);
    let mut o = at + width(part[0]);
    for z in &part[1..] {
        put_byte(out, o, b',');
        put_number(out, o + 1, *z);
        o += width(*z) + 1;
    }
    o
}

fn put_spaces(out: &mut [u8], at: usize, n: usize) -> usize
    requires { (at ≤ far) × (n ≤ 80) }
    ensures { (Wrote out.old at (spaces n) out.new result) × (result ≡ at + n) }
{
    let end = out.len().min(at + n);
    for o in at..end {
        out[o] = b' ';
    }
    at + n
}

// The line is filled with spaces and ended. The place after it.
fn end_line(out: &mut [u8], p: Place) -> usize
    requires { (Line p) × (p.line + 81 ≤ far) }
    ensures { (Wrote out.old p.at (spaces (80 - (p.at - p.line)) ++ (10 ∷ [])) out.new result) × (result ≡ p.line + 81) }
{
    let o = put_spaces(out, p.at, p.line + 80 - p.at);
    put_byte(out, o, b'\n');
    o + 1
}

// A continuation line.
fn turn(out: &mut [u8], p: Place) -> Place
    requires { (Line p) × (p.line + 81 ≤ far) }
    ensures { (Moves turned 1 out.old p out.new result) × (result.at ≡ result.line + 10) }
{
    let e = end_line(out, p);
    let o = put_spaces(out, e, 10);
    Place {
        line: e,
        at: o,
        bare: true,
    }
}

// Before an item of w characters: a space behind the item before it, or a new line where it does not fit.
fn begin(out: &mut [u8], p: Place, w: usize) -> Place
    requires { (Line p) × (p.line + 81 ≤ far) × (w ≤ far) }
    ensures { Begins w out.old p out.new result }
{
    if p.bare {
        return p;
    }
    if p.at + 1 + w <= p.line + 80 {
        put_byte(out, p.at, b' ');
        return Place {
            line: p.line,
            at: p.at + 1,
            bare: false,
        };
    }
    turn(out, p)
}

// A clause's literals.
fn place_literals(out: &mut [u8], page: Place, part: &[i32]) -> Place
    requires { (Line page) × (Few part.now) × (page.line + 81 * length part.now ≤ far) }
    ensures { Moves (place_items (map literal_item part.now)) (length part.now) out.old page out.new result }
{
    let mut p = page;
    for z in part {
        let w = width(*z);
        let q = begin(out, p, w);
        put_number(out, q.at, *z);
        p = Place {
            at: q.at + w,
            bare: false,
            ..q
        };
    }
    p
}

// The line, or a continuation line where w characters do not fit.
fn with_room(out: &mut [u8], p: Place, w: usize) -> Place
    requires { (Line p) × (p.line + 81 ≤ far) × (w ≤ far) }
    ensures { Rooms w out.old p out.new result }
{
    if p.at + w <= p.line + 80 {
        return p;
    }
    turn(out, p)
}

fn pair_width(pair: &[i32], more: bool) -> usize
    requires { length pair.now ≤ 2 }
    ensures { (result ≡ length (pair_text pair.now more)) × (result ≤ 25) }
{
    let w = numbers_width(pair);
    if more {
        return w + 1;
    }
    w
}

fn put_pair(out: &mut [u8], at: usize, pair: &[i32], more: bool) -> usize
    requires { (at ≤ far) × (length pair.now ≤ 2) }
    ensures { Wrote out.old at (pair_text pair.now more) out.new result }
{
    let o = put_numbers(out, at, pair);
    if more {
        put_byte(out, o, b',');
        return o + 1;
    }
    o
}

// A pair of a comparison, with the comma behind it where more pairs follow.
fn place_pair(out: &mut [u8], p: Place, pair: &[i32], more: bool) -> Place
    requires { (Line p) × (p.line + 200 ≤ far) × (length pair.now ≤ 2) }
    ensures { Moves (place_part (pair_text pair.now more)) 1 out.old p out.new result }
{
    let w = pair_width(pair, more);
    let q = with_room(out, p, w);
    let o = put_pair(out, q.at, pair, more);
    Place {
        at: o,
        bare: false,
        ..q
    }
}

// The pairs of a comparison.
fn place_pairs(out: &mut [u8], page: Place, part: &[i32]) -> Place
    requires { (Line page) × (Few part.now) × (page.line ≤ 17592186044416) }
    ensures { Moves (place_parts (pair_parts part.now)) (length part.now) out.old page out.new result }
{
    let mut p = page;
    let mut i = 0;
    // from pair to pair; a last word may stand alone
    while i < part.len() {
        let j = stop(part, i, 2);
        p = place_pair(out, p, &part[i..j], j < part.len());
        i = j;
    }
    p
}

// Operator and constant of a comparison.
fn put_head(out: &mut [u8], at: usize, o: &[i32], c: &[i32]) -> usize
    requires { (at ≤ 70368744177664) × (length o.now ≤ 1) × (length c.now ≤ 1) }
    ensures { Wrote out.old at (head_text o.now c.now) out.new result }
{
    let a = put_numbers(out, at, o);
    put_byte(out, a, b':');
    let b = put_numbers(out, a + 1, c);
    put_byte(out, b, b':');
    b + 1
}

fn comparison_width(o: &[i32], c: &[i32], terms: &[i32]) -> usize
    requires { (length o.now ≤ 1) × (length c.now ≤ 1) × (Few terms.now) }
    ensures { (result ≡ length (head_text o.now c.now) + length (print_numbers terms.now)) × (length (head_text o.now c.now) ≤ 26) × (result ≤ far) }
{
    let a = numbers_width(o);
    let b = numbers_width(c);
    a + b + 2 + numbers_width(terms)
}

// A comparison, from its three slices of words.
fn place_terms(out: &mut [u8], page: Place, o: &[i32], c: &[i32], terms: &[i32]) -> Place
    requires { (Line page) × (Few terms.now) × (page.line ≤ 8796093022208) × (length o.now ≤ 1) × (length c.now ≤ 1) × (all fitting terms.now ≡ true) }
    ensures { Moves (place_item (in_front (head_text o.now c.now) (pair_parts terms.now))) (1 + length terms.now) out.old page out.new result }
{
    let w = comparison_width(o, c, terms);
    let q = begin(out, page, w);
    let a = put_head(out, q.at, o, c);
    let p = Place {
        at: a,
        bare: false,
        ..q
    };
    place_pairs(out, p, terms)
}

// A page, and the next word to show.
#[derive(Drop)]
pub struct Placed {
    pub page: Place,
    pub next: usize,
}

fn place_comparison(out: &mut [u8], page: Place, words: &[i32], from: usize) -> Placed
    requires { (Line page) × (Few words.now) × (page.line ≤ 8796093022208) × (from < length words.now) × (all fitting words.now ≡ true) }
    ensures { (Moves (place_item (comparison_item (drop from words.now))) (result.next - from) out.old page out.new result.page) × (Shows (print_comparison (drop from words.now)).rest words.now from result.next) × (from < result.next) }
{
    let a = stop(words, from, 1);
    let b = stop(words, a, 1);
    let n = count_at(words, b);
    let c = stop(words, b, 1);
    let e = stop(words, c, n + n);
    let p = place_terms(out, page, &words[from..a], &words[a..b], &words[c..e]);
    Placed { page: p, next: e }
}

// The comparisons of a clause, from their count on.
fn place_comparisons(out: &mut [u8], page: Place, words: &[i32], from: usize) -> Placed
    requires { (Line page) × (Few words.now) × (page.line ≤ 4398046511104) × (from ≤ length words.now) × (all fitting words.now ≡ true) }
    ensures { (Moves (place_items (comparison_items (count_word (drop from words.now)) (drop 1 (drop from words.now)))) (result.next - from) out.old page out.new result.page) × (Shows (print_comparisons (drop from words.now)).rest words.now from result.next) }
{
    let n = count_at(words, from);
    let mut p = page;
    let mut i = stop(words, from, 1);
    for _ in 0..n {
        if i == words.len() {
            return Placed { page: p, next: i };
        }
        let r = place_comparison(out, p, words, i);
        p = r.page;
        i = r.next;
    }
    Placed { page: p, next: i }
}

// A clause's number, right-aligned in 8 places, and two spaces.
fn start_clause(out: &mut [u8], at: usize, k: u64) -> Place
    requires { (at ≤ 2199023255552) × (k < 100000000) }
    ensures { Starts (numbered k) at out.old out.new result }
{
    let w = natural_width(k);
    let o = put_spaces(out, at, 8 - w);
    put_natural(out, o, k);
    let e = put_spaces(out, o + w, 2);
    Place {
        line: at,
        at: e,
        bare: true,
    }
}

// Clause number k.
fn put_clause(out: &mut [u8], at: usize, k: u64, words: &[i32], from: usize) -> lines::Place
    requires { (at ≤ 2199023255552) × (k < 100000000) × (Few words.now) × (from < length words.now) × (all fitting words.now ≡ true) }
    ensures { (Wrote out.old at (flat (map full (all_lines (place_items (clause_items (drop from words.now)) (numbered k))))) out.new result.at) × (Shows (print_clause (drop from words.now)).rest words.now from result.next) × (result.at + 81 * from ≤ at + 81 * result.next) × (from < result.next) }
{
    let n = count_at(words, from);
    let a = stop(words, from, 1);
    let b = stop(words, a, n);
    let s = start_clause(out, at, k);
    let p = place_literals(out, s, &words[a..b]);
    let q = place_comparisons(out, p, words, b);
    lines::Place {
        at: end_line(out, q.page),
        next: q.next,
    }
}

// n clauses from a place on, the first of them number 1.
fn put_clauses(out: &mut [u8], words: &[i32], from: usize, n: usize) -> usize
    requires { (Few words.now) × (from ≤ length words.now) × (all fitting words.now ≡ true) }
    ensures { Wrote out.old 0 (flat (map full (sheet_lines 1 n (drop from words.now)))) out.new result }
{
    let mut o = 0;
    let mut i = from;
    for k in 0..n {
        if i == words.len() {
            return o;
        }
        let r = put_clause(out, o, k as u64 + 1, words, i);
        o = r.at;
        i = r.next;
    }
    o
}

// The sheet of an answer, from its count of clauses on, and how many bytes it has.
pub fn put_sheet(out: &mut [u8], words: &[i32], from: usize) -> usize
    requires { (Few words.now) × (from ≤ length words.now) }
    ensures { (Wrote out.old 0 (print_sheet (drop from words.now)) out.new result) × (all fitting words.now ≡ true) }
{
    decimal::all_fit(words);
    let n = count_at(words, from);
    let a = stop(words, from, 1);
    put_clauses(out, words, a, n)
}
