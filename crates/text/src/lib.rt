// The listing of an answer: bytes written from the answer's words. Where the words end early, what is there is printed.
#![tactic(auto)]

ghost use Rattle.std.specs.Prelude.{◌≡◌, [], ◌≤◌, min, length, drop};
ghost use Rattle.std.proofs.lemmas.List.Edits.{sets};
ghost use Rattle.text.specs.Listing.{print_clauses, print_emitted, print_compiled, print_answer};
ghost use Rattle.decimal.specs.Puts.{Puts};

use decimal::keys::{
    BOOLS, CLAUSES, COMPILED, CONTRADICTION, EMITTED, FIXED, INTS, REFUSED, TOTAL, UNREAD,
};
use decimal::{put_byte, put_bytes, put_natural};
use lines::{count_at, put_clauses, put_domains, put_line, stop};

// What the listing says of a text. A refusal stays a number: `text_of_answer` takes any, and a narrower type would ask more of its callers.
#[derive(Drop)]
pub enum Answer {
    Compiled,
    Contradiction,
    Refused(usize),
    Unread,
}

// From the count of clauses on.
fn put_rest(out: &mut [u8], at: usize, words: &[i32], from: usize) -> usize
    requires { from ≤ length words.now }
    ensures { Puts out.old at (print_clauses (drop from words.now)) out.new result }
{
    let n = count_at(words, from);
    let a = stop(words, from, 1);
    let p = put_clauses(out, at, words, a, n);
    let q = put_line(out, p.at, CLAUSES, words, from, 1);
    let k = put_bytes(out, q.at, TOTAL);
    let l = put_natural(out, k, p.members as u64);
    put_byte(out, l, b'\n')
}

// From the emitted counts on.
fn put_emitted(out: &mut [u8], at: usize, words: &[i32], from: usize) -> usize
    requires { from ≤ length words.now }
    ensures { Puts out.old at (print_emitted (drop from words.now)) out.new result }
{
    let a = stop(words, from, 1);
    let n = count_at(words, a);
    let p = put_line(out, at, EMITTED, words, from, 2);
    let q = put_domains(out, p.at, words, p.next, n);
    put_rest(out, q.at, words, q.next)
}

fn put_compiled(out: &mut [u8], bools: usize, ints: usize, words: &[i32]) -> usize
    ensures { Puts out.old 0 (print_compiled bools ints words.now) out.new result }
{
    let i = put_bytes(out, 0, COMPILED);
    let p = put_line(out, i, FIXED, words, 0, bools);
    let q = put_line(out, p.at, BOOLS, words, p.next, bools);
    let r = put_line(out, q.at, INTS, words, q.next, ints);
    put_emitted(out, r.at, words, r.next)
}

// Crate roster has a like function for its own two starts: a common one would be public for two lines.
fn put_refused(out: &mut [u8], k: usize) -> usize
    ensures { Puts out.old 0 (print_answer (Answer.Refused k) 0 0 []) out.new result }
{
    let i = put_bytes(out, 0, REFUSED);
    let j = put_natural(out, i, k as u64);
    put_byte(out, j, b'\n')
}

// The listing of an answer, from the counts of declared variables and the answer's words; the bytes past the end are dropped.
pub fn text_of_answer(
    answer: Answer,
    bools: usize,
    ints: usize,
    words: &[i32],
    out: &mut [u8],
) -> usize
    ensures value { result ≡ min (length (print_answer answer bools ints words.now)) (length out.old) }
    ensures out_after { out.new ≡ sets out.old 0 (print_answer answer bools ints words.now) }
{
    match answer {
        Answer::Compiled => put_compiled(out, bools, ints, words),
        Answer::Contradiction => put_bytes(out, 0, CONTRADICTION),
        Answer::Refused(k) => put_refused(out, k),
        Answer::Unread => put_bytes(out, 0, UNREAD),
    }
}
