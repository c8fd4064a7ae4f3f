// The words of the input text: lines with fixed keys, numbers parted by commas.
#![tactic(auto)]

ghost use Rattle.std.specs.Prelude.{◌≡◌, cond, [], ◌∷◌, ◌+◌, ◌≤◌, ◌<◌, ◌==◌, length, drop, position};
ghost use Rattle.std.proofs.Math.Option.{none, some};
ghost use Rattle.input.specs.ReadText.{split, after, read_numbers as numbers, count_line as one_count, lines as all_lines, read_text};
ghost use Rattle.decimal.specs.Bytes.{comma};
ghost use Rattle.input.specs.Input.{Found, Filled, Stepped, Lined, Inside, head, tail, words_of, words_after};

use decimal::keys::{BOOLS, INT, INTS, STATEMENT, STATEMENTS};
use decimal::read_number;

fn position_of(s: u8, text: &[u8]) -> Option<usize>
    ensures { result ≡ position (λ b. b == s) text.now }
{
    text.iter().position(|b| *b == s)
}

// The first place of a byte from `at` on, or the end.
fn find(text: &[u8], at: usize, s: u8) -> usize
    requires { at ≤ length text.now }
    ensures { Found s text.now at result }
{
    match position_of(s, &text[at..]) {
        Some(i) => at + i,
        None => text.len(),
    }
}

// Whether a key stands in front of a line.
pub fn has_key(line: &[u8], key: &[u8]) -> bool
    ensures { after key.now line.now ≡ cond result (some (drop (length key.now) line.now)) none }
{
    line.starts_with(key)
}

// A number stored at k, and how many words there then are.
fn store(w: i32, words: &mut [i32], k: usize) -> usize
    requires { k < 131072 }
    ensures { Filled words.old k (some (w ∷ [])) (k + 1) words.new (Some result) }
{
    if k < words.len() {
        words[k] = w;
    }
    k + 1
}

// Numbers parted by commas, stored from k on; how many words there then are.
pub fn read_numbers(part: &[u8], words: &mut [i32], k: usize) -> Option<usize>
    requires { k + length part.now < 131072 }
    ensures { Filled words.old k (numbers (split comma part.now)) (k + length part.now + 1) words.new result }
{
    let mut i = 0;
    let mut n = k;
    loop {
        let e = find(part, i, b',');
        n = store(read_number(&part[i..e])?, words, n);
        if e == part.len() {
            return Some(n);
        }
        i = e + 1;
    }
}

// A line with a key and one number: where the next line starts, and how many words there are.
fn count_line(
    text: &[u8],
    at: usize,
    key: &[u8],
    words: &mut [i32],
    k: usize,
) -> Option<(usize, usize)>
    requires { Inside text.now at k }
    ensures { Stepped (one_count key.now) text.now words.old at k words.new result }
{
    let e = find(text, at, b'\n');
    if e == text.len() {
        return None;
    }
    let line = &text[at..e];
    if !has_key(line, key) {
        return None;
    }
    let w = read_number(&line[key.len()..])?;
    Some((e + 1, store(w, words, k)))
}

// A line with a key and numbers, or `Some(None)` where the next one has another key.
fn one_line(
    text: &[u8],
    at: usize,
    key: &[u8],
    words: &mut [i32],
    k: usize,
) -> Option<Option<(usize, usize)>>
    requires { Inside text.now at k }
    ensures { Lined key.now text.now words.old at k words.new result }
{
    let e = find(text, at, b'\n');
    let line = &text[at..e];
    if !has_key(line, key) {
        return Some(None);
    }
    if e == text.len() {
        return None;
    }
    let m = read_numbers(&line[key.len()..], words, k)?;
    Some(Some((e + 1, m)))
}

// Every line with a key.
fn lines(text: &[u8], at: usize, key: &[u8], words: &mut [i32], k: usize) -> Option<(usize, usize)>
    requires inside { Inside text.now at k }
    requires key_nonzero { 0 < length key.now }
    ensures { Stepped (all_lines key.now) text.now words.old at k words.new result }
{
    let mut i = at;
    let mut n = k;
    // from line to line, each of its own length
    while i < text.len() {
        let Some((j, m)) = one_line(text, i, key, words, n)? else {
            return Some((i, n));
        };
        i = j;
        n = m;
    }
    Some((i, n))
}

// The lines before the statements.
fn read_head(text: &[u8], words: &mut [i32]) -> Option<(usize, usize)>
    requires { length text.now ≤ 65536 }
    ensures { Stepped head text.now words.old 0 0 words.new result }
{
    let (a, j) = count_line(text, 0, BOOLS, words, 0)?;
    let (b, k) = count_line(text, a, INTS, words, j)?;
    lines(text, b, INT, words, k)
}

// The statements.
fn read_tail(text: &[u8], at: usize, words: &mut [i32], k: usize) -> Option<(usize, usize)>
    requires { Inside text.now at k }
    ensures { Stepped tail text.now words.old at k words.new result }
{
    let (a, n) = count_line(text, at, STATEMENTS, words, k)?;
    lines(text, a, STATEMENT, words, n)
}

// The whole text.
fn read_lines(text: &[u8], words: &mut [i32]) -> Option<usize>
    ensures { Filled words.old 0 (read_text text.now) 65536 words.new result }
{
    if text.len() > 65536 {
        return None;
    }
    let (a, k) = read_head(text, words)?;
    let (e, n) = read_tail(text, a, words, k)?;
    if e < text.len() {
        return None;
    }
    Some(n)
}

// The words of a text, stored from 0 on, and how many there are, or None where it is unread; those past the end are counted only.
pub fn words_of_text(text: &[u8], words: &mut [i32]) -> Option<usize>
    ensures value { result ≡ words_of (read_text text.now) }
    ensures words_after { words.new ≡ words_after (length words.old) (read_text text.now) }
{
    memory::clear(words);
    let n = read_lines(text, words);
    if n.is_none() {
        memory::clear(words);
    }
    n
}
