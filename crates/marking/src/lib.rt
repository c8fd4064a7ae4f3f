// The word for Ifs of the folded statements.
#![tactic(auto)]

ghost use Rattle.std.specs.Prelude.{◌≡◌, ◌-◌, ◌≤◌, ◌<◌, length};
ghost use Rattle.memory.specs.Places.{folded, folded_end, ifs_word};
ghost use Rattle.walk.specs.Decode.{read_part};
ghost use Rattle.marking.specs.Mark.{is_code, reads_if, has_code, finds_if, marked};

use memory::{FOLDED, IFS_WORD};

// Whether the word at a place is a code from `low` to `high`.
fn is_code(work: &[i32], q: usize, low: usize, high: usize) -> bool
    ensures { result ≡ is_code (read_part work.now) q low high }
{
    let c = survey::word(work, q);
    low <= c && c <= high
}

// Whether a condition and two integer expressions stand behind a place.
fn reads_if(work: &[i32], at: usize) -> bool
    requires { (folded_end ≤ length work.now) × (at < folded_end) }
    ensures { result ≡ reads_if (read_part work.now) at }
{
    if is_code(work, at + 1, 10, 18) {
        let c = scan::skip(work, at + 1, 63, 0, 0);
        if is_code(work, c.at, 20, 23) {
            let t = scan::skip_int(work, c.at, 63, 0, 0);
            return is_code(work, t.at, 20, 23);
        }
    }
    false
}

// Whether an If's code is among the words from FOLDED to `end`. Every word is looked at: without an early exit the loop is vectorised.
fn has_code(work: &[i32], end: usize) -> bool
    requires { (folded_end ≤ length work.now) × (end ≤ folded_end) }
    ensures { result ≡ has_code (read_part work.now) folded (end - folded) }
{
    let mut found = false;
    for q in FOLDED..end {
        found |= work[q] == 23;
    }
    found
}

// Whether a place from FOLDED to `end` reads as an If.
// A loop, since the proof of the same by `any` did not close: it says what the closure's calls gave, and not what it is to be.
fn finds_if(work: &[i32], end: usize) -> bool
    requires { (folded_end ≤ length work.now) × (end ≤ folded_end) }
    ensures { result ≡ finds_if (read_part work.now) folded (end - folded) }
{
    for i in FOLDED..end {
        if work[i] == 23 && reads_if(work, i) {
            return true;
        }
    }
    false
}

// The same, after a look for the code alone.
fn any_if(work: &[i32], end: usize) -> bool
    requires { (folded_end ≤ length work.now) × (end ≤ folded_end) }
    ensures { result ≡ finds_if (read_part work.now) folded (end - folded) }
{
    has_code(work, end) && finds_if(work, end)
}

// The word for Ifs, of the folded statements up to `end`.
pub fn mark_ifs(work: &mut [i32], end: usize)
    requires { (ifs_word < length work.old) × (end ≤ folded_end) }
    ensures { work.new ≡ marked work.old end }
{
    work[IFS_WORD] = i32::from(any_if(work, end));
}
