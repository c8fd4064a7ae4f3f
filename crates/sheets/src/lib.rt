// What the call with a sheet does besides compiling: the clause sheet of an answer's words into the lent bytes, or refusal 13. The call is planner's `compile_sheet`.
#![tactic(auto)]

ghost use Rattle.std.specs.Prelude.{◌≡◌, ◌≤◌, ◌<◌, length, drop};
ghost use Rattle.page.specs.Writes.{Wrote, Few};
ghost use Rattle.sheetback.specs.Sheeted.{from_clauses, sheet_text, no_bytes};
ghost use Rattle.sheets.specs.Contract.{SomeAnswered, Finishes};

use lines::{count_at, stop};

// The words of the answer and the bytes of its sheet, a contradiction, or the refusal's number. A `Result` of an `Option` would hide the
// contradiction in a `None`.
#[derive(Drop)]
pub enum Sheeted {
    Compiled(usize, usize),
    Contradiction,
    Refused(usize),
}

// Every byte becomes 0.
pub fn clear_bytes(s: &mut [u8])
    ensures { s.new ≡ no_bytes (length s.old) }
{
    s.fill(0);
}

// Where the count of clauses stands in an answer's words.
fn clauses_at(words: &[i32], bools: usize, ints: usize) -> usize
    requires { (bools < 2147483648) × (ints < 2147483648) }
    ensures { (drop result words.now ≡ from_clauses bools ints words.now) × (result ≤ length words.now) }
{
    let a = stop(words, 0, bools);
    let b = stop(words, a, bools);
    let c = stop(words, b, ints);
    let d = stop(words, c, 1);
    let n = count_at(words, d);
    let e = stop(words, c, 2);
    stop(words, e, 4 * n)
}

// The sheet of an answer's words, and how many bytes it has.
fn write_sheet(set: &[i32], words: &[i32], sheet: &mut [u8]) -> usize
    requires { Few words.now }
    ensures { Wrote sheet.old 0 (sheet_text set.now words.now) sheet.new result }
{
    let b = count_at(set, 0);
    let i = count_at(set, 1);
    let at = clauses_at(words, b, i);
    page::put_sheet(sheet, words, at)
}

// The sheet of an answer of n words, or refusal 13 where it does not fit.
pub fn finish(set: &[i32], output: &mut [i32], n: usize, sheet: &mut [u8]) -> Sheeted
    requires { SomeAnswered set.now output.old n sheet.old }
    ensures { Finishes set.now output.old output.new n sheet.old sheet.new result }
{
    let m = write_sheet(set, &output[..n], sheet);
    if m <= sheet.len() {
        return Sheeted::Compiled(n, m);
    }
    memory::clear(output);
    clear_bytes(sheet);
    Sheeted::Refused(13)
}
