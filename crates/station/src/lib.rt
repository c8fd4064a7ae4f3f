// What a station links: every entry for C, over the proved calls. A slice is a pointer and a length in C (tools/station/planner.h).
#![tactic(auto)]

ghost use Rattle.std.specs.Prelude.{◌≡◌, set};
ghost use Rattle.call.specs.Call.{unchosen};
ghost use Rattle.station.specs.Returned.{choices_of, Returns};
ghost use Rattle.station.specs.Joined.{JoinReturns, FindReturns};
ghost use Rattle.station.specs.Rosters.{Judges};
ghost use Rattle.station.specs.Sheets.{SheetReturns};

use call::Choices;
use evaluate::Checked;
use join::Joined;
use planner::Answer;
use sheets::Sheeted;

// The number of words written, the refusal's number negated, or -100 for a contradiction.
fn compile_number(set: &[i32], output: &mut [i32], work: &mut [i32], choices: Choices) -> i64
    ensures { Returns choices set.now output.old work.old output.new work.new result }
{
    match planner::compile_with(set, output, work, choices) {
        Answer::Compiled(n) => n as i64,
        Answer::Contradiction => -100,
        Answer::Refused(k) => 0 - (k as i64),
    }
}

// The call with nothing chosen.
#[unsafe(no_mangle)]
pub extern "C" fn compile_set(set: &[i32], output: &mut [i32], work: &mut [i32]) -> i64
    ensures { Returns unchosen set.now output.old work.old output.new work.new result }
{
    compile_number(set, output, work, Choices { merge: false })
}

// The choices that a number names.
fn choices_of(n: u32) -> Choices
    ensures { result ≡ choices_of n }
{
    Choices { merge: n % 2 == 1 }
}

// The same with choices: 1, merging; other bits are ignored.
#[unsafe(no_mangle)]
pub extern "C" fn compile_set_with(
    set: &[i32],
    output: &mut [i32],
    work: &mut [i32],
    choices: u32,
) -> i64
    ensures { Returns (choices_of choices) set.now output.old work.old output.new work.new result }
{
    compile_number(set, output, work, choices_of(choices))
}

// The joined set's words into the buffer: their number, or the refusal's number negated.
#[unsafe(no_mangle)]
pub extern "C" fn join_sets(
    first: &[i32],
    second: &[i32],
    buffer: &mut [i32],
    work: &mut [i32],
) -> i64
    ensures { JoinReturns first.now second.now buffer.old work.old buffer.new work.new result }
{
    match join::join(first, second, buffer, work) {
        Joined::Words(n) => n as i64,
        Joined::Refused(k) => 0 - (k as i64),
    }
}

// Where a joined statement stands: its set's number, 1 or 2, 0 for none, is returned and stored; behind it where the statement starts, and how many words it has.
#[unsafe(no_mangle)]
pub extern "C" fn find_statement(
    first: &[i32],
    second: &[i32],
    place: &mut [i32],
    work: &mut [i32],
    number: usize,
) -> i64
    ensures { FindReturns first.now second.now place.old work.old place.new work.new number result }
{
    memory::clear(place);
    let p = join::find_place(first, second, work, number);
    let set = p.set;
    let from = p.from;
    let words = p.to - from;
    memory::store_number(place, 0, set);
    memory::store_number(place, 1, from);
    memory::store_number(place, 2, words);
    set as i64
}

// Whether a roster's values satisfy a set: 0 for yes, the number of the first broken statement, or the refusal's number negated.
#[unsafe(no_mangle)]
pub extern "C" fn check_roster(set: &[i32], values: &[i32], work: &mut [i32]) -> i64
    ensures { Judges set.now values.now work.old work.new result }
{
    match evaluate::check_roster(set, values, work) {
        Checked::Yes => 0,
        Checked::Broken(k) => k as i64,
        Checked::Refused(k) => 0 - (k as i64),
    }
}

// A number stored in the first word, where there is one.
fn put_count(counts: &mut [usize], n: usize)
    ensures { counts.new ≡ set counts.old 0 n }
{
    if 0 < counts.len() {
        counts[0] = n;
    }
}

// As `compile_set`, with the sheet of the answer: its bytes' number goes into the word lent, 0 after a contradiction or a refusal.
#[unsafe(no_mangle)]
pub extern "C" fn compile_sheet(
    words: &[i32],
    output: &mut [i32],
    work: &mut [i32],
    sheet: &mut [u8],
    bytes: &mut [usize],
) -> i64
    ensures { SheetReturns words.now output.old work.old output.new work.new sheet.old sheet.new bytes.old bytes.new result }
{
    match planner::compile_sheet(words, output, work, sheet) {
        Sheeted::Compiled(n, m) => {
            put_count(bytes, m);
            n as i64
        }
        Sheeted::Contradiction => {
            put_count(bytes, 0);
            -100
        }
        Sheeted::Refused(k) => {
            put_count(bytes, 0);
            0 - (k as i64)
        }
    }
}
