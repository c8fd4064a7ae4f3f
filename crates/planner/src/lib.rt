// The call: a set's words are compiled into the output slice, or refused, or found contradictory.
#![tactic(auto)]

ghost use Rattle.std.specs.Prelude.{◌≡◌, min};
ghost use Rattle.syntax.specs.Words.{max_answer_words};
ghost use Rattle.call.specs.Call.{unchosen};
ghost use Rattle.sheets.specs.Contract.{Sheets};
ghost use Rattle.planner.specs.Contract.{Compiles};
ghost use Rattle.planner.specs.Steps.{SomeHeld, Prepares, SomeNumbered, WritesClauses, SomeWrites, WrittenAnswer, SomeEmits, EmitPost};

use call::Choices;
use numbering::Room;
use settle::Settling;
use setwriter::Rewritten;
use sheets::Sheeted;
use walk::Counters;

// The number of words written, a contradiction, or the refusal's number.
#[derive(Drop)]
pub enum Answer {
    Compiled(usize),
    Contradiction,
    Refused(usize),
}

// The table of the declared domains and the word for Ifs, of the folded statements up to `end`.
fn prepare(set: &[i32], work: &mut [i32], ints: usize, end: usize)
    requires { SomeHeld set.now work.old ints end }
    ensures { Prepares set.now work.old ints end work.new }
{
    memory::clear_words(work, memory::DECLARED_DOMAINS, memory::TABLE);
    declared::write_domains(set, 2, ints, work);
    marking::mark_ifs(work, end);
}

// The clauses of all statements from a place on, by the slice that the first walk leaves: from its maps where no If stands, else each statement is
// numbered again right before it is written. from: how many Booleans merging gave a number.
fn write_clauses(
    set: &[i32],
    work: &mut [i32],
    end: usize,
    room: Room,
    merge: bool,
    from: usize,
    part: &mut [i32],
    o: usize,
) -> Rewritten
    requires { SomeNumbered merge set.now work.old end room from part.old o }
    ensures { WritesClauses merge set.now work.old end room from part.old o part.new result.used result.at result.clauses }
{
    if scan::has_ifs(work) {
        let n = setwriter::begin_walk(work, end, merge);
        return setwriter::write_numbered(set, work, end, room, n, part, o);
    }
    let w = setwriter::write_by_maps(set, work, end, from, part, o);
    Rewritten {
        used: 0,
        at: w.at,
        clauses: w.clauses,
    }
}

// The answer's words into a part of the output: how many there are. Where they do not fit, a number beyond the part's length, and its words say nothing.
fn write_answer(
    set: &[i32],
    work: &mut [i32],
    bools: usize,
    ints: usize,
    end: usize,
    merge: bool,
    part: &mut [i32],
) -> usize
    requires { SomeWrites set.now work.old bools ints end part.old }
    ensures { WrittenAnswer merge set.now work.old bools ints end part.old part.new result }
{
    prepare(set, work, ints, end);
    let room = Room {
        records: 2 * bools + ints + 2,
        cap: part.len(),
    };
    let n = setwriter::begin_walk(work, end, merge);
    let c = setnumbers::number_statements(work, part, end, room, n);
    if room.cap < c.used {
        return c.used;
    }
    let count = room.records + 4 * c.ints;
    if room.cap <= count {
        return count + 1;
    }
    front::write_front(
        work,
        bools,
        ints,
        Counters {
            bools: c.bools,
            ints: c.ints,
        },
        part,
    );
    let w = write_clauses(set, work, end, room, merge, n, part, count + 1);
    if room.cap < w.used {
        return w.used;
    }
    let at = w.at;
    if at <= room.cap {
        folding::put(part, count, w.clauses);
    }
    at
}

// The words of the output that an answer can fill.
fn lent(n: usize) -> usize
    ensures { result ≡ min n max_answer_words }
{
    if n < memory::MOST_WORDS {
        return n;
    }
    memory::MOST_WORDS
}

// The answer of a settled set: its words, or refusal 12 where they do not fit.
fn emit(
    set: &[i32],
    out: &mut [i32],
    work: &mut [i32],
    bools: usize,
    ints: usize,
    end: usize,
    merge: bool,
) -> Answer
    requires { SomeEmits set.now work.old bools ints end out.old }
    ensures { EmitPost merge set.now work.old bools ints end out.old out.new result }
{
    let room = lent(out.len());
    let words = write_answer(set, work, bools, ints, end, merge, &mut out[..room]);
    if words <= room {
        return Answer::Compiled(words);
    }
    memory::clear(out);
    Answer::Refused(12)
}

// The call with a caller's choices. The output is zero behind the words written, and wholly so after a contradiction or a refusal; the work slice is zero after every call.
pub fn compile_with(set: &[i32], output: &mut [i32], work: &mut [i32], choices: Choices) -> Answer
    ensures { Compiles choices set.now output.old work.old output.new work.new result }
{
    memory::clear(output);
    match settle::settle(set, work) {
        Settling::Refused(k) => Answer::Refused(k),
        Settling::Contradiction => Answer::Contradiction,
        Settling::Folded(p) => {
            let r = emit(set, output, work, p.bools, p.ints, p.end, choices.merge);
            memory::clear(work);
            r
        }
    }
}

// The call with nothing chosen.
pub fn compile(set: &[i32], output: &mut [i32], work: &mut [i32]) -> Answer
    ensures { Compiles unchosen set.now output.old work.old output.new work.new result }
{
    compile_with(set, output, work, Choices { merge: false })
}

// As `compile`, with the sheet of the answer, zero behind it. After a contradiction or a refusal output and sheet are zero.
pub fn compile_sheet(set: &[i32], output: &mut [i32], work: &mut [i32], sheet: &mut [u8]) -> Sheeted
    ensures { Sheets set.now output.old work.old output.new work.new sheet.old sheet.new result }
{
    sheets::clear_bytes(sheet);
    match compile(set, output, work) {
        Answer::Compiled(n) => sheets::finish(set, output, n, sheet),
        Answer::Contradiction => Sheeted::Contradiction,
        Answer::Refused(k) => Sheeted::Refused(k),
    }
}
