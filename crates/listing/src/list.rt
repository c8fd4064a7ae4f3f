// From text to listing: the words of a text, the call, the listing of its answer.
ghost use Rattle.std.specs.Prelude.{◌≤◌, length};
ghost use Rattle.listing.specs.Lists.{SomeAnswered, Prints, Lists};

use input::words_of_text;
use lines::count_at;
use text::{Answer, text_of_answer};

// The listing of an answer, from the set's words and the output that the call left.
fn print_answer(answer: planner::Answer, set: &[i32], output: &[i32], out: &mut [u8]) -> usize
    requires { SomeAnswered output.now answer }
    ensures { Prints set.now output.now answer out.old out.new result }
{
    let bools = count_at(set, 0);
    let ints = count_at(set, 1);
    match answer {
        planner::Answer::Compiled(n) => text_of_answer(
            Answer::Compiled,
            bools,
            ints,
            &output[..n],
            out,
        ),
        planner::Answer::Contradiction => {
            text_of_answer(Answer::Contradiction, bools, ints, &output[..0], out)
        }
        planner::Answer::Refused(k) => text_of_answer(
            Answer::Refused(k),
            bools,
            ints,
            &output[..0],
            out,
        ),
    }
}

// The listing of a text, whose words go into `words`.
fn list_with_room(
    text: &[u8],
    words: &mut [i32],
    output: &mut [i32],
    work: &mut [i32],
    out: &mut [u8],
) -> usize
    requires { 32768 ≤ length words.old }
    ensures { Lists text.now output.old work.old output.new work.new out.old out.new result }
{
    let Some(n) = words_of_text(text, words) else {
        return text_of_answer(Answer::Unread, 0, 0, &output[..0], out);
    };
    let set = &words[..n];
    let answer = planner::compile(set, output, work);
    decimal::all_fit(output);
    print_answer(answer, set, output, out)
}

// The listing of a text. The answer and the call's work go into the lent slices; bytes past the end of `out` are dropped.
pub fn list_text(text: &[u8], output: &mut [i32], work: &mut [i32], out: &mut [u8]) -> usize
    ensures { Lists text.now output.old work.old output.new work.new out.old out.new result }
{
    let mut words = [0i32; 32768];
    list_with_room(text, &mut words, output, work, out)
}
