// Reads a set on standard input and prints the clause sheet of its answer, or the listing's one line where there is none.
#![tactic(auto)]

ghost use Rattle.std.specs.Prelude.{◌≤◌, length};

use input::words_of_text;
use sheets::Sheeted;
use std::io;
use std::io::Write;
use text::{Answer, text_of_answer};

// The sheet of a set's words; with 16384 output words 663552 bytes have room for any.
fn sheet_of_set(set: &[i32], output: &mut [i32], work: &mut [i32], out: &mut [u8]) -> usize
    ensures { result ≤ length out.new }
{
    match planner::compile_sheet(set, output, work, out) {
        Sheeted::Compiled(_, m) => m,
        Sheeted::Contradiction => text_of_answer(Answer::Contradiction, 0, 0, &set[..0], out),
        Sheeted::Refused(k) => text_of_answer(Answer::Refused(k), 0, 0, &set[..0], out),
    }
}

fn sheet_of_text(
    text: &[u8],
    words: &mut [i32],
    output: &mut [i32],
    work: &mut [i32],
    out: &mut [u8],
) -> usize
    requires { 32768 ≤ length words.old }
    ensures { result ≤ length out.new }
{
    let Some(n) = words_of_text(text, words) else {
        return text_of_answer(Answer::Unread, 0, 0, &output[..0], out);
    };
    sheet_of_set(&words[..n], output, work, out)
}

fn main(rt: HostRuntime) -> io::Result<()> {
    let mut text = [0u8; 65537];
    let got = streams::read_full(&mut rt.stdin(), &mut text)?;
    let mut words = [0i32; 32768];
    let mut output = [0i32; 16384];
    let mut work = [0i32; 16384];
    let mut out = [0u8; 663552];
    let n = sheet_of_text(&text[..got], &mut words, &mut output, &mut work, &mut out);
    rt.stdout().write_all(&out[..n])
}
