// For tests: the sheet of clause words, from their count on, exported to C.
#![tactic(auto)]

ghost use Rattle.std.specs.Prelude.{◌≤◌, length};
ghost use Rattle.syntax.specs.Words.{max_answer_words};
ghost use Rattle.page.specs.Sheet.{print_sheet};
ghost use Rattle.page.specs.Writes.{Wrote};

// The sheet's bytes; those past the end are dropped, and counted. More words than an answer can have: nothing.
#[unsafe(no_mangle)]
pub extern "C" fn sheet_of_words(words: &[i32], out: &mut [u8]) -> usize
    ensures { length words.now ≤ max_answer_words → Wrote out.old 0 (print_sheet words.now) out.new result }
{
    if memory::MOST_WORDS < words.len() {
        return 0;
    }
    page::put_sheet(out, words, 0)
}
