// For comparison with the Rust: the fixed values and the remaining statements of a set, behind folding and propagation.
#![tactic(auto)]

ghost use Rattle.std.specs.Prelude.{◌≤◌, length};
ghost use Rattle.memory.specs.Places.{folded, folded_end};
ghost use Rattle.syntax.specs.Words.{max_bools};
ghost use Rattle.remaining.specs.Remaining.{Remains, Copied};

use settle::Settling;

// The fixed values, then the folded statements: how many words these are. Where they do not fit, none is copied.
fn copy_folded(work: &[i32], bools: usize, end: usize, out: &mut [i32]) -> usize
    requires { (bools ≤ max_bools) × (folded ≤ end) × (end ≤ folded_end) × (end ≤ length work.now) }
    ensures { Copied work.now bools end out.old out.new result }
{
    let n = end - memory::FOLDED;
    if out.len() < bools + n {
        return bools + n;
    }
    let o = memory::copy_words(work, 0, bools, out, 0);
    memory::copy_words(work, memory::FOLDED, n, out, o)
}

// The refusal's number; 100 for a contradiction; or 1000 and the number of words. The work slice is zero afterwards.
#[unsafe(no_mangle)]
pub extern "C" fn settle_set(set: &[i32], out: &mut [i32], work: &mut [i32]) -> usize
    ensures { Remains set.now out.old work.old out.new work.new result }
{
    memory::clear(out);
    match settle::settle(set, work) {
        Settling::Refused(k) => k,
        Settling::Contradiction => 100,
        Settling::Folded(q) => {
            let n = copy_folded(work, q.bools, q.end, out);
            memory::clear(work);
            1000 + n
        }
    }
}
