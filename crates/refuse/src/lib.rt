// For stations and tests: refusals 1 to 11 of a set, by number, with the work slice zeroed.
#![tactic(auto)]

ghost use Rattle.std.specs.Prelude.{◌≡◌, length};
ghost use Rattle.laws.specs.Slices.{zeros};
ghost use Rattle.accept.specs.Accepted.{accepted};
ghost use Rattle.refuse.specs.Refuse.{refusal_of};

// The refusal, or 0.
#[unsafe(no_mangle)]
pub extern "C" fn refuse_set(set: &[i32], work: &mut [i32]) -> usize
    ensures { (result ≡ refusal_of (accepted (length work.old) set.now)) × (work.new ≡ zeros (length work.old)) }
{
    let answer = accept::accept(set, work);
    memory::clear(work);
    match answer {
        Ok(_) => 0,
        Err(refusal) => refusal.number(),
    }
}
