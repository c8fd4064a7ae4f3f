// Refusals 1 to 11, then folding and propagation: what a set's words give before its clauses.
#![tactic(auto)]

ghost use Rattle.std.specs.Prelude.{◌≡◌, ◌≤◌, length};
ghost use Rattle.memory.specs.Places.{maps_end};
ghost use Rattle.settle.specs.Settle.{SomeTaken, FoldPost, maps_empty, SettlePost};

use propagate::Status;

// Where the folded statements end, and how many variables the set declares.
#[derive(Drop)]
pub struct Places {
    pub end: usize,
    pub bools: usize,
    pub ints: usize,
}

#[derive(Drop)]
pub enum Settling {
    Refused(usize),
    Contradiction,
    Folded(Places),
}

// Of an accepted set. A contradiction leaves zeros.
fn fold_taken(set: &[i32], work: &mut [i32], bools: usize, ints: usize) -> Settling
    requires { SomeTaken set.now work.old bools ints }
    ensures { FoldPost set.now work.old bools ints work.new result }
{
    let o = propagate::optimize(set, work);
    if o.status != Status::Unchanged {
        memory::clear(work);
        return Settling::Contradiction;
    }
    Settling::Folded(Places {
        end: o.end,
        bools,
        ints,
    })
}

// The maps of variables are emptied; every other word stays.
fn clear_maps(work: &mut [i32])
    requires { maps_end ≤ length work.old }
    ensures { work.new ≡ maps_empty work.old }
{
    memory::clear(&mut work[memory::BOOL_MAP..memory::MAPS_END]);
}

// Of any words, whatever the work slice holds. A refusal or a contradiction leaves zeros.
pub fn settle(set: &[i32], work: &mut [i32]) -> Settling
    ensures { SettlePost set.now work.old work.new result }
{
    match accept::accept(set, work) {
        Err(refusal) => {
            memory::clear(work);
            Settling::Refused(refusal.number())
        }
        Ok(d) => {
            clear_maps(work);
            fold_taken(set, work, d.bools, d.ints)
        }
    }
}
