// The answer's words in front of the records of the emitted integers: the fixed values, the maps and the two counts.
#![tactic(auto)]

ghost use Rattle.std.specs.Prelude.{◌≡◌, ◌+◌, ◌≤◌, ◌<◌, pos, length, get_or};
ghost use Rattle.laws.specs.Writes.{cap, Wrote, Open};
ghost use Rattle.memory.specs.Places.{maps_end, limit};
ghost use Rattle.memory.specs.Number.{nat};
ghost use Rattle.syntax.specs.Words.{max_bools, max_ints};
ghost use Rattle.front.specs.Front.{naturals, maps_words, front_words};

use walk::Counters;

// n words of the work slice from a place on, 0 for a negative one.
fn put_words(work: &[i32], from: usize, n: usize, out: &mut [i32], o: usize) -> usize
    requires { (from + n ≤ length work.now) × Open out.old o }
    ensures { Wrote out.old o (naturals work.now from n) out.new result }
{
    let mut p = o;
    for i in from..from + n {
        p = output::put(out, p, work[i].max(0));
    }
    p
}

// The fixed values and the two maps; bools, ints: how many variables are declared.
fn put_maps(work: &[i32], bools: usize, ints: usize, out: &mut [i32]) -> usize
    requires { (bools ≤ max_bools) × (ints ≤ max_ints) × (maps_end ≤ length work.now) × (length out.old ≤ cap) }
    ensures { Wrote out.old 0 (maps_words work.now bools ints) out.new result }
{
    let a = output::put_all(&work[..bools], out, 0);
    let b = output::put_all(&work[memory::BOOL_MAP..memory::BOOL_MAP + bools], out, a);
    put_words(work, memory::INT_MAP, ints, out, b)
}

// The words in front of the records; how many they are. c: how many numbers are emitted.
pub fn write_front(work: &[i32], bools: usize, ints: usize, c: Counters, out: &mut [i32]) -> usize
    requires { ((bools ≤ max_bools) × (ints ≤ max_ints) × (maps_end ≤ length work.now) × (length out.old ≤ cap)) × ((c.bools ≤ limit) × (c.ints ≤ limit)) }
    ensures { Wrote out.old 0 (front_words work.now bools ints c) out.new result }
{
    let x = c.bools;
    let y = c.ints;
    let a = put_maps(work, bools, ints, out);
    let b = output::put(out, a, x as i32);
    output::put(out, b, y as i32)
}
