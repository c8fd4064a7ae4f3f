// The table of the declared domains in the work slice.
#![tactic(auto)]

ghost use Rattle.memory.specs.Places.{declared_domains};
ghost use Rattle.declared.specs.DomainTable.{TableRoom, TablePost};

// The table of the set's n domains, which stand from `d` on.
pub fn write_domains(set: &[i32], d: usize, n: usize, work: &mut [i32])
    requires { TableRoom set.now d n work.old declared_domains }
    ensures { TablePost set.now d n work.old declared_domains work.new }
{
    let mut at = d;
    let mut p = memory::DECLARED_DOMAINS;
    for _ in 0..n {
        work[p] = domains::lower_bound(set, at);
        work[p + 1] = domains::upper_bound(set, at);
        work[p + 2] = domains::num_candidates(set, at) - 1;
        at = domains::domain_end(set, at);
        p += 3;
    }
}
