// The declared domains in a set's words: where each stands, its lowest and highest value, its one value, how many values it has; and a table of all bounds.
// `d` is the place of the set's first domain.
#![tactic(auto)]

ghost use Rattle.std.specs.Prelude.{◌≡◌, ◌+◌, ◌*◌, ◌<◌, ◌^◌, pos, nat_abs, length, get_or};
ghost use Rattle.laws.specs.Ints.{times_low};
ghost use Rattle.laws.specs.Slices.{Has};
ghost use Rattle.syntax.specs.Syntax.{Domain, encode_domain, lower_bound, upper_bound, num_candidates};
ghost use Rattle.domains.specs.Kinds.{domain};
ghost use Rattle.domains.specs.Declared.{Plain, DomainAt, DomainSizedAt, DomainBelow, DomainPost, HasOneValue, BoundsRoom, BoundsPost};

use syntax::Values;

// A word that is a number.
pub fn number(words: &[i32], at: usize) -> usize
    requires { Plain words.now at }
    ensures { (get_or words.now at (pos 0) ≡ pos result) × (result < 2147483648) }
{
    words[at] as usize
}

// The domain whose words begin at `at`.
pub fn domain_at(words: &[i32], at: usize) -> Values<'_>
    requires { DomainAt words.now at }
    ensures { (dm : Domain) → Has words.now at (encode_domain dm) → domain result ≡ dm }
{
    if number(words, at) == 0 {
        return Values::Range(words[at + 1], words[at + 2]);
    }
    let n = number(words, at + 1);
    Values::Enumerative(&words[at + 2..at + 2 + n])
}

pub fn domain_end(words: &[i32], at: usize) -> usize
    requires { DomainAt words.now at }
    ensures { (dm : Domain) → Has words.now at (encode_domain dm) → result ≡ at + length (encode_domain dm) }
{
    if number(words, at) == 0 {
        return at + 3;
    }
    let n = number(words, at + 1);
    at + 2 + n
}

// The place of variable v's domain.
pub fn domain_of(words: &[i32], d: usize, v: usize) -> usize
    requires { DomainBelow words.now d v }
    ensures { DomainPost words.now d v result }
{
    let mut at = d;
    for _ in 0..v {
        at = domain_end(words, at);
    }
    at
}

// The place of the one value of the domain at `at`.
pub fn as_constant(words: &[i32], at: usize) -> Option<usize>
    requires { DomainAt words.now at }
    ensures { (dm : Domain) → Has words.now at (encode_domain dm) → HasOneValue words.now dm result }
{
    match domain_at(words, at) {
        Values::Range(low, high) if low == high => Some(at + 1),
        Values::Enumerative([_]) => Some(at + 2),
        _ => None,
    }
}

pub fn lower_bound(words: &[i32], at: usize) -> i32
    requires { DomainAt words.now at }
    ensures { (dm : Domain) → Has words.now at (encode_domain dm) → result ≡ lower_bound dm }
{
    match domain_at(words, at) {
        Values::Range(low, _) => low,
        Values::Enumerative(values) => values.first().copied().unwrap_or(1),
    }
}

// No twin of `lower_bound` in one function: the choice would be as long.
pub fn upper_bound(words: &[i32], at: usize) -> i32
    requires { DomainAt words.now at }
    ensures { (dm : Domain) → Has words.now at (encode_domain dm) → result ≡ upper_bound dm }
{
    match domain_at(words, at) {
        Values::Range(_, high) => high,
        Values::Enumerative(values) => values.last().copied().unwrap_or(0),
    }
}

// How many values the domain has.
pub fn num_candidates(words: &[i32], at: usize) -> i32
    requires { DomainSizedAt words.now at }
    ensures { (dm : Domain) → Has words.now at (encode_domain dm) → result ≡ num_candidates dm }
{
    match domain_at(words, at) {
        Values::Range(low, high) => high - low + 1,
        Values::Enumerative(values) => values.len() as i32,
    }
}

// The bounds of the n domains from `d` on, stored from `o` on; the place behind the domains.
pub fn write_bounds(words: &[i32], d: usize, n: usize, work: &mut [i32], o: usize) -> usize
    requires { BoundsRoom words.now d n work.old o }
    ensures { BoundsPost words.now d n work.old o work.new result }
{
    let mut at = d;
    let mut p = o;
    for _ in 0..n {
        work[p] = lower_bound(words, at);
        work[p + 1] = upper_bound(words, at);
        at = domain_end(words, at);
        p += 2;
    }
    at
}

// A coefficient times an interval: its lowest value. With the bounds exchanged, its highest.
pub fn times_low(k: i32, low: i32, high: i32) -> i32
    requires { (nat_abs k * nat_abs low < 2 ^ 31) × (nat_abs k * nat_abs high < 2 ^ 31) }
    ensures { result ≡ times_low k low high }
{
    if k < 0 { k * high } else { k * low }
}
