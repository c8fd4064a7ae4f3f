// What a set says: definitions and theorems in specs/; here the two kinds of domains.
#![tactic(auto)]

// The values of a domain: those from a lowest to a highest one, or those listed.
#[derive(Clone, Copy)]
pub enum Values<'a> {
    Range(i32, i32),
    Enumerative(&'a [i32]),
}
