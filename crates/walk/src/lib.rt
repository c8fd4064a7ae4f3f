// Numbers and clauses by two walks over the folded words: the types of the code that walks.
#![tactic(auto)]

// How a disjunction is written: the pool alone; one longer member with the pool's literal; two longer members and no pool; else.
#[derive(Clone, Copy)]
pub enum Mode {
    Pool,
    One,
    Two,
    Each,
}

// What the code word at a position asks. A variable, and what follows. A comparison: its operator's code, and where its first side stands.
// Not: what follows. Join: a disjunction?, the count, the first member negated?, the others negated?, the first member's place.
// Cross: the second side negated in the first list?, the first side's place.
#[derive(Drop)]
pub enum Node {
    Var(usize, usize),
    Cmp(usize, usize),
    Not(usize),
    Join(bool, usize, bool, bool, usize),
    Cross(bool, usize),
}

// What a survey finds of an expression, or of so many members: the end, the splitting's next number, the counter behind it, the tally,
// and how many clauses there are in all.
#[derive(Clone, Copy)]
pub struct Surveyed {
    pub at: usize,
    pub base: usize,
    pub n: usize,
    pub longs: usize,
    pub lits: usize,
    pub cmps: usize,
    pub lines: usize,
    pub all: usize,
}

// The next Boolean's and the next integer's number.
#[derive(Clone, Copy)]
pub struct Counters {
    pub bools: usize,
    pub ints: usize,
}
