// The work slice: its places, and the functions that read, store, clear and copy words.
#![tactic(auto)]

ghost use Rattle.std.specs.Prelude.{◌≡◌, ◌+◌, ◌≤◌, ◌<◌, pos, length, take, drop, get_or, set};
ghost use Rattle.laws.specs.Slices.{Stored, zeros};
ghost use Rattle.memory.specs.Number.{nat};
ghost use Rattle.memory.specs.Cleared.{cleared};

// ---- places; below the first, a fixed value for each declared Boolean

pub const FOLDED: usize = 512;

pub const FOLDED_END: usize = 4608;

// The maps hold number plus 1, or 0.
pub const BOOL_MAP: usize = 4608;

pub const INT_MAP: usize = 5120;

pub const MAPS_END: usize = 5376;

// The cell of the folded word at p is at CELLS + p.
pub const CELLS: usize = 4864;

// Two words for each declared integer, while refusals are looked for.
pub const BOUNDS: usize = 7936;

// Not 0 where the folded statements have Ifs.
pub const IFS_WORD: usize = 9476;

// Three words for each declared integer: lowest, highest, number of values less 1.
pub const DECLARED_DOMAINS: usize = 9480;

// The table at hand: a copy of its rows, then three words for each column.
pub const TABLE: usize = 10248;

pub const WORK_LENGTH: usize = 16384;

// ---- limits

// Document 01's: declared Booleans and integers, any other count, words of a set.
pub const MAX_BOOLS: usize = 512;

pub const MAX_INTS: usize = 256;

pub const MAX_COUNT: usize = 4096;

pub const MAX_SET_WORDS: usize = 4096;

// Counters and weights stop here.
pub const LIMIT: usize = 1073741824;

// The same as a word, and negated.
pub const LIMIT_WORD: i32 = 1073741824;

pub const LIMIT_NEGATED: i32 = -1073741824;

// The longest answer.
pub const MOST_WORDS: usize = 16777216;

// One more: positions in an answer stop here.
pub const CAP: usize = 16777217;

// ---- reading

// A word; 0 past the end.
pub fn plain(s: &[i32], i: usize) -> i32
    ensures { result ≡ get_or s.now i (pos 0) }
{
    s.get(i).copied().unwrap_or(0)
}

// The number at a place; 0 for a negative word and past the end.
pub fn entry(work: &[i32], i: usize) -> usize
    ensures { result ≡ nat (get_or work.now i (pos 0)) }
{
    usize::try_from(plain(work, i)).unwrap_or(0)
}

// ---- stores; past the end nothing is stored

pub fn store(slice: &mut [i32], i: usize, x: i32)
    ensures { (slice.new ≡ set slice.old i x) × (length slice.new ≡ length slice.old) }
{
    // with `get_mut` it is as long, and the proof did not close
    if i < slice.len() {
        slice[i] = x;
    }
}

// A number.
pub fn store_number(place: &mut [i32], i: usize, x: usize)
    requires { x < 2147483648 }
    ensures { (place.new ≡ set place.old i (pos x)) × (length place.new ≡ length place.old) }
{
    store(place, i, x as i32);
}

// ---- clearing

// Every word becomes 0.
pub fn clear(s: &mut [i32])
    ensures { s.new ≡ zeros (length s.old) }
{
    s.fill(0);
}

// The words from `from` to `to` become 0; the others stay.
pub fn clear_words(work: &mut [i32], from: usize, to: usize)
    requires { to ≤ length work.old }
    ensures { work.new ≡ cleared work.old from to }
{
    // no `fill`: `from` may lie behind `to`
    for i in from..to {
        work[i] = 0;
    }
}

// ---- copying from one slice to another

pub fn copy_word(words: &[i32], at: usize, work: &mut [i32], o: usize)
    requires { (at < length words.now) × (o < length work.old) }
    ensures { work.new ≡ set work.old o (get_or words.now at (pos 0)) }
{
    work[o] = words[at];
}

// The n words from `at` on, written from `o` on.
pub fn copy_words(words: &[i32], at: usize, n: usize, work: &mut [i32], o: usize) -> usize
    requires { (at + n ≤ length words.now) × (o + n ≤ length work.old) }
    ensures { Stored work.old o (take n (drop at words.now)) work.new result }
{
    for k in 0..n {
        copy_word(words, at + k, work, o + k);
    }
    o + n
}
