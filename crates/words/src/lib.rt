// A cursor over lent i32 words: each reader takes what it reads off the front, or gives the refusal.
#![tactic(auto)]

mod refusal; // refusal.rt: why something is refused

ghost use Rattle.std.specs.Prelude.{◌≡◌, ℕ};
ghost use Rattle.std.specs.Result.{OnErr};
ghost use Rattle.words.specs.Parse.{word, up_to, index, number};
ghost use Rattle.words.specs.Cursor.{parsed, parsed_or, numbered, StaysOnNone};
ghost use Rattle.words.specs.Refusal.{number_of};

pub use refusal::Refusal;

// How far from 0 a value may be.
pub const MAX_VALUE: u32 = 1073741823;

// The words that are not read yet. It is copied, as a number is: what a caller keeps stays at its place.
#[derive(Clone, Copy)]
pub struct Cursor<'a> {
    pub rest: &'a [i32],
}

// Each reader steps over the word that it answers, and stays where it stands if it answers none.
impl<'a> Cursor<'a> {
    // The next word.
    pub fn word(&mut self) -> Result<i32, Refusal>
        ensures read { parsed result self.new.rest.now ≡ word self.old.rest.now }
        ensures stays { OnErr result (self.new.rest.now ≡ self.old.rest.now) }
    {
        self.rest
            .split_off_first()
            .copied()
            .ok_or(Refusal::WrongLength)
    }

    // A number from 0 to the limit; None for any other word, which the caller may refuse by any number.
    #[tactic(auto, unfolding(crate::specs::Parse::up_to))]
    pub fn at_most(&mut self, limit: usize) -> Result<Option<usize>, Refusal>
        ensures read { (k : ℕ) → parsed_or k result self.new.rest.now ≡ up_to limit k self.old.rest.now }
        ensures stays { StaysOnNone result (self.new.rest.now ≡ self.old.rest.now) }
    {
        let mut next = *self;
        let w = next.word()?;
        match usize::try_from(w) {
            Ok(n) if n <= limit => {
                *self = next;
                Ok(Some(n))
            }
            _ => Ok(None),
        }
    }

    // A number from 0 to the limit; any other word is refused by the number given.
    pub fn up_to(&mut self, limit: usize, refusal: usize) -> Result<usize, usize>
        ensures read { numbered result self.new.rest.now ≡ up_to limit refusal self.old.rest.now }
        ensures stays { OnErr result (self.new.rest.now ≡ self.old.rest.now) }
    {
        match self.at_most(limit) {
            Ok(Some(n)) => Ok(n),
            Ok(None) => Err(refusal),
            Err(end) => Err(end.number()),
        }
    }

    // The same where the caller's refusal is one of the documents'.
    pub fn at_most_or(&mut self, limit: usize, refusal: Refusal) -> Result<usize, Refusal>
        ensures read { parsed result self.new.rest.now ≡ up_to limit (number_of refusal) self.old.rest.now }
        ensures stays { OnErr result (self.new.rest.now ≡ self.old.rest.now) }
    {
        self.at_most(limit)?.ok_or(refusal)
    }

    // An index below n.
    #[tactic(auto, unfolding(crate::specs::Parse::index))]
    pub fn index(&mut self, n: usize) -> Result<usize, Refusal>
        ensures read { parsed result self.new.rest.now ≡ index n self.old.rest.now }
        ensures stays { OnErr result (self.new.rest.now ≡ self.old.rest.now) }
    {
        let mut next = *self;
        match usize::try_from(next.word()?) {
            Ok(i) if i < n => {
                *self = next;
                Ok(i)
            }
            _ => Err(Refusal::Undeclared),
        }
    }

    // A value, a coefficient or a constant.
    #[tactic(auto, unfolding(crate::specs::Parse::number))]
    pub fn value(&mut self) -> Result<i32, Refusal>
        ensures read { parsed result self.new.rest.now ≡ number self.old.rest.now }
        ensures stays { OnErr result (self.new.rest.now ≡ self.old.rest.now) }
    {
        let mut next = *self;
        let w = next.word()?;
        if w.unsigned_abs() <= MAX_VALUE {
            *self = next;
            Ok(w)
        } else {
            Err(Refusal::OutOfRange)
        }
    }
}
