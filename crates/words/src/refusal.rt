// Why a set, an answer or a sheet is refused.
ghost use Rattle.std.specs.Prelude.{◌≡◌};
ghost use Rattle.words.specs.Refusal.{number_of};

// The numbers are document 01's; C and the listing see them.
#[derive(Clone, Copy, Debug, PartialEq, Eq)]
pub enum Refusal {
    ShortWork = 1, // the work slice has fewer than 16384 words
    LongSet = 2, // the set has more than 4096 words
    WrongLength = 3, // the set ends early, or words follow the last statement
    OutOfRange = 4, // a count, value, operator or cell is out of range
    UnknownCode = 5, // an expression, statement or domain code is unknown at its place
    Undeclared = 6, // a variable is not declared
    BadDomain = 7, // a domain is empty or its values do not rise
    TooDeep = 8, // an expression is deeper than 64 levels
    HeavyWeight = 9, // a weight is over 1073741823
    ManyVariables = 10, // too many different integer variables in one place
    WideColumn = 11, // a column's span is over 4096
    LongAnswer = 12, // the answer is longer than the output slice, or than 16777216 words
    ShortSheet = 13, // the sheet slice is shorter than the finished sheet
    CountOfValues = 14, // the number of values is not that of the declared variables
    OutsideDomain = 15, // a value is outside its domain, a Boolean's neither 0 nor 1
    DeclaredOtherwise = 16, // the declarations of two joined sets differ
    LongJoin = 17, // the joined set has over 4096 words, or more than the buffer
}

impl Refusal {
    pub fn number(self) -> usize
        ensures { result ≡ number_of self }
    {
        self as usize
    }
}
