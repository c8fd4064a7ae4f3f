// Codes where no level is left.
ghost use Rattle.std.specs.Prelude.{◌≡◌};
ghost use Rattle.words.specs.Refusal.{number_of};
ghost use Rattle.read.specs.Read.{kind_bool, kind_int, too_deep_bool, too_deep_int};

use words::Refusal;

// The refusal of a Boolean code where no level is left.
#[tactic(auto, using(crate::proofs::Codes::bool_levels))]
pub fn bool_too_deep(w: i32) -> Refusal
    ensures { number_of result ≡ too_deep_bool (kind_bool w) }
{
    match w {
        10..=18 => Refusal::TooDeep,
        _ => Refusal::UnknownCode,
    }
}

// The same for an integer code.
#[tactic(auto, using(crate::proofs::Codes::int_levels))]
pub fn int_too_deep(w: i32) -> Refusal
    ensures { number_of result ≡ too_deep_int (kind_int w) }
{
    match w {
        20..=23 => Refusal::TooDeep,
        _ => Refusal::UnknownCode,
    }
}
