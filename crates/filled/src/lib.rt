// The set of filled places in one word: how many there are, the lowest place that is empty, and one place more or less.
// Each contract is for whatever set f the word x stands for; specs/Filled.antt says how a caller uses it.
#![tactic(auto)]

ghost use Rattle.std.specs.Prelude.{◌≡◌, Bool, ℕ, ◌<◌};
ghost use Rattle.lists.specs.Lists.{tally};
ghost use Rattle.filled.specs.Filled.{width, word_of, including, excluding, lowest_out};

// How many places are filled.
pub fn count(x: u64) -> u8
    ensures { (f : ℕ → Bool) → x ≡ word_of width f → result ≡ tally width f }
{
    u64::count_ones(x) as u8
}

// The lowest place that is empty. Where all are filled it is the first number that is no place: no Option, since the contract names `lowest_out`,
// a number.
pub fn lowest(x: u64) -> u8
    ensures { (f : ℕ → Bool) → x ≡ word_of width f → result ≡ lowest_out width f }
{
    u64::trailing_zeros(!x) as u8
}

// The word with place p filled.
pub fn with(x: u64, p: u8) -> u64
    requires { p < width }
    ensures { (f : ℕ → Bool) → x ≡ word_of width f → result ≡ word_of width (including p f) }
{
    x | (1 << p)
}

// The word with place p empty.
pub fn less(x: u64, p: u8) -> u64
    requires { p < width }
    ensures { (f : ℕ → Bool) → x ≡ word_of width f → result ≡ word_of width (excluding p f) }
{
    x & !(1 << p)
}
