// A set of numbers in 256 bits, four words of 64 digits: the empty one, one number more, and the first number after the last one given that is not in it. So
// create looks once at each place, whatever numbers are barred.
// Each contract is for whatever set f the words stand for; specs/Set.antt says how a caller uses it.
#![tactic(auto)]

ghost use Rattle.std.specs.Prelude.{◌≡◌, Bool, false, ℕ, suc, eqb};
ghost use Rattle.rules.specs.Model.{last_number};
ghost use Rattle.rules.specs.Rules.{first_free};
ghost use Rattle.bits.specs.Set.{set_of, Adds};
ghost use Rattle.bits.specs.Search.{FirstClear};

use rules::Number;

// How many digits a word has, how many words there are, and how many digits they have.
const DIGITS: usize = 64;

const WORDS: usize = 4;

const SIZE: usize = WORDS * DIGITS;

// The last number.
const LAST: usize = rules::LAST_NUMBER as usize;

pub type Set = [u64; WORDS];

// The set of no numbers.
pub fn empty() -> Set
    ensures { result ≡ set_of (λ _. false) }
{
    [0; WORDS]
}

// The number n comes in.
pub fn insert(s: &mut Set, n: Number)
    ensures { Adds s.old (eqb n.0) s.new }
{
    let at = n.0 as usize;
    s[at / DIGITS] |= 1 << (at % DIGITS);
}

// The first from n on that is not in the set, a word at a time: the zeros below it in the complement are those that are in the set. Where all of them are, it
// is no digit of the words any more: no Option, since the callers' one test, that it is a number, tells that too.
// The loop goes by words and not by digits, so it is no `for`.
fn first_clear(s: &Set, n: usize) -> usize
    ensures { (f : ℕ → Bool) → s.now ≡ set_of f → FirstClear f n result }
{
    let mut at = n;
    while at < SIZE {
        let zeros = u64::trailing_zeros(!s[at / DIGITS] >> (at % DIGITS)) as usize;
        if zeros < DIGITS {
            return at + zeros;
        }
        at = (at / DIGITS + 1) * DIGITS;
    }
    at
}

// The first number after the last one given that is not in the set, going round at 254. Nobody where all numbers are in it: no Option, since
// the contract names the rule's `first_free`, which gives a number.
pub fn next_clear(s: &Set, last: Number) -> Number
    ensures { (f : ℕ → Bool) → s.now ≡ set_of f → result.0 ≡ first_free f (suc last_number) last.0 }
{
    let first = counter::step(last);
    let up = first_clear(s, first.0 as usize);
    if up <= LAST {
        return Number(up as u8);
    }
    let low = first_clear(s, 0);
    if low <= LAST {
        return Number(low as u8);
    }
    Number(rules::NOBODY)
}
