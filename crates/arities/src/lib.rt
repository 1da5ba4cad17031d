// Reads second words: how many arguments a constructor has, and the arity of an arm, which no arm before it in its match may have with the same tag.

#![tactic(auto)]

ghost use Rattle.std.specs.Prelude.{◌≡◌, ◌/◌, ◌%◌};
ghost use Rattle.language.specs.Dead.{dead};
ghost use Rattle.language.specs.Setting.{in_version};
ghost use Rattle.language.specs.Read.{second, unlike};
ghost use Rattle.arities.specs.Marks.{mark_of, unmarked, arity, counted};

use language::{Fault, LOW_BYTE, Refusal};

// What a second word tells: a count, and the place after it.
#[derive(Clone, Copy)]
pub struct Counted {
    pub count: u16,
    pub to: usize,
}

// A second word: how many arguments.
#[tactic(auto, unfolding(language::specs::Read::second))]
pub fn second_at(s: &[u16], at: usize) -> Result<Counted, Refusal>
    ensures { counted result ≡ second s.now at }
{
    if s.len() <= at {
        return Err(Fault::NoneLeft.at(s.len()));
    }
    let count = s[at];
    if u16::from(language::MOST_ARGUMENTS) < count {
        return Err(Fault::OutOfRange.at(at));
    }
    Ok(Counted { count, to: at + 1 })
}

// An arm's mark: the low bytes of its two words, its tag and its arity, in one word.
pub fn mark(w: u16, m: u16) -> u16
    ensures { result ≡ mark_of w m }
{
    w % LOW_BYTE * LOW_BYTE + m % LOW_BYTE
}

// Whether one of the marks is this one.
fn is_among(x: u16, marks: &[u16]) -> bool
    ensures { result ≡ dead (x / 256) (x % 256) (unmarked marks.now) }
{
    marks.iter().any(|mark| *mark == x)
}

// The second word of an arm with the head w, its arity; the arms before it in its match have these marks.
#[tactic(auto, using(crate::proofs::Ways::dead_there, crate::proofs::Ways::alive_there), unfolding(language::specs::Read::unlike, language::specs::Read::then))]
fn unlike_at(s: &[u16], at: usize, w: u16, marks: &[u16]) -> Result<Counted, Refusal>
    ensures { counted result ≡ unlike s.now (unmarked marks.now) (w % 256) at }
{
    let arity = second_at(s, at)?;
    if is_among(mark(w, arity.count), marks) {
        return Err(Fault::DeadArm.at(at));
    }
    Ok(arity)
}

// An arm's two words: its arity.
#[tactic(auto, unfolding(crate::specs::Marks::arity))]
pub fn arity_at(version: u8, s: &[u16], at: usize, marks: &[u16]) -> Result<Counted, Refusal>
    ensures { counted result ≡ arity (in_version version) s.now (unmarked marks.now) at }
{
    if s.len() <= at {
        return Err(Fault::NoneLeft.at(s.len()));
    }
    let w = s[at];
    language::look(version, language::AT_ARM, w).map_err(|fault| fault.at(at))?;
    unlike_at(s, at + 1, w, marks)
}
