// Whether a term is an atom, told by its words. What stands inside a function is passed over.

#![tactic(auto)]

ghost use Rattle.language.specs.declared.Parts.TheVariants.{CountAndArguments};
ghost use Rattle.std.specs.Prelude.{◌≡◌};
ghost use Rattle.atoms.specs.Standing.{TermAt, IsAtom, form_at, FormAt, Counted};
ghost use Rattle.atoms.specs.Openings.{head_words, pieces_at, Whole, OpensAt, Countable, rest_after};

use language::Parts;

// The words before the parts of a term; before those of a constructor and the body of an arm a count stands too. A number's words all
// stand so: it has no parts.
const HEAD: usize = 1;

pub const HEAD_AND_COUNT: usize = 2;

pub const HEAD_AND_NUMBER: usize = 3;

// What follows the head of the term at `at`. What stands here was accepted: the kind alone tells it, in every version.
pub fn parts_at(s: &[u16], at: usize) -> Parts
    requires { TermAt s.now at }
    ensures { FormAt result s.now at }
{
    language::row_of(s[at]).parts
}

// How many arguments the constructor at `at` has.
pub fn count_at(s: &[u16], at: usize) -> usize
    requires { TermAt s.now at × (form_at s.now at ≡ CountAndArguments) }
    ensures { Counted result s.now at }
{
    s[at + 1] as usize
}

// What a head opens: its form, the words of its own, and how many pieces, terms or arms, stand behind them.
#[derive(Clone, Copy)]
pub struct Opening {
    pub parts: Parts,
    pub words: usize,
    pub pieces: u16,
}

// The words of a head of this form: a constructor's and an arm's have a count, a number's has the number.
#[tactic(auto, unfolding(crate::specs::Openings::head_words))]
fn head_words(parts: Parts) -> usize
    ensures { result ≡ head_words parts }
{
    match parts {
        Parts::Nothing => HEAD,
        Parts::Body => HEAD,
        Parts::FunctionAndArguments => HEAD,
        Parts::BoundAndBody => HEAD,
        Parts::CountAndArguments => HEAD_AND_COUNT,
        Parts::SubjectAndArms => HEAD,
        Parts::ArityAndBody => HEAD_AND_COUNT,
        Parts::HighAndLow => HEAD_AND_NUMBER,
        Parts::TwoParts => HEAD,
    }
}

// How many pieces stand behind the head at `at`, which has this form.
#[tactic(auto, unfolding(crate::specs::Openings::pieces_at, crate::specs::Openings::pieces_of))]
fn pieces_at(s: &[u16], at: usize, parts: Parts) -> u16
    requires { Whole parts s.now at }
    ensures { result ≡ pieces_at parts s.now at }
{
    let low = s[at] % language::LOW_BYTE;
    match parts {
        Parts::Nothing => 0,
        Parts::Body => 1,
        Parts::FunctionAndArguments => low + 1,
        Parts::BoundAndBody => 2,
        Parts::CountAndArguments => s[at + 1],
        Parts::SubjectAndArms => low + 1,
        Parts::ArityAndBody => 1,
        Parts::HighAndLow => 0,
        Parts::TwoParts => language::OPERANDS as u16,
    }
}

// What the head at `at`, of a term or of an arm, opens.
pub fn opening_at(s: &[u16], at: usize) -> Opening
    requires { Whole (form_at s.now at) s.now at }
    ensures { OpensAt result s.now at }
{
    let parts = language::row_of(s[at]).parts;
    Opening {
        parts,
        words: head_words(parts),
        pieces: pieces_at(s, at, parts),
    }
}

// What is left of a test: so many pieces to be passed over, and then so many terms that must be atoms.
#[derive(Clone, Copy)]
struct Rest {
    pieces: usize,
    terms: usize,
}

impl Rest {
    // What is left after a head; nothing where it is that of a term which is no atom. A function is an atom whatever its body is: the body is
    // passed over.
    #[tactic(auto, using(crate::proofs::Ways::openings), unfolding(crate::specs::Openings::tested))]
    fn after(self, head: Opening) -> Option<Rest>
        requires { Countable self.pieces self.terms }
        ensures { result ≡ rest_after head self.pieces self.terms }
    {
        let pieces = head.pieces as usize;
        if 0 < self.pieces {
            return Some(Rest {
                pieces: self.pieces - 1 + pieces,
                terms: self.terms,
            });
        }
        let terms = self.terms - 1;
        match head.parts {
            Parts::Nothing => Some(Rest { pieces: 0, terms }),
            Parts::Body => Some(Rest { pieces, terms }),
            Parts::FunctionAndArguments => None,
            Parts::BoundAndBody => None,
            Parts::CountAndArguments => Some(Rest {
                pieces: 0,
                terms: terms + pieces,
            }),
            Parts::SubjectAndArms => None,
            Parts::ArityAndBody => None,
            Parts::HighAndLow => Some(Rest { pieces: 0, terms }),
            Parts::TwoParts => None,
        }
    }
}

// Whether the term at `at` is an atom: one pass over its words, up to the first part that is no atom.
pub fn is_atom(s: &[u16], at: usize) -> bool
    requires { TermAt s.now at }
    ensures { IsAtom result s.now at }
{
    let mut next = at;
    let mut rest = Rest {
        pieces: 0,
        terms: 1,
    };
    // The label names the loop for the proof, whatever its test says.
    'tests: while 0 < rest.terms {
        let head = opening_at(s, next);
        let Some(left) = rest.after(head) else {
            return false;
        };
        rest = left;
        next += head.words;
    }
    true
}
