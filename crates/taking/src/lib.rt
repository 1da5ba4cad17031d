// Takes the words of an image as values, in records.

#![tactic(auto)]

ghost use Rattle.std.specs.Prelude.{◌+◌, ◌*◌, ◌<◌, ◌%◌, ◌≡◌, length, get_or};
ghost use Rattle.language.specs.Words.{word_end};
ghost use Rattle.taking.specs.Standing.{Stands, Standᵗ, Ends, Constructed, Counts};
ghost use Rattle.taking.specs.Taking.{Heads, Took, TookEach};

use records::Records;

// The kinds of head words that an atom may have besides a function's.
const SOURCE: u16 = 1;

const CONSTRUCTOR: u16 = 6;

const CONTINUATION: u16 = 9;

const NUMBER: u16 = 10;

// A number's words have 16 bits each.
const WORD_END: u32 = 65536;

// The most values that are taken together: what is called, and sixteen arguments.
const MOST_VALUES: usize = 17;

// What the head word of an atom says: a variable's index, a constructor's tag.
#[derive(Clone, Copy)]
enum Atom {
    Source(usize),
    Continuation(usize),
    Constructor(u32),
    Number,
    Function,
}

impl Atom {
    // What a head word says, where it is the head of an atom.
    fn of(word: u16) -> Atom
        ensures { Heads word result }
    {
        let low = word % language::LOW_BYTE;
        match word / language::LOW_BYTE {
            SOURCE => Atom::Source(usize::from(low)),
            CONTINUATION => Atom::Continuation(usize::from(low)),
            CONSTRUCTOR => Atom::Constructor(u32::from(low)),
            NUMBER => Atom::Number,
            _ => Atom::Function,
        }
    }
}

// The place after the term at a place.
pub fn skip(image: &[u16], at: usize) -> usize
    requires { Stands image.now at }
    ensures { Ends image.now at result }
{
    let mut next = at;
    let mut pieces = 1;
    while 0 < pieces {
        let head = atoms::opening_at(image, next);
        pieces = pieces - 1 + usize::from(head.pieces);
        next += head.words;
    }
    next
}

// The number at a place.
fn number_at(image: &[u16], at: usize) -> u32
    requires { at + 2 < length image.now }
    ensures { result ≡ get_or image.now (at + 1) 0 * word_end + get_or image.now (at + 2) 0 }
{
    u32::from(image[at + 1]) * WORD_END + u32::from(image[at + 2])
}

// How many arguments the constructor at a place has.
fn count_at(image: &[u16], at: usize) -> usize
    requires { Constructed image.now at }
    ensures { Counts image.now at result }
{
    usize::from(image[at + 1])
}

// What is bound where a term stands: to continuation variables and to source variables, each the binding made last.
#[derive(Clone, Copy)]
pub struct Bound {
    pub continuations: usize,
    pub sources: usize,
}

// An image, and what is bound where the terms stand that are taken from it.
#[derive(Clone, Copy)]
pub struct Taker<'a> {
    pub image: &'a [u16],
    pub bound: Bound,
}

impl<'a> Taker<'a> {
    // The value of the atom at a place; or no record was left.
    #[cycle(taking)]
    pub fn take(&self, records: &mut Records<'_>, at: usize) -> Option<usize>
        requires { Stands self.now.image.now at }
        ensures { Took self.now at records.old records.new result }
    {
        let Bound {
            continuations,
            sources,
        } = self.bound;
        match Atom::of(self.image[at]) {
            Atom::Source(index) => Some(records.find(sources, index)),
            Atom::Continuation(index) => Some(records.find(continuations, index)),
            Atom::Number => records.keep_number(number_at(self.image, at)),
            Atom::Constructor(tag) => self.build(records, at, tag),
            Atom::Function => records.keep_function(at as u32, continuations, sources),
        }
    }

    // The value of the constructor at a place, which has this tag.
    #[cycle(taking)]
    fn build(&self, records: &mut Records<'_>, at: usize, tag: u32) -> Option<usize>
        requires { Constructed self.now.image.now at × (tag ≡ get_or self.now.image.now at 0 % 256) }
        ensures { Took self.now at records.old records.new result }
    {
        let count = count_at(self.image, at);
        let mut values = [0usize; MOST_VALUES];
        let arguments = &mut values[..count];
        let first = records.free;
        self.take_all(records, arguments, at + atoms::HEAD_AND_COUNT)?;
        let Some(base) = building::keep_constructor(records, tag, arguments) else {
            records.free = first;
            return None;
        };
        Some(base)
    }

    // The values of as many atoms as there are places for, in the order of their words. What stands behind the last need not be found.
    #[cycle(taking)]
    pub fn take_all(&self, records: &mut Records<'_>, values: &mut [usize], at: usize) -> Option<()>
        requires { Standᵗ self.now.image.now at (length values.old) }
        ensures { TookEach self.now at records.old records.new values.old values.new result }
    {
        let count = values.len();
        let free = records.free;
        let mut place = at;
        for (i, value) in values.iter_mut().enumerate() {
            let Some(taken) = self.take(records, place) else {
                records.free = free;
                return None;
            };
            *value = taken;
            if i + 1 < count {
                place = skip(self.image, place);
            }
        }
        Some(())
    }
}
