// The records of a run, in lent words of 32 bits: references, values and bindings, each in a record of its own that is written once.

#![tactic(auto)]

ghost use Rattle.std.specs.Prelude.{◌+◌, ◌-◌, ◌<◌, ◌≤◌, ◌≡◌, [], ◌∷◌, Some, length, get_or, replicate};
ghost use Rattle.output.specs.Stored.{Room, Put};
ghost use Rattle.records.specs.Links.{record_words, low, high, link_at, found_from};
ghost use Rattle.records.specs.Memory.{a_function, a_number};
ghost use Rattle.records.specs.Kinds.{word_of, kind_of};
ghost use Rattle.records.specs.Kept.{HasRecord, Takes, Keeps};

use output::Output;

// The words of a record.
pub const RECORD_WORDS: usize = 36;

// A reference is the place of a record's first word, in two words, low first.
pub const LINK_WORDS: usize = 2;

// One more than the highest word of a record.
const LINK_END: usize = 0x1_0000_0000;

// The first word of a value's record is its kind.
pub const KIND: usize = 0;

// The words of a function's record: its place in the image, and what was bound there.
pub const PLACE: usize = 1;

pub const CONTINUATIONS: usize = 2;

pub const SOURCES: usize = 4;

// The words of a constructor's record, behind its kind and its tag: its count, its grade, the place of its last word, and its arguments.
pub const COUNT: usize = 2;

pub const GRADE: usize = 3;

pub const LAST: usize = 4;

pub const ARGUMENTS: usize = 6;

// The words of a binding's record: the value, and the binding before it.
const BOUND: usize = 0;

const BEFORE: usize = 2;

// The words that stand for the kinds of values.
const FUNCTION: u32 = 1;

const CONSTRUCTOR: u32 = 2;

const NUMBER: u32 = 3;

// What a value is.
#[derive(Clone, Copy)]
pub enum Kind {
    Function,
    Constructor,
    Number,
}

impl Kind {
    // The word that stands for it.
    pub fn word(self) -> u32
        ensures { result ≡ word_of self }
    {
        match self {
            Kind::Function => FUNCTION,
            Kind::Constructor => CONSTRUCTOR,
            Kind::Number => NUMBER,
        }
    }

    // What a word stands for.
    pub fn of(word: u32) -> Option<Kind>
        ensures { result ≡ kind_of word }
    {
        match word {
            FUNCTION => Some(Kind::Function),
            CONSTRUCTOR => Some(Kind::Constructor),
            NUMBER => Some(Kind::Number),
            _ => None,
        }
    }
}

// A word of the record at a place. There are none but zeros past the end.
pub fn word_at(records: &[u32], base: usize, field: usize) -> u32
    ensures { result ≡ get_or records.now (base + field) 0 }
{
    records
        .get(base.saturating_add(field))
        .copied()
        .unwrap_or(0)
}

// The reference in a word of the record at a place, and in the next.
pub fn link_at(records: &[u32], base: usize, field: usize) -> usize
    requires { field < record_words }
    ensures { result ≡ link_at records.now base field }
{
    let low = word_at(records, base, field) as usize;
    let high = word_at(records, base, field + 1) as usize;
    low + high * LINK_END
}

// The value that is bound to a variable, where the bindings start at `last`.
pub fn find(records: &[u32], last: usize, index: usize) -> usize
    ensures { result ≡ found_from records.now last index }
{
    let mut binding = last;
    for _ in 0..index {
        binding = link_at(records, binding, BEFORE);
    }
    link_at(records, binding, BOUND)
}

// How many words are left for records.
pub fn left(records: &[u32], free: usize) -> usize
    ensures { result ≡ length records.now - free }
{
    records.len().saturating_sub(free)
}

// The first word of a reference.
pub fn low(link: usize) -> u32
    ensures { result ≡ low link }
{
    (link % LINK_END) as u32
}

// And the second.
pub fn high(link: usize) -> u32
    ensures { result ≡ high link }
{
    (link / LINK_END) as u32
}

// The words of a binding.
fn binding(value: usize, before: usize) -> [u32; 4]
    ensures { result ≡ low value ∷ high value ∷ low before ∷ high before ∷ [] }
{
    [low(value), high(value), low(before), high(before)]
}

// Writes words from a place on.
fn write(records: &mut [u32], at: usize, words: &[u32])
    requires { Room records.old at (length words.now) }
    ensures { Put words.now records.old at records.new (at + length words.now) }
{
    let mut record = Output {
        words: records,
        pos: at,
    };
    record.put_all(words);
}

// "The record buffer is all zero after every reply".
pub fn clear(records: &mut [u32])
    ensures { records.new ≡ replicate (length records.old) 0 }
{
    records.fill(0);
}

// The records of a run, and the first word that is free: those before it are in use, and a record is written behind them.
#[derive(Drop)]
pub struct Records<'a> {
    pub words: &'a mut [u32],
    pub free: usize,
}

impl<'a> Records<'a> {
    // The value that is bound to a variable, where the bindings start at `last`.
    pub fn find(&self, last: usize, index: usize) -> usize
        ensures { result ≡ found_from self.now.words.now last index }
    {
        find(self.words, last, index)
    }

    // How many words are left for records.
    pub fn left(&self) -> usize
        ensures { result ≡ length self.now.words.now - self.now.free }
    {
        left(self.words, self.free)
    }

    // Takes the first free record, which is left.
    fn take(&mut self) -> usize
        requires { HasRecord self.old }
        ensures { Takes self.old self.new (Some result) }
    {
        let base = self.free;
        self.free = base + RECORD_WORDS;
        base
    }

    // The same, if one is left.
    pub fn try_take(&mut self) -> Option<usize>
        ensures { Takes self.old self.new result }
    {
        if self.left() < RECORD_WORDS {
            return None;
        }
        Some(self.take())
    }

    // Writes these words into a record of their own, if one is left.
    #[tactic(auto, using(crate::specs::Kept::kept, crate::specs::Kept::not_kept))]
    fn keep(&mut self, words: &[u32]) -> Option<usize>
        requires { length words.now ≤ record_words }
        ensures { Keeps words.now self.old self.new result }
    {
        let base = self.try_take()?;
        write(self.words, base, words);
        Some(base)
    }

    // A binding, where a record is left.
    #[tactic(auto, using(crate::specs::Kept::kept))]
    pub fn put_binding(&mut self, value: usize, before: usize) -> usize
        requires { HasRecord self.old }
        ensures { Keeps (low value ∷ high value ∷ low before ∷ high before ∷ []) self.old self.new (Some result) }
    {
        let base = self.take();
        write(self.words, base, &binding(value, before));
        base
    }

    // A binding, if a record is left.
    pub fn keep_binding(&mut self, value: usize, before: usize) -> Option<usize>
        ensures { Keeps (low value ∷ high value ∷ low before ∷ high before ∷ []) self.old self.new result }
    {
        self.keep(&binding(value, before))
    }

    // A function, which stands in the image at a place, and what is bound there.
    pub fn keep_function(
        &mut self,
        place: u32,
        continuations: usize,
        sources: usize,
    ) -> Option<usize>
        ensures { Keeps (a_function ∷ place ∷ low continuations ∷ high continuations ∷ low sources ∷ high sources ∷ []) self.old self.new result }
    {
        self.keep(&[
            Kind::Function.word(),
            place,
            low(continuations),
            high(continuations),
            low(sources),
            high(sources),
        ])
    }

    // A number.
    pub fn keep_number(&mut self, number: u32) -> Option<usize>
        ensures { Keeps (a_number ∷ number ∷ []) self.old self.new result }
    {
        self.keep(&[Kind::Number.word(), number])
    }
}
