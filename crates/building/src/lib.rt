// Builds the record of a constructor: beside its arguments it tells what is known of the whole value, so that nobody walks over it.

#![tactic(auto)]

ghost use Rattle.std.specs.Prelude.{◌+◌, ◌*◌, ◌≤◌, max, ◌≡◌, length};
ghost use Rattle.language.specs.Kinds.{most_arguments, most_byte};
ghost use Rattle.output.specs.Stored.{Room, HasRoom, Writes};
ghost use Rattle.records.specs.Links.{record_words, links};
ghost use Rattle.records.specs.Grades.{raised, capped};
ghost use Rattle.building.specs.Built.{Tells, Summed, Built, Builds};

use output::Output;
use records::{Kind, Records};

// Values deeper than this are not written: their grades are one higher, and of those that hold a function two.
pub const DEEPEST: u32 = 64;

pub const TOO_DEEP: u32 = DEEPEST + 1;

pub const HOLDING: u32 = DEEPEST + 2;

// The grade of a value, and the place of its last word; of some values the highest grade, and the place of their last word when they are
// written behind a constructor's head and count.
#[derive(Clone, Copy)]
pub struct Told {
    pub grade: u32,
    pub last: usize,
}

// A number is one deep, and is written in three words, the last at 2.
const NUMBER: Told = Told { grade: 1, last: 2 };

// A function is not written.
const FUNCTION: Told = Told {
    grade: HOLDING,
    last: 0,
};

// Of no value the grade is the lowest, and the last word that of the count.
const NOTHING: Told = Told { grade: 0, last: 1 };

impl Told {
    // What is told of some values, with one more.
    fn and(self, value: Told) -> Told
        ensures grade { result.grade ≡ max self.grade value.grade }
        ensures last { result.last ≡ capped (self.last + value.last + 1) }
    {
        Told {
            grade: self.grade.max(value.grade),
            last: self.last.saturating_add(value.last).saturating_add(1),
        }
    }
}

// The grade of a constructor, by the highest of its arguments.
#[tactic(auto, unfolding(records::specs::Grades::raised))]
fn raised(grade: u32) -> u32
    ensures { result ≡ raised grade }
{
    if HOLDING <= grade {
        HOLDING
    } else if DEEPEST <= grade {
        TOO_DEEP
    } else {
        grade + 1
    }
}

// What the record of a value tells of it.
#[tactic(auto, using(records::proofs::Memory::link_of), unfolding(records::specs::Grades::grade, records::specs::Grades::last))]
pub fn told_at(records: &[u32], value: usize) -> Told
    ensures { Tells records.now value result.grade result.last }
{
    match Kind::of(records::word_at(records, value, records::KIND)) {
        Some(Kind::Number) => NUMBER,
        Some(Kind::Function) => FUNCTION,
        // Where no value stands, what a constructor's record would tell.
        Some(Kind::Constructor) | None => Told {
            grade: records::word_at(records, value, records::GRADE),
            last: records::link_at(records, value, records::LAST),
        },
    }
}

// What the records of some values tell of them together.
#[tactic(auto, using(crate::proofs::Ways::s_more), unfolding(records::specs::Grades::grades, records::specs::Grades::lasts))]
fn summed(records: &[u32], values: &[usize]) -> Told
    ensures { Summed records.now values.now result.grade result.last }
{
    let mut sum = NOTHING;
    for value in values {
        sum = sum.and(told_at(records, *value));
    }
    sum
}

// A reference to each argument.
#[tactic(auto, using(crate::proofs::Ways::p_room))]
fn put_arguments(out: &mut Output<'_, u32>, values: &[usize])
    requires { HasRoom out.old (2 * length values.now) }
    ensures { Writes (links values.now) out.old out.new }
{
    for value in values {
        out.put_all(&[records::low(*value), records::high(*value)]);
    }
}

// The constructor with a tag whose arguments are the values at these records, in the record at `base`, behind all that are in use.
#[tactic(auto, using(crate::proofs::Ways::built))]
fn put_constructor(records: &mut [u32], base: usize, tag: u32, values: &[usize])
    requires { Room records.old base record_words × (tag ≤ most_byte) × (length values.now ≤ most_arguments) }
    ensures { Built records.old records.new base tag values.now }
{
    let sum = summed(records, values);
    let mut record = Output {
        words: records,
        pos: base,
    };
    record.put_all(&[
        Kind::Constructor.word(),
        tag,
        values.len() as u32,
        raised(sum.grade),
        records::low(sum.last),
        records::high(sum.last),
    ]);
    put_arguments(&mut record, values);
}

// The same in the first free record, if one is left.
#[tactic(auto, using(crate::specs::Built::is_built, crate::specs::Built::not_built))]
pub fn keep_constructor(records: &mut Records<'_>, tag: u32, values: &[usize]) -> Option<usize>
    requires { (tag ≤ most_byte) × (length values.now ≤ most_arguments) }
    ensures { Builds records.old records.new tag values.now result }
{
    let base = records.try_take()?;
    put_constructor(records.words, base, tag, values);
    Some(base)
}
