// The kinds of head words, in the one table that every reader consults, and the limits of rules and images.

#![tactic(auto)]

ghost use Rattle.std.specs.Prelude.{◌≡◌, Some};
ghost use Rattle.language.specs.Kinds.{known, row_of, head_is, head_of};
ghost use Rattle.language.specs.Faults.{number_of, refusal_text};

use std::fmt;

// The most arguments of a function, a call, a constructor or an arm.
pub const MOST_ARGUMENTS: u8 = 15;

// The most arms of a match.
pub const MOST_ARMS: u8 = 32;

// A head's number is its low byte, the remainder by this; its kind is the high byte.
pub const LOW_BYTE: u16 = 256;

// The last operation: add, subtract, less. And how many parts each has.
const LAST_OPERATION: u8 = 2;

pub const OPERANDS: u8 = 2;

// The versions of rules; and the first that has numbers and operations.
pub const OLDEST: u8 = 1;

pub const NEWEST: u8 = 2;

const NUMBERED: u8 = 2;

// The levels of terms that a rule may have.
pub const DEEPEST: usize = 64;

// The most words of a rule, and of an image.
pub const MOST_WORDS: usize = 4096;

pub const MOST_IMAGE_WORDS: usize = 28672;

// Why words are refused, as the checks in order tell it.
#[derive(Clone, Copy, PartialEq, Eq)]
pub enum Fault {
    NoWords,
    TooManyWords,
    NoneLeft,
    WrongKind,
    OutOfRange,
    TooDeep,
    Unbound,
    LeftOver,
    NoRoom,
    WrongMark,
    WrongVersion,
    WrongLength,
    DeadArm,
}

impl Fault {
    // The number by which a refusal is told.
    pub fn number(self) -> u8
        ensures { result ≡ number_of self }
    {
        match self {
            Fault::NoWords => 1,
            Fault::TooManyWords => 2,
            Fault::NoneLeft => 3,
            Fault::WrongKind => 4,
            Fault::OutOfRange => 5,
            Fault::TooDeep => 6,
            Fault::Unbound => 7,
            Fault::LeftOver => 8,
            Fault::NoRoom => 9,
            Fault::WrongMark => 10,
            Fault::WrongVersion => 11,
            Fault::WrongLength => 12,
            Fault::DeadArm => 18,
        }
    }

    // The refusal at the place of the word that was tested.
    pub fn at(self, place: usize) -> Refusal
        ensures { result ≡ record { fault = self; place = place } }
    {
        Refusal { fault: self, place }
    }
}

// A refusal, and the place of the word that was tested.
#[derive(Clone, Copy, PartialEq, Eq)]
pub struct Refusal {
    pub fault: Fault,
    pub place: usize,
}

// As it is printed: the number, and the place after it.
impl fmt::Display for Refusal {
    ghost output = { λ r. Some (refusal_text r) };

    fn fmt<W: fmt::Write>(&self, f: &mut fmt::Formatter<W>) -> fmt::Result {
        let (number, place) = (self.fault.number(), self.place);
        write!(f, "{number} {place}")
    }
}

// A refusal that tests no word is at this place.
impl From<Fault> for Refusal {
    ghost from_gives = { λ fault refusal. refusal ≡ record { fault = fault; place = 0 } };

    fn from(fault: Fault) -> Refusal {
        fault.at(NO_PLACE)
    }
}

// The place of a refusal that tests no word.
pub const NO_PLACE: usize = 0;

// Where a head may stand in a rule.
const NOWHERE: u8 = 0;

pub const AT_TERM: u8 = 1;

pub const AT_ARM: u8 = 2;

// What follows a head word.
#[derive(Clone, Copy)]
pub enum Parts {
    Nothing,
    Body,
    FunctionAndArguments,
    BoundAndBody,
    CountAndArguments,
    SubjectAndArms,
    ArityAndBody,
    HighAndLow,
    TwoParts,
}

// A kind of head word: the first and the last version in which it stands in rules; where it may stand; its lowest and highest low byte;
// how many source variables its body has besides the arguments (a recursive function's name, the let's value); what follows it.
#[derive(Clone, Copy)]
pub struct Row {
    pub first: u8,
    pub last: u8,
    pub stands: u8,
    pub low: u8,
    pub high: u8,
    pub binds: u8,
    pub parts: Parts,
}

// One row for each kind from 0 to 11. A higher kind opens nothing, as kind 0 does.
const KINDS_COUNT: usize = 12;

const MOST_BYTE: u8 = 255;

// A kind that stands nowhere; and one of every version that stands at a term, with a low byte of 0.
const NO_ROW: Row = Row {
    first: 0,
    last: 0,
    stands: NOWHERE,
    low: 0,
    high: 0,
    binds: 0,
    parts: Parts::Nothing,
};

const TERM_ROW: Row = Row {
    first: OLDEST,
    last: NEWEST,
    stands: AT_TERM,
    ..NO_ROW
};

const KINDS: [Row; KINDS_COUNT] = [
    NO_ROW,
    Row {
        high: MOST_BYTE,
        ..TERM_ROW
    },
    Row {
        low: 1,
        high: MOST_ARGUMENTS,
        parts: Parts::Body,
        ..TERM_ROW
    },
    Row {
        low: 1,
        high: MOST_ARGUMENTS,
        binds: 1,
        parts: Parts::Body,
        ..TERM_ROW
    },
    Row {
        low: 1,
        high: MOST_ARGUMENTS,
        parts: Parts::FunctionAndArguments,
        ..TERM_ROW
    },
    Row {
        binds: 1,
        parts: Parts::BoundAndBody,
        ..TERM_ROW
    },
    Row {
        high: MOST_BYTE,
        parts: Parts::CountAndArguments,
        ..TERM_ROW
    },
    Row {
        low: 1,
        high: MOST_ARMS,
        parts: Parts::SubjectAndArms,
        ..TERM_ROW
    },
    Row {
        stands: AT_ARM,
        high: MOST_BYTE,
        parts: Parts::ArityAndBody,
        ..TERM_ROW
    },
    Row {
        stands: NOWHERE,
        high: MOST_BYTE,
        ..TERM_ROW
    },
    Row {
        first: NUMBERED,
        parts: Parts::HighAndLow,
        ..TERM_ROW
    },
    Row {
        first: NUMBERED,
        high: LAST_OPERATION,
        parts: Parts::TwoParts,
        ..TERM_ROW
    },
];

// Whether there is such a version of rules.
pub fn is_known(version: u16) -> bool
    ensures { result ≡ known version }
{
    OLDEST as u16 <= version && version <= NEWEST as u16
}

// The row of a head word's kind. At constant places the table takes no instructions: at one that is computed it would be made anew at each call.
#[tactic(auto, using(crate::proofs::Heads::row_of_kind, crate::proofs::Heads::row_of_rest))]
pub fn row_of(w: u16) -> Row
    ensures { result ≡ row_of w }
{
    let table = KINDS;
    match w / LOW_BYTE {
        1 => table[1],
        2 => table[2],
        3 => table[3],
        4 => table[4],
        5 => table[5],
        6 => table[6],
        7 => table[7],
        8 => table[8],
        9 => table[9],
        10 => table[10],
        11 => table[11],
        _ => table[0],
    }
}

// The row of the word w as a head in a version, where one that stands at q is asked for: its kind is tested first, then its low byte.
#[tactic(auto, using(crate::proofs::Heads::ways))]
pub fn look(version: u8, q: u8, w: u16) -> Result<Row, Fault>
    ensures { head_is result ≡ head_of version q w }
{
    let row = row_of(w);
    let low = (w % LOW_BYTE) as u8;
    if row.stands != q {
        return Err(Fault::WrongKind);
    }
    if version < row.first {
        return Err(Fault::WrongKind);
    }
    if row.last < version {
        return Err(Fault::WrongKind);
    }
    if low < row.low {
        return Err(Fault::OutOfRange);
    }
    if row.high < low {
        return Err(Fault::OutOfRange);
    }
    Ok(row)
}
