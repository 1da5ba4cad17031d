// Reads a rule: one forward pass checks its words and measures its image. Terms, lists and arms are read through each other.

#![tactic(auto)]

ghost use Rattle.std.specs.Prelude.{◌≡◌, ◌+◌, ◌-◌, ◌*◌, ◌≤◌, ◌<◌, ◌&&◌, Bool, true, false, cond, [], ltb, length, MatchResult};
ghost use Rattle.language.specs.Term.{var, num};
ghost use Rattle.language.specs.Setting.{in_version};
ghost use Rattle.language.specs.Kinds.{most_arms, most_byte};
ghost use Rattle.language.specs.Limits.{deepest};
ghost use Rattle.language.specs.declared.Fault.TheVariants.{LeftOver};
ghost use Rattle.language.specs.Read.{found, fault, then, made, number, many, arms_of, opened, term, closed, ended, read};
ghost use Rattle.language.specs.Calls.{reply_of, checked, measured};
ghost use Rattle.reading.specs.Steps.{a_word, small, function_words, constructor_words, saved_words, step_is, term_step, terms_step, arms_step, FewArms};

use language::{AT_TERM, Fault, LOW_BYTE, Parts, Refusal, Row};

// The words of a variable's passing form and of a number's, and those that each other form has besides its parts' passing forms and chains.
const VARIABLE_WORDS: usize = 4;

const NUMBER_WORDS: usize = 6;

const FUNCTION_WORDS: usize = 6;

const CALL_WORDS: usize = 6;

const LET_WORDS: usize = 7;

const CONSTRUCTOR_WORDS: usize = 5;

const OPERATION_WORDS: usize = 4;

const MATCH_WORDS: usize = 5;

const ARM_WORDS: usize = 4;

const IMAGE_WORDS: usize = 3;

// The words of a chain for each of its terms, besides that term's passing form.
const CHAINED_WORDS: usize = 3;

// What each argument of a constructor of atoms saves: its words in a chain, and what its passing form has besides its carried form.
const SAVED_WORDS: usize = 6;

// What was read: whether it is all atoms, the place after it, and its words in an image (of a term the passing form's, of a list the chain's). The
// byte stands first, as in a `Refusal`: in a `Result` of the two each field then has its own place, and none is put together from bytes.
#[derive(Clone, Copy)]
struct Found {
    atoms: bool,
    to: usize,
    words: usize,
}

impl Found {
    // Nothing yet, at this place: of a list all atoms, of arms not.
    fn nothing(to: usize, atoms: bool) -> Found
        ensures { result ≡ record { to = to; atoms = atoms; words = 0 } }
    {
        Found {
            to,
            atoms,
            words: 0,
        }
    }

    // An atom, with so many words in its passing form.
    fn atom(to: usize, words: usize) -> Found
        ensures { result ≡ record { to = to; atoms = true; words = words } }
    {
        Found {
            to,
            atoms: true,
            words,
        }
    }

    // The function of this body. It is an atom.
    fn function(self) -> Found
        requires { self.words ≤ small }
        ensures { result ≡ record { to = self.to; atoms = true; words = self.words + function_words } }
    {
        Found::atom(self.to, self.words + FUNCTION_WORDS)
    }

    // A larger thing that is no atom: so many words more of a part before this one, and so many of its own.
    fn grown(self, part: usize, own: usize) -> Found
        requires { (self.words ≤ small) × (part ≤ small) × (own ≤ small) }
        ensures { result ≡ record { to = self.to; atoms = false; words = self.words + part + own } }
    {
        Found {
            atoms: false,
            words: self.words + part + own,
            ..self
        }
    }

    // The constructor of these arguments, so many: their carried forms if all are atoms, else the chain over them.
    fn constructor(self, arguments: usize) -> Found
        requires { (self.words ≤ small) × (saved_words * arguments ≤ self.words) }
        ensures { result ≡ record { to = self.to; atoms = self.atoms; words = cond self.atoms (self.words + constructor_words - saved_words * arguments) (self.words + constructor_words) } }
    {
        let words = self.words + CONSTRUCTOR_WORDS;
        if self.atoms {
            let words = words - SAVED_WORDS * arguments;
            return Found { words, ..self };
        }
        Found { words, ..self }
    }

    // This, and one thing more behind it, which has so many words besides.
    fn and(self, next: Found, own: usize) -> Found
        requires { (self.words ≤ 2 * small * a_word) × (next.words ≤ small) × (own ≤ small) }
        ensures { result ≡ record { to = next.to; atoms = self.atoms && next.atoms; words = self.words + next.words + own } }
    {
        Found {
            to: next.to,
            atoms: self.atoms && next.atoms,
            words: self.words + next.words + own,
        }
    }
}

// Where a term stands: the levels of depth left, and the source variables bound there. A level binds so few that their number never wraps.
#[derive(Clone, Copy)]
struct Level {
    left: usize,
    bound: usize,
    ghost few: { bound + a_word * left ≤ small },
}

impl Level {
    // Where a closed term stands.
    fn top() -> Level
        ensures { (result.left ≡ deepest) × (result.bound ≡ 0) }
    {
        Level {
            left: language::DEEPEST,
            bound: 0,
        }
    }

    // Where a part stands, under so many source variables more.
    fn below(self, binds: usize) -> Level
        requires { (0 < self.left) × (binds ≤ a_word) }
        ensures { (result.left ≡ self.left - 1) × (result.bound ≡ self.bound + binds) }
    {
        Level {
            left: self.left - 1,
            bound: self.bound + binds,
        }
    }
}

// A variable, at this place, with this index.
#[tactic(auto, using(sizes::proofs::Lengths::of_var), unfolding(crate::specs::Steps::step_of, language::specs::Run::atom))]
fn variable_at(at: usize, index: usize, bound: usize) -> Result<Found, Refusal>
    requires { at < a_word }
    ensures { step_is result ≡ term_step (cond (ltb index bound) (found (var index) (at + 1)) (fault 7 at)) }
{
    if index < bound {
        Ok(Found::atom(at + 1, VARIABLE_WORDS))
    } else {
        Err(Fault::Unbound.at(at))
    }
}

// A number, from the first of its two words on: these are tested for 3 only.
#[tactic(auto, using(sizes::proofs::Lengths::of_num), unfolding(crate::specs::Steps::step_of, language::specs::Run::atom, language::specs::Read::made, language::specs::Read::number))]
fn number_at(s: &[u16], at: usize) -> Result<Found, Refusal>
    requires { at ≤ a_word }
    ensures { step_is result ≡ term_step (made num (number s.now at)) }
{
    if at + 1 < s.len() {
        Ok(Found::atom(at + 2, NUMBER_WORDS))
    } else {
        Err(Fault::NoneLeft.at(s.len()))
    }
}

// A table of words, read in a version. It has so few that what is counted in it never wraps.
#[derive(Clone, Copy)]
struct Table<'a> {
    version: u8,
    words: &'a [u16],
    ghost few: { length words.now ≤ a_word },
}

impl<'a> Table<'a> {
    // The term at this place.
    #[cycle(terms)]
    #[tactic(auto, using(crate::proofs::Sums::row_binds, crate::proofs::Sums::row_arms), unfolding(crate::specs::Steps::step_of, language::specs::Read::term))]
    fn term(&self, at: usize, level: Level) -> Result<Found, Refusal>
        ensures { step_is result ≡ term_step (term (in_version self.now.version) self.now.words.now level.left level.bound at) }
    {
        if self.words.len() <= at {
            return Err(Fault::NoneLeft.at(self.words.len()));
        }
        if level.left == 0 {
            return Err(Fault::TooDeep.at(at));
        }
        let head = self.words[at];
        let row = language::look(self.version, AT_TERM, head).map_err(|fault| fault.at(at))?;
        self.opened(at, level, usize::from(head % LOW_BYTE), row)
    }

    // The term whose head, at this place, has this low byte and this row.
    #[cycle(terms)]
    #[tactic(auto, using(crate::proofs::Ways::ways), unfolding(crate::specs::Steps::step_of, language::specs::Read::opened))]
    fn opened(&self, at: usize, level: Level, low: usize, row: Row) -> Result<Found, Refusal>
        requires { (0 < level.left) × (at < length self.now.words.now) × (low ≤ most_byte) × (row.binds ≤ 1) × FewArms row.parts low }
        ensures { step_is result ≡ term_step (opened (in_version self.now.version) self.now.words.now (term (in_version self.now.version) self.now.words.now (level.left - 1)) level.bound at low row.binds row.parts) }
    {
        let next = at + 1;
        let binds = usize::from(row.binds);
        let inside = level.below(0);
        match row.parts {
            Parts::Nothing => variable_at(at, low, level.bound),
            Parts::Body => Ok(self.term(next, level.below(low + binds))?.function()),
            Parts::FunctionAndArguments => {
                let function = self.term(next, inside)?;
                let arguments = self.list(function.to, inside, low)?;
                Ok(arguments.grown(function.words, CALL_WORDS))
            }
            Parts::BoundAndBody => {
                let value = self.term(next, inside)?;
                let body = self.term(value.to, level.below(binds))?;
                Ok(body.grown(value.words, LET_WORDS))
            }
            Parts::CountAndArguments => {
                let second = arities::second_at(self.words, next)?;
                let count = usize::from(second.count);
                let arguments = self.list(second.to, inside, count)?;
                Ok(arguments.constructor(count))
            }
            Parts::SubjectAndArms => {
                let subject = self.term(next, inside)?;
                let arms = self.arms(subject.to, level, low)?;
                Ok(arms.grown(subject.words, MATCH_WORDS))
            }
            Parts::ArityAndBody => Err(Fault::WrongKind.at(at)),
            Parts::HighAndLow => number_at(self.words, next),
            Parts::TwoParts => {
                let operands = self.list(next, inside, usize::from(language::OPERANDS))?;
                Ok(operands.grown(0, OPERATION_WORDS))
            }
        }
    }

    // So many terms, one after the other. Within the reader of terms, so that a level takes one frame.
    #[inline(always)]
    #[cycle(terms)]
    #[tactic(auto, using(crate::proofs::Ways::terms_ways))]
    fn list(&self, at: usize, level: Level, count: usize) -> Result<Found, Refusal>
        requires { count < a_word }
        ensures { step_is result ≡ terms_step (many (term (in_version self.now.version) self.now.words.now level.left level.bound) count at) }
    {
        let mut list = Found::nothing(at, true);
        for _ in 0..count {
            let term = self.term(list.to, level)?;
            list = list.and(term, CHAINED_WORDS);
        }
        Ok(list)
    }

    // The arms of a match, so many, within the reader of terms too. Each arm's mark is kept for those behind it.
    #[inline(always)]
    #[cycle(terms)]
    #[tactic(auto, using(crate::proofs::Ways::arms_ways))]
    fn arms(&self, at: usize, level: Level, count: usize) -> Result<Found, Refusal>
        requires { (0 < level.left) × (count ≤ most_arms) }
        ensures { step_is result ≡ arms_step (arms_of (in_version self.now.version) self.now.words.now (term (in_version self.now.version) self.now.words.now (level.left - 1)) [] level.bound count at) }
    {
        let mut marks = [0; language::MOST_ARMS as usize];
        let mut arms = Found::nothing(at, false);
        for i in 0..count {
            let arity = arities::arity_at(self.version, self.words, arms.to, &marks[..i])?;
            marks[i] = arities::mark(self.words[arms.to], arity.count);
            let body = self.term(arity.to, level.below(usize::from(arity.count)))?;
            arms = arms.and(body, ARM_WORDS);
        }
        Ok(arms)
    }
}

// The closed term that stands at a place of a table, after the tests of the version and of the table's length.
#[tactic(auto, using(crate::proofs::Answers::known_byte), unfolding(language::specs::Read::closed, crate::specs::Steps::step_of))]
fn closed_at(version: u16, s: &[u16], at: usize) -> Result<Found, Refusal>
    ensures { step_is result ≡ term_step (closed (in_version version) s.now at) }
{
    if !language::is_known(version) {
        return Err(Fault::WrongVersion.into());
    }
    if s.is_empty() {
        return Err(Fault::NoWords.into());
    }
    if language::MOST_WORDS < s.len() {
        return Err(Fault::TooManyWords.into());
    }
    let table = Table {
        version: version as u8,
        words: s,
    };
    table.term(at, Level::top())
}

// The test after the last word: at a place of a table no word is left.
fn ended_at(s: &[u16], at: usize) -> Result<(), Refusal>
    ensures { MatchResult result (λ _. length s.now ≤ at) (λ r. (at < length s.now) × (r ≡ record { fault = LeftOver; place = at })) }
{
    if at < s.len() {
        return Err(Fault::LeftOver.at(at));
    }
    Ok(())
}

// A reading place: the lent table, and the place of its next word.
#[derive(Clone, Copy)]
struct Reader<'a> {
    words: &'a [u16],
    next: usize,
}

impl<'a> Reader<'a> {
    // The place of a table's first word.
    fn start(words: &'a [u16]) -> Reader<'a>
        ensures { (result.words ≡ words.entry) × (result.next ≡ 0) }
    {
        Reader { words, next: 0 }
    }

    // The reading place moved to another word.
    fn moved(self, to: usize) -> Reader<'a>
        ensures { (result.words ≡ self.entry.words) × (result.next ≡ to) }
    {
        Reader { next: to, ..self }
    }

    // The closed term at the reading place.
    fn closed(self, version: u16) -> Result<Found, Refusal>
        ensures { step_is result ≡ term_step (closed (in_version version) self.entry.words.now self.entry.next) }
    {
        closed_at(version, self.words, self.next)
    }

    // The test after the last word, at the reading place.
    fn ended(self) -> Result<(), Refusal>
        ensures { MatchResult result (λ _. length self.entry.words.now ≤ self.entry.next) (λ r. (self.entry.next < length self.entry.words.now) × (r ≡ record { fault = LeftOver; place = self.entry.next })) }
    {
        ended_at(self.words, self.next)
    }
}

// The rule that a table holds: from its first word on a closed term, and behind that no word.
#[tactic(auto, using(crate::proofs::Answers::rule_refused, crate::proofs::Answers::rule_left, crate::proofs::Answers::rule_whole))]
fn rule_of(version: u16, s: &[u16]) -> Result<Found, Refusal>
    ensures { step_is result ≡ term_step (then (closed (in_version version) s.now 0) (ended s.now)) }
{
    let first = Reader::start(s);
    let rule = first.closed(version)?;
    first.moved(rule.to).ended()?;
    Ok(rule)
}

// How many words the image of a rule has.
#[tactic(auto, using(crate::proofs::Answers::m_stop, crate::proofs::Answers::m_words, crate::proofs::Answers::m_fits))]
pub fn measure(version: u16, s: &[u16]) -> Result<usize, Refusal>
    ensures { reply_of result ≡ measured (read (in_version version) s.now) }
{
    let rule = rule_of(version, s)?;
    Ok(rule.words + IMAGE_WORDS)
}

// Whether the words are a rule: they are where their image can be measured.
#[tactic(auto, using(crate::proofs::Answers::c_refused, crate::proofs::Answers::c_accepted))]
pub fn check(version: u16, s: &[u16]) -> Result<(), Refusal>
    ensures { reply_of result ≡ checked (read (in_version version) s.now) }
{
    measure(version, s)?;
    Ok(())
}
