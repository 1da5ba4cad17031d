// The two file forms: a mark, a version, a count and the words, all low byte first.

#![tactic(auto)]

ghost use Rattle.std.specs.Prelude.{◌≡◌, ◌+◌, ◌*◌, ◌≤◌, [], ◌∷◌, length};
ghost use Rattle.std.proofs.lemmas.List.Edits.{sets};
ghost use Rattle.language.specs.Limits.{most_image_words};
ghost use Rattle.language.specs.Calls.{told};
ghost use Rattle.output.specs.Stored.{HasRoom, Writes};
ghost use Rattle.files.specs.Files.{mark_l, mark_r, third, most, header_bytes, header, bytes_of, marked, word_at, words_at, packing, taking, unpacking, told_unpacked};

use language::{Fault, Refusal};
use output::Output;

// What a file holds.
#[derive(Clone, Copy, PartialEq, Eq)]
pub enum Form {
    Rules,
    Images,
}

// What unpacking gives: the version that the file carries, and how many words.
#[derive(Clone, Copy, PartialEq, Eq)]
pub struct Unpacked {
    pub version: u16,
    pub count: usize,
}

// The bytes before the words, and where the version and the count stand in them. The mark is before both.
const HEADER: usize = 7;

const VERSION_AT: usize = 3;

const COUNT_AT: usize = 5;

// The bytes of a word.
const WORD_BYTES: usize = 2;

impl Form {
    // The mark of a file of this form.
    fn mark(self) -> [u8; VERSION_AT]
        ensures { result ≡ mark_l ∷ mark_r ∷ third self ∷ [] }
    {
        match self {
            Form::Rules => *b"LRS",
            Form::Images => *b"LRI",
        }
    }

    // The most words of a file of this form.
    fn most_words(self) -> usize
        ensures limit { result ≡ most self }
        ensures few { result ≤ most_image_words }
    {
        match self {
            Form::Rules => language::MOST_WORDS,
            Form::Images => language::MOST_IMAGE_WORDS,
        }
    }
}

// A word's two bytes, low byte first.
fn put_word(out: &mut Output<'_, u8>, w: u16)
    requires { HasRoom out.old 2 }
    ensures { Writes (bytes_of (w ∷ [])) out.old out.new }
{
    out.put_all(&w.to_le_bytes());
}

fn put_header(out: &mut Output<'_, u8>, form: Form, version: u16, count: u16)
    requires { HasRoom out.old header_bytes }
    ensures { Writes (header form version count) out.old out.new }
{
    out.put_all(&form.mark());
    put_word(out, version);
    put_word(out, count);
}

fn put_words(out: &mut Output<'_, u8>, words: &[u16])
    requires { HasRoom out.old (2 * length words.now) }
    ensures { Writes (bytes_of words.now) out.old out.new }
{
    for word in words {
        put_word(out, *word);
    }
}

// Writes the file of the words, which carries the version told, at the front of the output.
#[tactic(auto, using(crate::proofs::Calls::ways))]
pub fn pack(out: &mut [u8], form: Form, version: u16, words: &[u16]) -> Result<usize, Refusal>
    ensures { told result out.new ≡ packing form version words.now out.old }
{
    if !language::is_known(version) {
        return Err(Fault::WrongVersion.into());
    }
    let count = words.len();
    if count == 0 {
        return Err(Fault::NoWords.into());
    }
    if form.most_words() < count {
        return Err(Fault::TooManyWords.into());
    }
    let size = HEADER + WORD_BYTES * count;
    if out.len() < size {
        return Err(Fault::NoRoom.into());
    }
    let mut file = Output { words: out, pos: 0 };
    put_header(&mut file, form, version, count as u16);
    put_words(&mut file, words);
    Ok(size)
}

// The word at a place, low byte first.
pub fn word_at(bytes: &[u8], at: usize) -> u16
    requires { at + 2 ≤ length bytes.now }
    ensures { result ≡ word_at bytes.now at }
{
    u16::from_le_bytes([bytes[at], bytes[at + 1]])
}

// Whether a file is long enough for its mark, and the mark is that of the form.
fn has_mark(bytes: &[u8], form: Form) -> bool
    ensures { result ≡ marked form bytes.now }
{
    HEADER <= bytes.len() && bytes.starts_with(&form.mark())
}

// So many words from a place of a file on, at the front of the output.
pub fn take_words(out: &mut [u16], bytes: &[u8], at: usize, count: usize)
    requires { (at + 2 * count ≤ length bytes.now) × (count ≤ length out.old) }
    ensures { out.new ≡ sets out.old 0 (words_at bytes.now at count) }
{
    for (i, word) in out[..count].iter_mut().enumerate() {
        *word = word_at(bytes, at + WORD_BYTES * i);
    }
}

// Writes the words of the file at the front of the output. Reads no terms.
#[tactic(auto, using(crate::proofs::Calls::ways))]
fn take_file(out: &mut [u16], form: Form, bytes: &[u8]) -> Result<usize, Refusal>
    ensures { told result out.new ≡ taking form bytes.now out.old }
{
    if !has_mark(bytes, form) {
        return Err(Fault::WrongMark.into());
    }
    if !language::is_known(word_at(bytes, VERSION_AT)) {
        return Err(Fault::WrongVersion.into());
    }
    let count = word_at(bytes, COUNT_AT) as usize;
    if bytes.len() != HEADER + WORD_BYTES * count {
        return Err(Fault::WrongLength.into());
    }
    if count == 0 {
        return Err(Fault::NoWords.into());
    }
    if form.most_words() < count {
        return Err(Fault::TooManyWords.into());
    }
    if out.len() < count {
        return Err(Fault::NoRoom.into());
    }
    take_words(out, bytes, HEADER, count);
    Ok(count)
}

// Writes the words of the file at the front of the output, and gives the version that it carries and how many words. Reads no terms.
pub fn unpack(out: &mut [u16], form: Form, bytes: &[u8]) -> Result<Unpacked, Refusal>
    ensures { told_unpacked result out.new ≡ unpacking form bytes.now out.old }
{
    let count = take_file(out, form, bytes)?;
    let version = word_at(bytes, VERSION_AT);
    Ok(Unpacked { version, count })
}
