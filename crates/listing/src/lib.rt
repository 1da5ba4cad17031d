// The bench program's answer as text: a line with the reply, and the image's words in upper case, eight to a line.

#![tactic(auto)]

ghost use Rattle.std.specs.Prelude.{◌≡◌, ◌+◌, ◌*◌, ◌≤◌, ◌<◌, ◌∷◌, ◌++◌, length};
ghost use Rattle.language.specs.Faults.{number_of};
ghost use Rattle.language.specs.Calls.{told, filled};
ghost use Rattle.output.specs.Stored.{HasRoom, Writes};
ghost use Rattle.listing.specs.Printed.{printed};
ghost use Rattle.listing.specs.Text.{space, hex_digit, end_of, word_text, listed, decimal_text, number_text, ok_text, no_text, line, reply_text};

use language::{Fault, Refusal};
use output::Output;

const SPACE: u8 = b' ';

const NEWLINE: u8 = b'\n';

// A word's text is four digits and what stands after them. Words stand eight to a line.
const WORD_BYTES: usize = 5;

const WORDS_TO_A_LINE: usize = 8;

// A reply begins with `ok` or `no`.
const REPLY_BYTES: usize = 2;

// The most decimal digits of a number of 64 bits.
const MOST_DIGITS: usize = 20;

fn hex_digit(d: u16) -> u8
    requires { d < 16 }
    ensures { result ≡ hex_digit d }
{
    if d < 10 {
        return b'0' + d as u8;
    }
    b'A' - 10 + d as u8
}

// What stands after the word i of n.
fn end_of(n: usize, i: usize) -> u8
    requires { i < n }
    ensures { result ≡ end_of n i }
{
    if i + 1 == n {
        return NEWLINE;
    }
    if i % WORDS_TO_A_LINE == WORDS_TO_A_LINE - 1 {
        return NEWLINE;
    }
    SPACE
}

// A word's four digits, and what stands after them.
pub fn put_word(out: &mut Output<'_, u8>, w: u16, end: u8)
    requires { HasRoom out.old 5 }
    ensures { Writes (word_text w end) out.old out.new }
{
    out.put_all(&[
        hex_digit(w / 4096),
        hex_digit(w / 256 % 16),
        hex_digit(w / 16 % 16),
        hex_digit(w % 16),
        end,
    ]);
}

// The words, eight to a line.
pub fn put_words(out: &mut Output<'_, u8>, words: &[u16])
    requires { HasRoom out.old (5 * length words.now) }
    ensures { Writes (listed (length words.now) 0 words.now) out.old out.new }
{
    let n = words.len();
    for (i, word) in words.iter().enumerate() {
        put_word(out, *word, end_of(n, i));
    }
}

// A number's decimal digits, which stand at the front of the buffer.
#[tactic(auto, using(crate::proofs::Ways::spelled, crate::proofs::Ways::spelled_few))]
fn digits(buffer: &mut [u8; MOST_DIGITS], n: u64) -> &[u8]
    ensures few { length result.now ≤ 20 }
    ensures spelled { result.now ≡ decimal_text n }
{
    let count = io::decimal(n, buffer);
    &buffer[..count]
}

// A space and a number's digits.
fn put_number(out: &mut Output<'_, u8>, digits: &[u8])
    requires { HasRoom out.old (1 + length digits.now) }
    ensures { Writes (space ∷ digits.now) out.old out.new }
{
    out.put(SPACE);
    out.put_all(digits);
}

// A refusal as it is printed: any number, and its place.
#[derive(Clone, Copy, PartialEq, Eq)]
pub struct Numbered {
    pub number: u8,
    pub place: usize,
}

impl From<Refusal> for Numbered {
    ghost from_gives = { λ refusal numbered. numbered ≡ record { number = number_of refusal.fault; place = refusal.place } };

    fn from(refusal: Refusal) -> Numbered {
        Numbered {
            number: refusal.fault.number(),
            place: refusal.place,
        }
    }
}

// A refusal's number and its place.
#[tactic(auto, using(crate::proofs::Ways::refusal_short))]
fn show_refusal(out: &mut [u8], refusal: Numbered) -> Result<usize, Refusal>
    ensures { told result out.new ≡ filled (line (no_text refusal.number ++ number_text refusal.place)) out.old }
{
    let (mut number_buffer, mut place_buffer) = ([0; MOST_DIGITS], [0; MOST_DIGITS]);
    let number = digits(&mut number_buffer, refusal.number as u64);
    let place = digits(&mut place_buffer, refusal.place as u64);
    let size = REPLY_BYTES + 1 + number.len() + 1 + place.len() + 1;
    if out.len() < size {
        return Err(Fault::NoRoom.into());
    }
    let mut text = Output { words: out, pos: 0 };
    text.put_all(b"no");
    put_number(&mut text, number);
    put_number(&mut text, place);
    text.put(NEWLINE);
    Ok(size)
}

// An image's count and its words.
#[tactic(auto, using(crate::proofs::Ways::image_short, crate::proofs::Ways::words_too_many))]
fn show_image(out: &mut [u8], n: usize, words: &[u16]) -> Result<usize, Refusal>
    ensures { told result out.new ≡ filled (line (ok_text n) ++ listed (length words.now) 0 words.now) out.old }
{
    let mut buffer = [0; MOST_DIGITS];
    let number = digits(&mut buffer, n as u64);
    let start = REPLY_BYTES + 1 + number.len() + 1;
    if out.len() < start {
        return Err(Fault::NoRoom.into());
    }
    if (out.len() - start) / WORD_BYTES < words.len() {
        return Err(Fault::NoRoom.into());
    }
    let mut text = Output { words: out, pos: 0 };
    text.put_all(b"ok");
    put_number(&mut text, number);
    text.put(NEWLINE);
    put_words(&mut text, words);
    Ok(start + WORD_BYTES * words.len())
}

// The bench program's whole answer, at the front of the output: a line with the reply, and on success the image's words.
#[tactic(auto, using(crate::proofs::Ways::refusal_shown, crate::proofs::Ways::image_shown))]
pub fn show(
    out: &mut [u8],
    answer: Result<usize, Numbered>,
    words: &[u16],
) -> Result<usize, Refusal>
    ensures { told result out.new ≡ filled (reply_text (printed answer) words.now) out.old }
{
    match answer {
        Ok(n) => show_image(out, n, words),
        Err(refusal) => show_refusal(out, refusal),
    }
}
