// The bench's desk: a file of the rules' form comes in, and the whole answer goes out as text. The programs are thin over this.

#![tactic(auto)]

ghost use Rattle.std.specs.Prelude.{◌≡◌, ◌≤◌, length, IfOk};
ghost use Rattle.language.specs.Calls.{reply_of, told, filled};
ghost use Rattle.listing.specs.Printed.{printed};
ghost use Rattle.desk.specs.Desk.{Counts, Translates, answer_text};
ghost use Rattle.desk.specs.Told.{failure_line};

use files::Form;
use language::{Fault, Refusal};
use listing::Numbered;
use std::io;
use std::io::{Read, Write};

// The bytes of the longest file of the rules' form.
const MOST_BYTES: usize = 8199;

// The bytes of the longest answer: a line with a count of five digits, and five for each word of the longest image.
const MOST_TEXT: usize = 9 + 5 * language::MOST_IMAGE_WORDS;

// What can fail of a program that reads a file and prints what it makes of it.
#[derive(Clone, Copy, PartialEq, Eq)]
pub enum Failure {
    NotRead,
    NotWritten,
}

impl Failure {
    // The line that tells it.
    fn line(self) -> &'static [u8]
        ensures { result.now ≡ failure_line self }
    {
        match self {
            Failure::NotRead => b"peatnickel: the input could not be read\n",
            Failure::NotWritten => b"peatnickel: the answer could not be written whole\n",
        }
    }

    // Tells it on standard error. Where that fails too, nothing more can be done.
    pub fn tell<E: Write>(self, errors: &mut E) {
        let _ = errors.write_all(self.line());
    }
}

// The image of the rule in a file, which is read in the version that the file carries, at the front of the output.
fn translate(out: &mut [u16], bytes: &[u8]) -> Result<usize, Refusal>
    ensures { Translates bytes.now out.old result out.new }
{
    if MOST_BYTES < bytes.len() {
        return Err(Fault::TooManyWords.into());
    }
    let mut rule = [0u16; language::MOST_WORDS];
    let unpacked = rules::unpack(&mut rule, Form::Rules, bytes)?;
    rules::write(out, unpacked.version, &rule[..unpacked.count])
}

// How many words or bytes an answer counts.
#[tactic(auto, using(crate::proofs::Ways::counted))]
fn counted(answer: Result<usize, Refusal>) -> usize
    ensures { Counts answer result }
{
    answer.unwrap_or(0)
}

// The reply as it is printed.
#[tactic(auto, unfolding(language::specs::Calls::reply_of))]
fn numbered(reply: Result<usize, Refusal>) -> Result<usize, Numbered>
    ensures { printed result ≡ reply_of reply }
{
    Ok(reply?)
}

// The whole answer to the bytes that arrived, at the front of the text, and its length.
fn answer(text: &mut [u8], bytes: &[u8]) -> Result<usize, Refusal>
    ensures { told result text.new ≡ filled (answer_text bytes.now) text.old }
{
    let mut image = [0u16; language::MOST_IMAGE_WORDS];
    let reply = translate(&mut image, bytes);
    let count = counted(reply);
    listing::show(text, numbered(reply), &image[..count])
}

// Reads a file to its end, or until the buffer is full; how many bytes arrived.
pub fn read_file<F: Read>(buffer: &mut [u8], file: &mut F) -> io::Result<usize>
    ensures { IfOk result (λ arrived. arrived ≤ length buffer.new) }
{
    let mut arrived = 0;
    while arrived < buffer.len() {
        let more = file.read(&mut buffer[arrived..])?;
        if more == 0 {
            break;
        }
        arrived += more;
    }
    Ok(arrived)
}

// Prints the whole answer to the bytes that arrived.
fn print_answer<W: Write>(out: &mut W, bytes: &[u8]) -> io::Result<()> {
    let mut text = [0u8; MOST_TEXT];
    let size = counted(answer(&mut text, bytes));
    out.write_all(&text[..size])
}

// Reads a file to its end, or until more has arrived than the longest has, and prints the whole answer.
fn try_answer_file<F: Read, W: Write>(file: &mut F, out: &mut W) -> Result<(), Failure> {
    let mut input = [0u8; MOST_BYTES + 1];
    let arrived = read_file(&mut input, file).map_err(|_| Failure::NotRead)?;
    print_answer(out, &input[..arrived]).map_err(|_| Failure::NotWritten)
}

// The same, where what failed is told on standard error.
pub fn answer_file<F: Read, W: Write, E: Write>(file: &mut F, out: &mut W, errors: &mut E) {
    if let Err(failure) = try_answer_file(file, out) {
        failure.tell(errors);
    }
}
