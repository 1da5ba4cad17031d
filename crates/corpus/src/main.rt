// Runs the translator on many rules: standard input holds records, each a version, a count of words and the words, all low byte first. Of each it
// prints the refusal and its place, or the image's count and checksum, and the image itself where it is short.

#![tactic(auto)]

ghost use Rattle.std.specs.Prelude.{◌≡◌, ◌*◌, ◌<◌, ◌≤◌, length, IfSome};

use desk::Failure;
use output::Output;
use std::io;
use std::io::{Read, Write};

// The most bytes of the input, and the most words of a record.
const MOST_INPUT: usize = 600000;

const MOST_RECORD: usize = 5000;

// The bytes before a record's words, its version and its count; where the count stands in them; and the bytes of each word.
const RECORD_HEADER: usize = 4;

const COUNT_AT: usize = 2;

const WORD_BYTES: usize = 2;

// An image of at most so many words is printed whole; its text has five bytes for each word.
const SHORT_IMAGE: usize = 64;

const WORD_TEXT: usize = 5;

const SHORT_TEXT: usize = WORD_TEXT * SHORT_IMAGE;

// A word's digits are all of its text but the byte behind them. A checksum's text is the digits of both sums and the line's end.
const WORD_DIGITS: usize = WORD_TEXT - 1;

const CHECKSUM_TEXT: usize = 2 * WORD_DIGITS + 1;

// The checksum's modulus, the greatest prime below 65,536.
const MODULUS: u32 = 65521;

// The two sums of a checksum: of the words, and of those sums.
#[derive(Clone, Copy)]
struct Sums {
    low: u32,
    high: u32,
    ghost below_modulus: { (low < 65521) × (high < 65521) },
}

impl Sums {
    // The sums with one word more.
    fn with(self, word: u16) -> Sums {
        let low = (self.low + word as u32) % MODULUS;
        let high = (self.high + low) % MODULUS;
        Sums { low, high }
    }
}

fn checksum(words: &[u16]) -> Sums {
    let none = Sums { low: 1, high: 0 };
    words.iter().fold(none, |sums, word| sums.with(*word))
}

// Prints an accepted rule's line, and its image where that is short.
fn print_image<W: Write>(out: &mut W, image: &[u16]) -> io::Result<()> {
    let sums = checksum(image);
    let count = image.len();
    let mut text = [0u8; CHECKSUM_TEXT];
    let mut digits = Output {
        words: &mut text,
        pos: 0,
    };
    listing::put_word(&mut digits, sums.high as u16, b' ');
    // The line goes on without the space.
    digits.pos = WORD_DIGITS;
    listing::put_word(&mut digits, sums.low as u16, b'\n');
    write!(out, "ok {count} ")?;
    out.write_all(&text)?;
    print_short(out, image)
}

fn print_short<W: Write>(out: &mut W, image: &[u16]) -> io::Result<()> {
    if SHORT_IMAGE < image.len() {
        return Ok(());
    }
    let mut text = [0u8; SHORT_TEXT];
    let mut listed = Output {
        words: &mut text,
        pos: 0,
    };
    listing::put_words(&mut listed, image);
    let size = WORD_TEXT * image.len();
    out.write_all(&text[..size])
}

// A record at the front of some bytes: its version, the bytes of its words, and the bytes behind it.
#[derive(Clone, Copy)]
struct Record<'a> {
    version: u16,
    words: &'a [u8],
    rest: &'a [u8],
}

// The record at the front, where there is a whole one that is not too long.
fn first_record<'a>(bytes: &'a [u8]) -> Option<Record<'a>>
    ensures { IfSome result (λ r. (length r.words.now ≤ 2 * 5000) × (length r.rest.now < length bytes.now)) }
{
    let (header, behind) = bytes.split_at_checked(RECORD_HEADER)?;
    let version = files::word_at(header, 0);
    let count = files::word_at(header, COUNT_AT) as usize;
    if MOST_RECORD < count {
        return None;
    }
    let (words, rest) = behind.split_at_checked(WORD_BYTES * count)?;
    Some(Record {
        version,
        words,
        rest,
    })
}

// Translates a record's rule, read in its version, and prints what came of it.
fn report<W: Write>(out: &mut W, version: u16, words: &[u8]) -> io::Result<()>
    requires { length words.now ≤ 2 * 5000 }
{
    let count = words.len() / WORD_BYTES;
    let mut rule = [0u16; MOST_RECORD];
    files::take_words(&mut rule, words, 0, count);
    let mut image = [0u16; language::MOST_IMAGE_WORDS];
    match rules::write(&mut image, version, &rule[..count]) {
        Ok(count) => print_image(out, &image[..count]),
        Err(refusal) => writeln!(out, "no {refusal}"),
    }
}

fn report_all<W: Write>(out: &mut W, bytes: &[u8]) -> io::Result<()> {
    let mut rest = bytes;
    while let Some(record) = first_record(rest) {
        report(out, record.version, record.words)?;
        rest = record.rest;
    }
    Ok(())
}

// Zeros, to read the input into. A proof that lends them needs their number alone.
fn zeros<const N: usize>() -> [u8; N]
    ensures { N ≡ length result }
{
    [0; N]
}

// Reads the records of a file, as far as the buffer holds them, and reports each.
fn report_file<F: Read, W: Write>(
    buffer: &mut [u8],
    file: &mut F,
    out: &mut W,
) -> Result<(), Failure> {
    let arrived = desk::read_file(buffer, file).map_err(|_| Failure::NotRead)?;
    report_all(out, &buffer[..arrived]).map_err(|_| Failure::NotWritten)
}

fn main(rt: HostRuntime) {
    let mut input = zeros::<MOST_INPUT>();
    if let Err(failure) = report_file(&mut input, &mut rt.stdin(), &mut rt.stdout()) {
        failure.tell(&mut rt.stderr());
    }
}
