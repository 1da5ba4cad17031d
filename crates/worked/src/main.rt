// Answers the worked rules by file, as the bench program would, each after its name: 1a.lrs, 1b.lrs and so on, then 2a.lrs and on. The first sign is
// the version that the files of a set are about.

#![tactic(auto)]

use std::fmt::InlineText;
use std::fs::File;
use std::io;
use std::io::Write;
use std::rt::Files;

// The most bytes of a file's name: two signs of at most two bytes, and `.lrs`.
const MOST_NAME: usize = 8;

// Answers the file of a letter in a set, where there is one.
fn answer_letter<R: Files, W: Write, E: Write>(
    rt: &R,
    out: &mut W,
    errors: &mut E,
    set: u8,
    letter: u8,
) -> io::Result<()> {
    let (set_sign, letter_sign) = (char::from(set), char::from(letter));
    let path = InlineText::<MOST_NAME>::of(format_args!("{set_sign}{letter_sign}.lrs"));
    let mut file = File::open(rt, path.as_str())?;
    let _ = out.write_all(&[set, letter, b'\n']);
    desk::answer_file(&mut file, out, errors);
    Ok(())
}

// Answers the files of a set, from its first letter on, until there is none of a letter.
fn answer_set<R: Files, W: Write, E: Write>(rt: &R, out: &mut W, errors: &mut E, set: u8) {
    for letter in b'a'..=b'z' {
        if answer_letter(rt, out, errors, set, letter).is_err() {
            return;
        }
    }
}

fn main(rt: HostRuntime) {
    let (mut out, mut errors) = (rt.stdout(), rt.stderr());
    answer_set(&rt, &mut out, &mut errors, b'1');
    answer_set(&rt, &mut out, &mut errors, b'2');
}
