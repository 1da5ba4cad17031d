// The controller's face: the public calls for programs in C. Words, bytes and outputs are lent as a pointer and a length; the reply is one number,
// whose meaning specs/Numbers.antt gives. As in `rules` no call has a `requires`, and `Means` says of each which outcomes are allowed.
// The calls named `_apart` take a mutable output besides: that it shares no byte with what else is lent is a borrow's rule here, and in C the caller's part.

#![tactic(auto)]

ghost use Rattle.std.specs.Prelude.{◌≡◌, ◌≤◌};
ghost use Rattle.language.specs.Setting.{in_version};
ghost use Rattle.language.specs.Limits.{most_words};
ghost use Rattle.language.specs.Faults.{number_of};
ghost use Rattle.language.specs.Calls.{reply_of};
ghost use Rattle.files.specs.Files.{unpacked_reply};
ghost use Rattle.peatnickel.specs.Numbers.{Small, SmallUnpacked, answer_of, unpacked_of, form_of, refusal_number};
ghost use Rattle.peatnickel.specs.Calls.{Asked, Means};

use files::{Form, Unpacked};
use language::Refusal;

// Where the refusals start, and what each place adds to a refusal's reply. Below are the counts.
const REFUSALS: u32 = 65536;

// What each version adds to unpacking's reply.
const VERSIONS: u64 = 4294967296;

// The checking call's reply to a rule.
const SUCCESS: u32 = 0;

// The reply where the number told is no form's: document 01 numbers refusals from 1 on.
const NO_FORM: u32 = 65536;

// The numbers of the forms.
const RULES: u32 = 0;

const IMAGES: u32 = 1;

// The form that a number tells.
#[tactic(auto, using(crate::proofs::Ways::forms))]
fn form_of(n: u32) -> Option<Form>
    ensures { result ≡ form_of n }
{
    match n {
        RULES => Some(Form::Rules),
        IMAGES => Some(Form::Images),
        _ => None,
    }
}

// The number that means a refusal at a place.
fn refused(refusal: Refusal) -> u32
    requires { refusal.place ≤ most_words }
    ensures { result ≡ refusal_number (number_of refusal.fault) refusal.place }
{
    REFUSALS + refusal.fault.number() as u32 + REFUSALS * refusal.place as u32
}

// The number that means this answer.
#[tactic(auto, using(crate::proofs::Ways::numbers))]
fn number(answer: Result<usize, Refusal>) -> u32
    requires { Small answer }
    ensures { answer_of result ≡ reply_of answer }
{
    match answer {
        Ok(count) => count as u32,
        Err(refusal) => refused(refusal),
    }
}

// The number that means this answer of unpacking.
#[tactic(auto, using(crate::proofs::Ways::numbers))]
fn unpacked_number(answer: Result<Unpacked, Refusal>) -> u64
    requires { SmallUnpacked answer }
    ensures { unpacked_of result ≡ unpacked_reply answer }
{
    match answer {
        Ok(unpacked) => VERSIONS * unpacked.version as u64 + unpacked.count as u64,
        Err(refusal) => refused(refusal) as u64,
    }
}

// Whether the words are a rule.
#[tactic(auto, using(crate::proofs::Ways::checks))]
pub fn peatnickel_check(version: u16, words: &[u16]) -> u32
    ensures { Means (Asked.check (in_version version) words.now) result }
{
    match rules::check(version, words) {
        Ok(()) => SUCCESS,
        Err(reason) => refused(reason),
    }
}

// How many words the image of a rule has.
#[tactic(auto, using(crate::proofs::Ways::s_measured))]
pub fn peatnickel_measure(version: u16, words: &[u16]) -> u32
    ensures { Means (Asked.measure (in_version version) words.now) result }
{
    number(rules::measure(version, words))
}

// Writes the image of a rule at the front of the output, and gives its word count.
pub fn peatnickel_write_apart(out: &mut [u16], version: u16, words: &[u16]) -> u32
    ensures { Means (Asked.write (in_version version) words.now out.old) (result, out.new) }
{
    number(rules::write(out, version, words))
}

// Writes the file of the words, of the form and in the version told, at the front of the output, and gives the bytes written.
pub fn peatnickel_pack_apart(out: &mut [u8], form: u32, version: u16, words: &[u16]) -> u32
    ensures { Means (Asked.pack form version words.now out.old) (result, out.new) }
{
    match form_of(form) {
        Some(form) => number(rules::pack(out, form, version, words)),
        None => NO_FORM,
    }
}

// Writes the words of a file, of the form told, at the front of the output, and gives the file's version and how many words. Reads no terms.
pub fn peatnickel_unpack_apart(out: &mut [u16], form: u32, bytes: &[u8]) -> u64
    ensures { Means (Asked.unpack form bytes.now out.old) (result, out.new) }
{
    match form_of(form) {
        Some(form) => unpacked_number(rules::unpack(out, form, bytes)),
        None => NO_FORM as u64,
    }
}
