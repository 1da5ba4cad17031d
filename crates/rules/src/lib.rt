// The public calls. A call on words is told the version. None has a `requires`: every sequence of words or bytes and every lent output gets its
// reply, and a refusal leaves the output as it was. `Allows` says of each call which outcomes are allowed, and exactly one is.

#![tactic(auto)]

ghost use Rattle.language.specs.Setting.{in_version};
ghost use Rattle.rules.specs.PublicCalls.{Call, Allows};

use files::{Form, Unpacked};
use language::{Fault, Refusal};

// Whether the words are a rule.
pub fn check(version: u16, words: &[u16]) -> Result<(), Refusal>
    ensures { Allows (Call.check (in_version version) words.now) result }
{
    reading::check(version, words)
}

// How many words the image of a rule has.
pub fn measure(version: u16, words: &[u16]) -> Result<usize, Refusal>
    ensures { Allows (Call.measure (in_version version) words.now) result }
{
    reading::measure(version, words)
}

// Writes the image of a rule at the front of the output, and gives its word count.
#[tactic(auto, using(crate::proofs::Ways::w_refused))]
pub fn write(out: &mut [u16], version: u16, words: &[u16]) -> Result<usize, Refusal>
    ensures { Allows (Call.write (in_version version) words.now out.old) (result, out.new) }
{
    let count = reading::measure(version, words)?;
    if out.len() < count {
        return Err(Fault::NoRoom.into());
    }
    Ok(writing::write_image(out, words))
}

// Writes the file of the words, of the form and in the version told, at the front of the output, and gives the bytes written.
pub fn pack(out: &mut [u8], form: Form, version: u16, words: &[u16]) -> Result<usize, Refusal>
    ensures { Allows (Call.pack form version words.now out.old) (result, out.new) }
{
    files::pack(out, form, version, words)
}

// Writes the words of a file, of the form told, at the front of the output, and gives the file's version and how many words. Reads no terms.
pub fn unpack(out: &mut [u16], form: Form, bytes: &[u8]) -> Result<Unpacked, Refusal>
    ensures { Allows (Call.unpack form bytes.now out.old) (result, out.new) }
{
    files::unpack(out, form, bytes)
}
