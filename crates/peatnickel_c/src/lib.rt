// The static library: what programs in C link with. Each export is the call of the same name of `peatnickel`, with its contract.

#![tactic(auto)]

ghost use Rattle.language.specs.Setting.{in_version};
ghost use Rattle.peatnickel.specs.Calls.{Asked, Means};

// Whether the words are a rule.
#[unsafe(no_mangle)]
pub extern "C" fn peatnickel_check(version: u16, words: &[u16]) -> u32
    ensures { Means (Asked.check (in_version version) words.now) result }
{
    peatnickel::peatnickel_check(version, words)
}

// How many words the image of a rule has.
#[unsafe(no_mangle)]
pub extern "C" fn peatnickel_measure(version: u16, words: &[u16]) -> u32
    ensures { Means (Asked.measure (in_version version) words.now) result }
{
    peatnickel::peatnickel_measure(version, words)
}

// Writes the image of a rule at the front of the output, and gives its word count.
#[unsafe(no_mangle)]
pub extern "C" fn peatnickel_write_apart(out: &mut [u16], version: u16, words: &[u16]) -> u32
    ensures { Means (Asked.write (in_version version) words.now out.old) (result, out.new) }
{
    peatnickel::peatnickel_write_apart(out, version, words)
}

// Writes the file of the words, of the form and in the version told, at the front of the output, and gives the bytes written.
#[unsafe(no_mangle)]
pub extern "C" fn peatnickel_pack_apart(
    out: &mut [u8],
    form: u32,
    version: u16,
    words: &[u16],
) -> u32
    ensures { Means (Asked.pack form version words.now out.old) (result, out.new) }
{
    peatnickel::peatnickel_pack_apart(out, form, version, words)
}

// Writes the words of a file, of the form told, at the front of the output, and gives the file's version and how many words. Reads no terms.
#[unsafe(no_mangle)]
pub extern "C" fn peatnickel_unpack_apart(out: &mut [u16], form: u32, bytes: &[u8]) -> u64
    ensures { Means (Asked.unpack form bytes.now out.old) (result, out.new) }
{
    peatnickel::peatnickel_unpack_apart(out, form, bytes)
}
