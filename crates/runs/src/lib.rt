// Writes runs of words into an image: the heads that it adds, its variables, and the ends of its chains.

#![tactic(auto)]

ghost use Rattle.std.specs.Prelude.{◌≡◌, ◌+◌, ◌<◌, [], ◌∷◌, ◌++◌, length};
ghost use Rattle.language.specs.Term.{images};
ghost use Rattle.language.specs.Kinds.{most_byte};
ghost use Rattle.language.specs.Words.{head, words, wordsᵗ};
ghost use Rattle.language.specs.Image.{downto, calling, making, working};
ghost use Rattle.output.specs.Stored.{HasRoom, Writes};

use output::Output;

// A source variable's index, and a continuation variable's: no function takes one for the other.
#[derive(Clone, Copy)]
pub struct Source(pub u8);

#[derive(Clone, Copy)]
pub struct Continuation(pub u8);

// The head words that an image adds. A variable's index, a call's arguments, a constructor's tag, or the operation, is added to its head.
const SOURCE: u16 = 0x0100;

pub const ADDED_FUNCTION: u16 = 0x0201;

const CALL: u16 = 0x0400;

pub const CALL_OF_ONE: u16 = 0x0401;

pub const LET: u16 = 0x0500;

const CONSTRUCTOR: u16 = 0x0600;

const CONTINUATION: u16 = 0x0900;

const OPERATION: u16 = 0x0B00;

impl Source {
    // The head of the variable x_i.
    fn head(self) -> u16
        ensures { result ≡ head 1 self.0 }
    {
        SOURCE + self.0 as u16
    }
}

impl Continuation {
    // The head of the continuation variable k_i.
    fn head(self) -> u16
        ensures { result ≡ head 9 self.0 }
    {
        CONTINUATION + self.0 as u16
    }
}

pub fn put_source(out: &mut Output<'_, u16>, x: Source)
    requires { HasRoom out.old 1 }
    ensures { Writes (head 1 x.0 ∷ []) out.old out.new }
{
    out.put(x.head());
}

pub fn put_continuation(out: &mut Output<'_, u16>, k: Continuation)
    requires { HasRoom out.old 1 }
    ensures { Writes (head 9 k.0 ∷ []) out.old out.new }
{
    out.put(k.head());
}

// An added function of a continuation alone, the head of its body, and a continuation variable.
pub fn put_added(out: &mut Output<'_, u16>, w: u16, k: Continuation)
    requires { HasRoom out.old 3 }
    ensures { Writes (0x0201 ∷ w ∷ head 9 k.0 ∷ []) out.old out.new }
{
    out.put_all(&[ADDED_FUNCTION, w, k.head()]);
}

// The added function that gives back what it is given.
pub fn put_identity(out: &mut Output<'_, u16>)
    requires { HasRoom out.old 2 }
    ensures { Writes (0x0201 ∷ head 9 0 ∷ []) out.old out.new }
{
    out.put_all(&[ADDED_FUNCTION, Continuation(0).head()]);
}

// k_(n-1) down to k_0.
fn put_down(out: &mut Output<'_, u16>, n: u8)
    requires { HasRoom out.old n }
    ensures { Writes (wordsᵗ images (downto n)) out.old out.new }
{
    for i in (0..n).rev() {
        put_continuation(out, Continuation(i));
    }
}

// The end of the chain of a call with n arguments: k_n applied to k_(n+1), then k_(n-1) down to k_0.
pub fn put_calling(out: &mut Output<'_, u16>, n: u8)
    requires { HasRoom out.old (n + 4) × (n < most_byte) }
    ensures { Writes (0x0201 ∷ words images (calling n)) out.old out.new }
{
    let (called, first) = (Continuation(n), Continuation(n + 1));
    let end = [
        ADDED_FUNCTION,
        CALL + n as u16 + 1,
        called.head(),
        first.head(),
    ];
    out.put_all(&end);
    put_down(out, n);
}

// The end of the chain of n terms whose values a term takes, with these words and then k_(n-1) down to k_0: k_n applied to it.
fn put_handing(out: &mut Output<'_, u16>, n: u8, words: &[u16])
    requires { HasRoom out.old (3 + length words.now + n) }
    ensures { Writes ((0x0201 ∷ 0x0401 ∷ head 9 n ∷ []) ++ (words.now ++ wordsᵗ images (downto n))) out.old out.new }
{
    put_added(out, CALL_OF_ONE, Continuation(n));
    out.put_all(words);
    put_down(out, n);
}

// The end of the chain of a constructor's n arguments: k_n applied to the constructor of k_(n-1) down to k_0.
pub fn put_making(out: &mut Output<'_, u16>, tag: u8, n: u8)
    requires { HasRoom out.old (n + 5) }
    ensures { Writes (0x0201 ∷ words images (making tag n)) out.old out.new }
{
    put_handing(out, n, &[CONSTRUCTOR + tag as u16, n as u16]);
}

// The end of the chain of an operation's parts: of n parts, k_n applied to the operation on k_(n-1) down to k_0.
pub fn put_working(out: &mut Output<'_, u16>, operation: u8, parts: u8)
    requires { HasRoom out.old (parts + 4) }
    ensures { Writes (0x0201 ∷ words images (working operation parts)) out.old out.new }
{
    put_handing(out, parts, &[OPERATION + operation as u16]);
}
