// Writes the image of a rule that was checked: one forward pass over the rule's words and over the output.

#![tactic(auto)]

ghost use Rattle.std.specs.Prelude.{◌≡◌, ◌%◌, ◌<◌, true, false, length, get_or};
ghost use Rattle.language.specs.Words.{head};
ghost use Rattle.language.specs.declared.Parts.TheVariants.{Nothing, Body, FunctionAndArguments, BoundAndBody, CountAndArguments, SubjectAndArms, HighAndLow, TwoParts};
ghost use Rattle.writing.specs.Jobs.{passed, kept, keeps, chained, branches, copied, linked, handed, imaged, ReadyFor, NextIs, NextIsAtom, Does};
ghost use Rattle.writing.specs.Written.{SomeWritable, ImageWritten};

use atoms::{HEAD_AND_COUNT, HEAD_AND_NUMBER};
use language::{LOW_BYTE, OPERANDS, Parts};
use output::Output;
use runs::{Continuation, Source};

// Where a number's words stand behind its head.
const HIGH: usize = 1;

const LOW: usize = 2;

// A rule, the place of the next word of it that is read, and the output that the image is written to. Each method below reads what stands at
// this place, up to its end, and writes a form of it.
#[derive(Drop)]
struct Translator<'rule, 'out, 'words> {
    rule: &'rule [u16],
    at: usize,
    out: &'out mut Output<'words, u16>,
}

impl<'rule, 'out, 'words> Translator<'rule, 'out, 'words> {
    // The low byte of the next word.
    fn low_byte(&self) -> u8
        requires { self.now.at < length self.now.rule.now }
        ensures { result ≡ get_or self.now.rule.now self.now.at 0 % 256 }
    {
        (self.rule[self.at] % LOW_BYTE) as u8
    }

    // The next `count` words, as they are.
    fn put_copied(&mut self, count: usize)
        requires some { 0 < count }
        requires ready { ReadyFor (copied count) self.old }
        ensures { Does (copied count) self.old self.new }
    {
        let end = self.at + count;
        self.out.put_all(&self.rule[self.at..end]);
        self.at = end;
    }

    // The image of a rule.
    fn put_image(&mut self)
        requires { ReadyFor imaged self.old }
        ensures { Does imaged self.old self.new }
    {
        self.out.put(runs::CALL_OF_ONE);
        self.put_passing(language::DEEPEST);
        runs::put_identity(self.out);
    }

    // The passing form of a term, which has at most `depth` levels.
    #[cycle(forms)]
    fn put_passing(&mut self, depth: usize)
        requires { ReadyFor (passed depth) self.old }
        ensures { Does (passed depth) self.old self.new }
    {
        match atoms::parts_at(self.rule, self.at) {
            Parts::Nothing | Parts::Body | Parts::HighAndLow => self.put_atom(depth),
            Parts::FunctionAndArguments => self.put_call(depth),
            Parts::BoundAndBody => self.put_let(depth),
            Parts::CountAndArguments => {
                if atoms::is_atom(self.rule, self.at) {
                    self.put_atom(depth);
                } else {
                    self.put_build(depth);
                }
            }
            Parts::SubjectAndArms => self.put_match(depth),
            Parts::ArityAndBody => unreachable!(),
            Parts::TwoParts => self.put_operation(depth),
        }
    }

    // The passing form of an atom.
    #[cycle(forms)]
    fn put_atom(&mut self, depth: usize)
        requires ready { ReadyFor (passed depth) self.old }
        requires atom { NextIsAtom true depth self.old }
        ensures { Does (passed depth) self.old self.new }
    {
        runs::put_added(self.out, runs::CALL_OF_ONE, Continuation(0));
        self.put_carried(depth);
    }

    // The passing form of a call.
    #[cycle(forms)]
    fn put_call(&mut self, depth: usize)
        requires ready { ReadyFor (passed depth) self.old }
        requires form { NextIs FunctionAndArguments depth self.old }
        ensures { Does (passed depth) self.old self.new }
    {
        let arguments = self.low_byte();
        self.at += 1;
        self.put_chain(depth - 1, arguments as usize + 1);
        runs::put_calling(self.out, arguments);
    }

    // The passing form of a let: inside the added function, k_0 is the value and k_1 the continuation.
    #[cycle(forms)]
    fn put_let(&mut self, depth: usize)
        requires ready { ReadyFor (passed depth) self.old }
        requires form { NextIs BoundAndBody depth self.old }
        ensures { Does (passed depth) self.old self.new }
    {
        self.at += 1;
        self.put_link(depth - 1);
        runs::put_added(self.out, runs::LET, Continuation(0));
        self.put_handed(depth - 1, Continuation(1));
    }

    // The passing form of a constructor that is no atom.
    #[cycle(forms)]
    fn put_build(&mut self, depth: usize)
        requires ready { ReadyFor (passed depth) self.old }
        requires form { NextIs CountAndArguments depth self.old }
        requires no_atom { NextIsAtom false depth self.old }
        ensures { Does (passed depth) self.old self.new }
    {
        let tag = self.low_byte();
        let count = atoms::count_at(self.rule, self.at);
        self.at += HEAD_AND_COUNT;
        self.put_chain(depth - 1, count);
        runs::put_making(self.out, tag, count as u8);
    }

    // The passing form of an operation: that of a constructor that is no atom, but for its one word.
    #[cycle(forms)]
    fn put_operation(&mut self, depth: usize)
        requires ready { ReadyFor (passed depth) self.old }
        requires form { NextIs TwoParts depth self.old }
        ensures { Does (passed depth) self.old self.new }
    {
        let operation = self.low_byte();
        self.at += 1;
        self.put_chain(depth - 1, OPERANDS as usize);
        runs::put_working(self.out, operation, OPERANDS);
    }

    // The passing form of a match.
    #[cycle(forms)]
    fn put_match(&mut self, depth: usize)
        requires ready { ReadyFor (passed depth) self.old }
        requires form { NextIs SubjectAndArms depth self.old }
        ensures { Does (passed depth) self.old self.new }
    {
        let word = self.rule[self.at];
        self.at += 1;
        self.put_link(depth - 1);
        runs::put_added(self.out, word, Continuation(0));
        self.put_arms(depth - 1, (word % LOW_BYTE) as usize);
    }

    // An added function, and a call in it of the passing form of a term.
    #[cycle(forms)]
    fn put_link(&mut self, depth: usize)
        requires { ReadyFor (linked depth) self.old }
        ensures { Does (linked depth) self.old self.new }
    {
        self.out.put_all(&[runs::ADDED_FUNCTION, runs::CALL_OF_ONE]);
        self.put_passing(depth);
    }

    // A call of the passing form of a term, which is handed k.
    #[cycle(forms)]
    fn put_handed(&mut self, depth: usize, k: Continuation)
        requires { ReadyFor (handed depth (head 9 k.0)) self.old }
        ensures { Does (handed depth (head 9 k.0)) self.old self.new }
    {
        self.out.put(runs::CALL_OF_ONE);
        self.put_passing(depth);
        runs::put_continuation(self.out, k);
    }

    // The carried form of an atom.
    #[cycle(forms)]
    fn put_carried(&mut self, depth: usize)
        requires { ReadyFor (kept depth) self.old }
        ensures { Does (kept depth) self.old self.new }
    {
        match atoms::parts_at(self.rule, self.at) {
            Parts::Nothing => self.put_variable(depth),
            Parts::Body => self.put_function(depth),
            Parts::CountAndArguments => self.put_constructor(depth),
            Parts::HighAndLow => self.put_number(depth),
            Parts::FunctionAndArguments
            | Parts::BoundAndBody
            | Parts::SubjectAndArms
            | Parts::ArityAndBody
            | Parts::TwoParts => unreachable!(),
        }
    }

    // The carried form of a variable: the variable.
    fn put_variable(&mut self, depth: usize)
        requires ready { ReadyFor (kept depth) self.old }
        requires form { NextIs Nothing depth self.old }
        ensures { Does (kept depth) self.old self.new }
    {
        let variable = Source(self.low_byte());
        runs::put_source(self.out, variable);
        self.at += 1;
    }

    // The carried form of a number: itself, its head and its two words.
    fn put_number(&mut self, depth: usize)
        requires ready { ReadyFor (kept depth) self.old }
        requires form { NextIs HighAndLow depth self.old }
        ensures { Does (kept depth) self.old self.new }
    {
        let at = self.at;
        let number = [self.rule[at], self.rule[at + HIGH], self.rule[at + LOW]];
        self.out.put_all(&number);
        self.at += HEAD_AND_NUMBER;
    }

    // The carried form of a function, recursive or not: it has one argument more.
    #[cycle(forms)]
    fn put_function(&mut self, depth: usize)
        requires ready { ReadyFor (kept depth) self.old }
        requires form { NextIs Body depth self.old }
        ensures { Does (kept depth) self.old self.new }
    {
        let head = self.rule[self.at];
        self.out.put(head + 1);
        self.at += 1;
        self.put_handed(depth - 1, Continuation(0));
    }

    // The carried form of a constructor of atoms.
    #[cycle(forms)]
    fn put_constructor(&mut self, depth: usize)
        requires ready { ReadyFor (kept depth) self.old }
        requires form { NextIs CountAndArguments depth self.old }
        ensures { Does (kept depth) self.old self.new }
    {
        let count = atoms::count_at(self.rule, self.at);
        self.put_copied(HEAD_AND_COUNT);
        self.put_carrieds(depth - 1, count);
    }

    // The carried forms of `count` atoms.
    #[cycle(forms)]
    fn put_carrieds(&mut self, depth: usize, count: usize)
        requires { ReadyFor (keeps depth count) self.old }
        ensures { Does (keeps depth count) self.old self.new }
    {
        'atoms: for _ in 0..count {
            self.put_carried(depth);
        }
    }

    // The chain over `count` terms, without its end.
    #[cycle(forms)]
    fn put_chain(&mut self, depth: usize, count: usize)
        requires { ReadyFor (chained depth count) self.old }
        ensures { Does (chained depth count) self.old self.new }
    {
        'links: for _ in 0..count {
            self.put_link(depth);
        }
    }

    // `count` arms, each with its two words: its body is handed k_1.
    #[cycle(forms)]
    fn put_arms(&mut self, depth: usize, count: usize)
        requires { ReadyFor (branches depth count) self.old }
        ensures { Does (branches depth count) self.old self.new }
    {
        'arms: for _ in 0..count {
            self.put_copied(HEAD_AND_COUNT);
            self.put_handed(depth, Continuation(1));
        }
    }
}

// The image of the rule s, at the front of the output; every later word of the output is unchanged. Returns the image's word count.
pub fn write_image(out: &mut [u16], s: &[u16]) -> usize
    requires { SomeWritable out.old s.now }
    ensures { ImageWritten out.old s.now out.new result }
{
    let mut output = Output { words: out, pos: 0 };
    let mut translator = Translator {
        rule: s,
        at: 0,
        out: &mut output,
    };
    translator.put_image();
    output.pos
}
