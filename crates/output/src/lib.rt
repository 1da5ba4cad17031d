// Words written one after another into lent memory: those of an image, of a record, or the bytes of a file.

#![tactic(auto)]

ghost use Rattle.std.specs.Prelude.{◌≡◌, [], ◌∷◌, length};
ghost use Rattle.output.specs.Stored.{HasRoom, Writes};

// Lent memory, and the place of the next word that is written.
#[derive(Drop)]
pub struct Output<'a, T> {
    pub words: &'a mut [T],
    pub pos: usize,
}

impl<'a, T: Copy> Output<'a, T> {
    pub fn put(&mut self, word: T)
        requires { HasRoom self.old 1 }
        ensures { Writes (word ∷ []) self.old self.new }
    {
        self.words[self.pos] = word;
        self.pos += 1;
    }

    // So many words, one after the other.
    pub fn put_all(&mut self, words: &[T])
        requires { HasRoom self.old (length words.now) }
        ensures { Writes words.now self.old self.new }
    {
        let end = self.pos + words.len();
        self.words[self.pos..end].copy_from_slice(words);
        self.pos = end;
    }
}
