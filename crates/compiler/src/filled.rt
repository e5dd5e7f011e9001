// Lent words that are filled from the front on.
ghost use Rattle.std.specs.Prelude.{◌≡◌, ◌<◌, ◌≤◌, ◌++◌, length, drop, slice_set};

// Lent words, and how many of them are written.
#[derive(Drop)]
pub struct Filled<'a> {
    pub words: &'a mut [u32],
    pub len: usize,
    ghost inside: { len ≤ length words.now },
}

impl Filled<'_> {
    ghost use Rattle.compiler.specs.Filling.{filled, rest};

    // How many words are written.
    pub fn len(&self) -> usize
        ensures { result ≡ length (filled self.now) }
    {
        self.len
    }

    // The words that are written.
    pub fn written(&self) -> &[u32]
        ensures { result.now ≡ filled self.now }
    {
        &self.words[..self.len]
    }

    // Writes words behind those that are written.
    pub fn put(&mut self, words: &[u32])
        requires { length words.now ≤ length (rest self.old) }
        ensures filled { filled self.new ≡ filled self.old ++ words.now }
        ensures rest { rest self.new ≡ drop (length words.now) (rest self.old) }
        ensures same_words { self.new.words.ghost_name ≡ self.old.words.ghost_name }
    {
        let end = self.len + words.len();
        self.words[self.len..end].copy_from_slice(words);
        self.len = end;
    }

    // Changes one of the words that are written.
    pub fn set(&mut self, place: usize, word: u32)
        requires { place < length (filled self.old) }
        ensures filled { filled self.new ≡ slice_set (filled self.old) place word }
        ensures rest { rest self.new ≡ rest self.old }
    {
        self.words[place] = word;
    }
}
