// Words that go out, one after the other.

#[derive(Drop)]
pub(crate) struct Out<'a> {
    words: &'a mut [u64],
    used: usize,
    // whether a word had no place
    short: bool,
}

impl<'a> Out<'a> {
    pub(crate) fn over(words: &'a mut [u64]) -> Out<'a> {
        Out {
            words,
            used: 0,
            short: false,
        }
    }

    pub(crate) fn put(&mut self, word: u64) {
        match self.words.get_mut(self.used) {
            Some(place) => *place = word,
            None => self.short = true,
        }
        self.used = self.used.wrapping_add(1);
    }

    // A place for the number of words that follow.
    pub(crate) fn begin(&mut self) -> usize {
        self.put(0);
        self.used
    }

    // Writes that number.
    pub(crate) fn end(&mut self, begun: usize) {
        let count = self.used.wrapping_sub(begun);
        if let Some(place) = self.words.get_mut(begun.wrapping_sub(1)) {
            *place = count as u64;
        }
    }

    // How many words were written; none where one had no place.
    pub(crate) fn whole(&self) -> Option<usize> {
        (!self.short).then_some(self.used)
    }
}
