// A block of the caller's, filled with lines of print from its start.
ghost use Rattle.std.specs.Prelude.{◌≡◌, ◌+◌, ◌≤◌, length, map};
ghost use Rattle.listing.specs.Sheets.{HasRoom, Adds};
ghost use Rattle.listing.specs.Lines.{line};
ghost use Rattle.listing.specs.Words.{word_text, most_word, most_line};

use itoa::{Buffer, Integer};

// The bytes of a block, which has room for every listing.
pub const BLOCK: usize = 2048;

// A word of a line.
#[derive(Clone, Copy, PartialEq, Eq, Debug)]
pub(crate) enum Word {
    Open,
    Fault,
    Number(u64),
    Amount(i64),
}

// A block, and where in it the text ends: no `Vec`, since the caller lends the memory; the end stands beside it, since the block has
// a fixed size and its written front is what is answered. Each line asks for room of its own (`HasRoom`): how much depends on
// its words, so it is no invariant of the sheet. Tried as a `fmt::Write`: that `write!`
// succeeds where there is room stands on no contract, so its proof does not close, and a listing cannot fail.
#[derive(Drop)]
pub(crate) struct Sheet<'a> {
    block: &'a mut [u8; BLOCK],
    end: usize,
}

impl<'a> Sheet<'a> {
    pub(crate) fn new(block: &'a mut [u8; BLOCK]) -> Sheet<'a>
        ensures lender { result.block.ghost_name ≡ block.entry.ghost_name }
        ensures block { result.block.now ≡ block.old }
        ensures end { result.end ≡ 0 }
    {
        Sheet { block, end: 0 }
    }

    pub(crate) fn end(&self) -> usize
        ensures { result ≡ self.now.end }
    {
        self.end
    }

    #[tactic(auto, using(std::proofs::lemmas::Slice::overwrites))]
    pub(crate) fn text(&mut self, text: &str)
        requires { HasRoom self.old (length text.now) }
        ensures { Adds self.old text.now self.new }
    {
        let end = self.end + text.len();
        let block = &mut *self.block;
        block[self.end..end].copy_from_slice(text.as_bytes());
        self.end = end;
    }

    fn number<I: Integer>(&mut self, n: I)
        requires { HasRoom self.old I.MAX_STR_LEN }
        ensures adds { Adds self.old (I.text n) self.new }
        ensures short { self.new.end ≤ self.old.end + I.MAX_STR_LEN }
    {
        self.text(Buffer::new().format(n));
    }

    fn word(&mut self, word: Word)
        requires { HasRoom self.old most_word }
        ensures adds { Adds self.old (word_text word) self.new }
        ensures short { self.new.end ≤ self.old.end + most_word }
    {
        match word {
            Word::Open => self.text("OPEN"),
            Word::Fault => self.text("FAULT"),
            Word::Number(n) => self.number(n),
            Word::Amount(z) => self.number(z),
        }
    }

    pub(crate) fn line(&mut self, words: &[Word])
        requires { HasRoom self.old (most_line (length words.now)) }
        ensures adds { Adds self.old (line (map word_text words.now)) self.new }
        ensures short { self.new.end ≤ self.old.end + most_line (length words.now) }
    {
        let Some((last, words)) = words.split_last() else {
            return self.text("\n");
        };
        for word in words {
            self.word(*word);
            self.text(" ");
        }
        self.word(*last);
        self.text("\n");
    }
}
