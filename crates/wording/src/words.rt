// The words of a line, one after the other.
ghost use Rattle.std.specs.Prelude.{◌≡◌, Some, MatchOption, MatchResult};
ghost use Rattle.std.specs.Str.Iter.{split_whitespace_rest};
ghost use Rattle.wording.specs.Words.{NoWord, NextWord, NextReads};
ghost use Rattle.wording.specs.Faults.{IsMissing, ReadsNone, IsSuperfluous, fault_text};

use std::fmt;
use std::marker::Model;
use std::str::{FromStr, SplitWhitespace};

// What is wrong with a line.
#[derive(Clone, Copy, PartialEq, Eq, Debug)]
pub enum Fault<'a> {
    Empty,
    // a word that names no request, and how the message goes on: with what to write in its place, or not at all
    UnknownRequest(&'a str, &'static str),
    // what has no word
    Missing(&'static str),
    // what was to be a number, and the word in its place
    NotANumber(&'static str, &'a str),
    // a word after the last
    Superfluous(&'a str),
}

// A line that is read word by word. A contract sees the text that is left of it.
#[derive(Drop)]
pub struct LineReader<'a> {
    words: SplitWhitespace<'a>,
}

impl<'a> Model for LineReader<'a> {
    ghost use Rattle.std.specs.Prelude.{ℕ, List};
    ghost use Rattle.std.specs.Str.Iter.{split_whitespace_rest};

    ghost Value = { List ℕ };

    ghost view = { λ r. split_whitespace_rest r.words };
}

// What is left of the words is what is left of the line.
impl<'a> From<SplitWhitespace<'a>> for LineReader<'a> {
    ghost from_gives = { λ words reader. reader ≡ split_whitespace_rest words };

    fn from(words: SplitWhitespace<'a>) -> Self {
        LineReader { words }
    }
}

impl<'a> LineReader<'a> {
    // A line of which nothing is read yet.
    pub fn new(line: &'a str) -> Self
        ensures { result ≡ line.now }
    {
        line.split_whitespace().into()
    }

    // The next word, if one is left.
    pub fn word_if_any(&mut self) -> Option<&'a str>
        ensures { MatchOption result (NoWord self.old) (λ word. NextWord self.old word.now self.new) }
    {
        self.words.next()
    }

    // The next word, which stands for what `name` says.
    pub fn word(&mut self, name: &'static str) -> Result<&'a str, Fault<'a>>
        ensures { MatchResult result (λ word. NextWord self.old word.now self.new) (IsMissing name.now self.old) }
    {
        self.word_if_any().ok_or(Fault::Missing(name))
    }

    // The next word as a number, which stands for what `name` says.
    pub fn number<T: FromStr>(&mut self, name: &'static str) -> Result<T, Fault<'a>>
    where
        T::Err: Drop,
        ensures { MatchResult result (λ x. NextReads T.FromStr.from_str_gives self.old x self.new) (ReadsNone T.FromStr.from_str_gives name.now self.old) }
    {
        let word = self.word(name)?;
        word.parse().map_err(|_| Fault::NotANumber(name, word))
    }

    // That no word is left.
    pub fn end(&mut self) -> Result<(), Fault<'a>>
        ensures { MatchResult result (λ _. NoWord self.old) (IsSuperfluous self.old) }
    {
        self.word_if_any()
            .map_or(Ok(()), |word| Err(Fault::Superfluous(word)))
    }
}

impl fmt::Display for Fault<'_> {
    ghost output = { λ fault. Some (fault_text fault) };

    fn fmt<W: fmt::Write>(&self, f: &mut fmt::Formatter<W>) -> fmt::Result {
        match *self {
            Fault::Empty => write!(f, "  an empty line asks for nothing"),
            Fault::UnknownRequest(word, advice) => write!(f, "  '{word}' is no request{advice}"),
            Fault::Missing(name) => write!(f, "  {name} is missing"),
            Fault::NotANumber(name, word) => write!(f, "  '{word}' is no number for {name}"),
            Fault::Superfluous(word) => write!(f, "  '{word}' does not belong here"),
        }
    }
}
