// Blanks, comments and words, byte by byte.
ghost use Rattle.std.specs.Prelude.{◌≡◌};

use crate::Name;
use crate::kinds::{is_blank, is_letter, lowered};
use std::alloc::{AllocError, Global};
use std::marker::Model;

/// What a byte comes to, after those before it.
#[derive(Drop)]
pub enum Lexed {
    /// A blank, a byte of a comment, or one more letter of a word.
    Nothing,
    /// A byte outside comments and words that is neither blank nor a semicolon; a letter may begin a word.
    Token,
    /// A byte that a word ends before: where the word began, its letters in small, and whether the byte is a token.
    Ended { at: u32, text: Name, token: bool },
}

/// In a gap, in a comment, or in a word.
#[derive(Clone, Copy, PartialEq, Eq)]
pub enum Spot {
    Gap,
    Comment,
    Word,
}

/// Tells blanks, comments and words apart, byte by byte; contracts see where it stands. Which tokens may stand where, and
/// so where a word may begin, is for its reader to say.
#[derive(Drop)]
pub struct Lexer {
    alloc: Global,
    spot: Spot,
    /// Where the word began that is being read.
    start: u32,
    /// Its letters so far.
    letters: Vec<u8>,
}

impl Model for Lexer {
    ghost use Rattle.pd_sexp.specs.Lexer.{Standing, standing_of};

    ghost Value = { Standing };

    ghost view = { λ l. standing_of l.spot l.start l.letters.items };
}

impl Lexer {
    ghost use Rattle.std.specs.Prelude.{◌≡◌, [], ◌∷◌, IfOk, OnOk};
    ghost use Rattle.pd_sexp.specs.Bytes as bytes;
    ghost use Rattle.pd_sexp.specs.Lexer as lexing;

    /// Before the first byte, in a gap. It takes no memory.
    pub fn new(alloc: Global) -> Lexer
        ensures { result ≡ lexing.gap }
    {
        Lexer {
            alloc,
            spot: Spot::Gap,
            start: 0,
            letters: Vec::new(alloc),
        }
    }

    /// Reads one byte more, or answers `AllocError` where there is no memory for a letter or for the word that ends.
    // Inlined: it is called for each byte of a file, and mostly comes to nothing.
    #[inline(always)]
    pub fn step(&mut self, byte: u8) -> Result<Lexed, AllocError>
        ensures standing { OnOk result (self.new ≡ lexing.next self.old byte) }
        ensures lexed { IfOk result (λ came. came ≡ lexing.lexed self.old byte) }
    {
        match self.spot {
            Spot::Gap => {
                if self.outside(byte) {
                    Ok(Lexed::Token)
                } else {
                    Ok(Lexed::Nothing)
                }
            }
            Spot::Comment => {
                if byte == b'\n' {
                    self.spot = Spot::Gap;
                }
                Ok(Lexed::Nothing)
            }
            Spot::Word => {
                if is_letter(byte) {
                    self.letters.push(lowered(byte))?;
                    return Ok(Lexed::Nothing);
                }
                let at = self.start;
                let text = Name::of(Vec::from_slice(self.alloc, self.letters.as_slice())?);
                let token = self.outside(byte);
                Ok(Lexed::Ended { at, text, token })
            }
        }
    }

    // Reads a byte outside comments and words. Whether it is a token.
    fn outside(&mut self, byte: u8) -> bool
        ensures standing { self.new ≡ lexing.outside byte }
        ensures token { result ≡ lexing.is_token byte }
    {
        if byte == b';' {
            self.spot = Spot::Comment;
            return false;
        }
        self.spot = Spot::Gap;
        !is_blank(byte)
    }

    /// Begins a word with the letter at this offset, or answers `AllocError`.
    pub fn begin(&mut self, at: u32, letter: u8) -> Result<(), AllocError>
        ensures { OnOk result (self.new ≡ lexing.word at (bytes.lowered letter ∷ [])) }
    {
        self.letters.clear();
        self.letters.push(lowered(letter))?;
        self.start = at;
        self.spot = Spot::Word;
        Ok(())
    }

    /// Whether the lexer stands in a word.
    pub fn in_word(&self) -> bool
        ensures { result ≡ lexing.in_word self.now }
    {
        self.spot == Spot::Word
    }
}
