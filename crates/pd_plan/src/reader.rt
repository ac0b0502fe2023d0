// The reader of lists: where it stands between two bytes.
use crate::PlanFault;
use crate::lists::{WordList, Words};
use pd_sexp::{Lexed, Lexer, Name, is_letter};
use pd_words::Named;
use std::alloc::Global;
use std::mem;

/// Between lists, or in one.
#[derive(Clone, Copy, PartialEq, Eq)]
pub enum Place {
    Between,
    Inside,
}

/// Where the reader stands after some bytes.
#[derive(Drop)]
pub struct Reader {
    alloc: Global,
    lexer: Lexer,
    place: Place,
    /// The lists that were closed.
    done: Vec<WordList>,
    /// Where the open list began.
    start: u32,
    /// Its words so far.
    words: Vec<Named>,
}

impl Reader {
    ghost use Rattle.std.specs.Prelude.{◌≡◌, ◌++◌, [], ◌∷◌, Ok, Err, IfErr, OnOk};
    ghost use Rattle.pd_words.specs.Typed.{named};
    ghost use Rattle.pd_plan.specs.declared.fault.PlanFault.TheVariants.{Memory};
    ghost use Rattle.pd_sexp.specs.Lexer as lexing;
    ghost use Rattle.pd_plan.specs.own.Answers.{GivesAs};
    ghost use Rattle.pd_plan.specs.own.Progress as reading;
    ghost use Rattle.pd_plan.specs.own.Reader.{state_of, place_of, Steps};
    ghost use Rattle.pd_plan.specs.declared.reader.Place.TheVariants as places;

    /// Before the first byte.
    pub fn new(alloc: Global) -> Self
        ensures { state_of result ≡ reading.gap [] reading.between }
    {
        Reader {
            alloc,
            lexer: Lexer::new(alloc),
            place: Place::Between,
            done: Vec::new(alloc),
            start: 0,
            words: Vec::new(alloc),
        }
    }

    /// Reads the byte at this offset.
    pub fn step(&mut self, at: u32, byte: u8) -> Result<(), PlanFault>
        ensures { Steps (reading.step (state_of self.old) at byte) (state_of self.new) result }
    {
        match self.lexer.step(byte)? {
            Lexed::Nothing => Ok(()),
            Lexed::Token => self.token(at, byte),
            Lexed::Ended {
                at: first,
                text,
                token,
            } => {
                self.add_word(first, text)?;
                if token { self.token(at, byte) } else { Ok(()) }
            }
        }
    }

    // The word that ended is the next one of the open list.
    fn add_word(&mut self, first: u32, name: Name) -> Result<(), PlanFault>
        ensures place { OnOk result (place_of self.new.place self.new.start self.new.words.items ≡ reading.inside self.old.start (self.old.words.items ++ named first name ∷ [])) }
        ensures done { OnOk result (self.new.done.items ≡ self.old.done.items) }
        ensures lexer { OnOk result (self.new.lexer ≡ self.old.lexer) }
        ensures memory { IfErr result (λ e. e ≡ Memory) }
    {
        self.words.push(Named { at: first, name })?;
        self.place = Place::Inside;
        Ok(())
    }

    // A byte outside comments and words that is neither blank nor a semicolon.
    fn token(&mut self, at: u32, byte: u8) -> Result<(), PlanFault>
        requires { self.old.lexer ≡ lexing.gap }
        ensures { Steps (reading.token self.old.done.items (place_of self.old.place self.old.start self.old.words.items) at byte) (state_of self.new) result }
    {
        match self.place {
            Place::Between if byte == b'(' => {
                self.open(at);
                Ok(())
            }
            Place::Inside if byte == b')' => self.close(),
            Place::Inside if is_letter(byte) => {
                self.lexer.begin(at, byte)?;
                Ok(())
            }
            _ => Err(PlanFault::Syntax { at }),
        }
    }

    fn open(&mut self, at: u32)
        requires { self.old.lexer ≡ lexing.gap }
        ensures { state_of self.new ≡ reading.gap self.old.done.items (reading.inside at []) }
    {
        self.words = Vec::new(self.alloc);
        self.start = at;
        self.place = Place::Inside;
    }

    fn close(&mut self) -> Result<(), PlanFault>
        requires { self.old.lexer ≡ lexing.gap }
        ensures { Steps (reading.closed self.old.done.items self.old.start self.old.words.items) (state_of self.new) result }
    {
        if self.words.as_slice().is_empty() {
            return Err(PlanFault::Syntax { at: self.start });
        }
        let words = mem::replace(&mut self.words, Vec::new(self.alloc));
        self.done.push(WordList {
            at: self.start,
            words: Words::of(words),
        })?;
        self.place = Place::Between;
        Ok(())
    }

    /// The lists that were read, at the end of so many bytes.
    pub fn finish(self, length: u32) -> Result<Vec<WordList>, PlanFault>
        ensures { GivesAs (λ lists. lists.items) (reading.finished (state_of self) length) result }
    {
        if self.lexer.in_word() || self.place != Place::Between {
            return Err(PlanFault::Syntax { at: length });
        }
        Ok(self.done)
    }
}
