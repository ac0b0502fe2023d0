//! The reader: one pass over the bytes, with the open lists on a stack of its own, so that no file can
//! exhaust the program's stack.
ghost use Rattle.std.specs.Prelude.{◌≡◌, IsTrue, length};
ghost use Rattle.pd_sexp.specs.own.Place.{is_before};

use crate::kinds::is_letter;
use crate::lexer::{Lexed, Lexer};
use crate::{Name, Tree, TreeError, Trees};
use std::alloc::Global;
use std::mem;

/// How many lists may stand in one another.
const MAX_LEVELS: usize = 64;

/// An open list, or the one that was closed last: its place and its items so far.
#[derive(Drop)]
pub struct Frame {
    pub at: u32,
    pub items: Vec<Tree>,
}

impl Frame {
    ghost use Rattle.std.specs.Prelude.{◌≡◌};
    ghost use Rattle.pd_sexp.specs.own.Reader.{frame_of};
    ghost use Rattle.pd_sexp.specs.Progress.{tree_of};
    ghost use Rattle.pd_sexp.specs.View.{view};

    #[tactic(auto, using(crate::proofs::published::Views::by_variant))]
    fn into_tree(self) -> Tree
        ensures { view result ≡ tree_of (frame_of self) }
    {
        let Frame { at, items } = self;
        Tree::List {
            at,
            items: Trees { items },
        }
    }
}

/// Before the file's list, in it, or after it.
#[derive(Clone, Copy, PartialEq, Eq)]
pub enum Place {
    Before,
    Inside,
    After,
}

/// Where the reader stands after some bytes.
#[derive(Drop)]
pub struct Reader {
    alloc: Global,
    lexer: Lexer,
    place: Place,
    /// The innermost open list.
    frame: Frame,
    /// The lists round it, the innermost last.
    outer: Vec<Frame>,
    ghost none_open: { IsTrue (is_before place) → length outer.items ≡ 0 },
}

impl Reader {
    ghost use Rattle.std.specs.Prelude.{◌≡◌, ◌<◌, ◌≤◌, ◌+◌, ◌^◌, ◌++◌, ℕ, List, [], ◌∷◌, Bool, true, false, length, map, reverse, Option, Some, None, IfOk, IfErr, OnOk};
    ghost use Rattle.pd_sexp.specs.own.Reader.{state_of, place_of, frame_of, outer_of, Steps, TakesToken, Ends};
    ghost use Rattle.pd_sexp.specs.Progress as reading;
    ghost use Rattle.pd_sexp.specs.Tree as defs;
    ghost use Rattle.pd_sexp.specs.Bytes as bytes;
    ghost use Rattle.pd_sexp.specs.Lexer as lexing;
    ghost use Rattle.pd_sexp.specs.declared.reader.Place.TheVariants as places;

    /// Before the first byte.
    pub fn new(alloc: Global) -> Self
        ensures { state_of result ≡ reading.gap reading.before }
    {
        Reader {
            alloc,
            lexer: Lexer::new(alloc),
            place: Place::Before,
            frame: Frame {
                at: 0,
                items: Vec::new(alloc),
            },
            outer: Vec::new(alloc),
        }
    }

    /// Reads the byte at this offset.
    pub fn step(&mut self, at: u32, byte: u8) -> Result<(), TreeError>
        ensures { Steps (state_of self.old) at byte (state_of self.new) result }
    {
        match self.lexer.step(byte)? {
            Lexed::Nothing => Ok(()),
            Lexed::Token => self.token(at, byte),
            Lexed::Ended {
                at: start,
                text,
                token,
            } => {
                self.add_word(start, text)?;
                if token { self.token(at, byte) } else { Ok(()) }
            }
        }
    }

    // The word that ended is the next item of the innermost list.
    fn add_word(&mut self, start: u32, text: Name) -> Result<(), TreeError>
        ensures place { OnOk result (place_of self.new.place (frame_of self.new.frame) (outer_of self.new.outer.items) ≡ reading.inside (reading.with_item (frame_of self.old.frame) (defs.word start text)) (outer_of self.old.outer.items)) }
        ensures lexer { OnOk result (self.new.lexer ≡ self.old.lexer) }
        ensures memory { IfErr result (λ e. e ≡ TreeError.Memory) }
    {
        self.frame.items.push(Tree::Word { at: start, text })?;
        self.place = Place::Inside;
        Ok(())
    }

    // A byte outside comments and words that is neither blank nor a semicolon.
    fn token(&mut self, at: u32, byte: u8) -> Result<(), TreeError>
        requires { self.old.lexer ≡ lexing.gap }
        ensures { TakesToken (place_of self.old.place (frame_of self.old.frame) (outer_of self.old.outer.items)) at byte (state_of self.new) result }
    {
        match self.place {
            Place::Before if byte == b'(' => {
                self.begin(at);
                Ok(())
            }
            Place::Inside if byte == b'(' => self.open(at),
            Place::Inside if byte == b')' => self.close(),
            Place::Inside if is_letter(byte) => {
                self.lexer.begin(at, byte)?;
                Ok(())
            }
            _ => Err(TreeError::Syntax { at }),
        }
    }

    fn begin(&mut self, at: u32)
        requires gap { self.old.lexer ≡ lexing.gap }
        requires before { self.old.place ≡ places.Before }
        ensures { state_of self.new ≡ reading.gap (reading.inside (reading.fresh at) []) }
    {
        self.frame = Frame {
            at,
            items: Vec::new(self.alloc),
        };
        self.place = Place::Inside;
    }

    #[tactic(auto, using(crate::proofs::Frames::last_frame))]
    fn open(&mut self, at: u32) -> Result<(), TreeError>
        requires gap { self.old.lexer ≡ lexing.gap }
        requires inside { self.old.place ≡ places.Inside }
        ensures { TakesToken (reading.inside (frame_of self.old.frame) (outer_of self.old.outer.items)) at bytes.open_paren (state_of self.new) result }
    {
        if self.outer.len() + 1 == MAX_LEVELS {
            return Err(TreeError::Deep { at });
        }
        let inner = Frame {
            at,
            items: Vec::new(self.alloc),
        };
        let parent = mem::replace(&mut self.frame, inner);
        self.outer.push(parent)?;
        Ok(())
    }

    #[tactic(auto, using(crate::proofs::Frames::last_frame))]
    fn close(&mut self) -> Result<(), TreeError>
        requires gap { self.old.lexer ≡ lexing.gap }
        requires inside { self.old.place ≡ places.Inside }
        ensures closed { OnOk result (state_of self.new ≡ reading.gap (reading.closed (frame_of self.old.frame) (outer_of self.old.outer.items))) }
        ensures memory { IfErr result (λ e. e ≡ TreeError.Memory) }
    {
        match self.outer.pop() {
            None => {
                self.place = Place::After;
                Ok(())
            }
            Some(parent) => {
                let list = mem::replace(&mut self.frame, parent).into_tree();
                self.frame.items.push(list)?;
                Ok(())
            }
        }
    }

    /// The tree that was read, at the end of so many bytes.
    pub fn finish(self, length: u32) -> Result<Tree, TreeError>
        ensures { Ends (state_of self) length result }
    {
        if self.lexer.in_word() || self.place != Place::After {
            return Err(TreeError::Syntax { at: length });
        }
        Ok(self.frame.into_tree())
    }
}
