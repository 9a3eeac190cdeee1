//! Code that is put down from its end to its beginning, so that what stands behind is known at each word: how far it is to
//! the exit of a function, and over how many words a jump goes.
#![tactic(auto, using(crate::proofs::parts::BuilderLaw::code_in_put, crate::proofs::parts::BuilderLaw::length_code))]

ghost use Rattle.std.specs.Prelude.{◌≡◌, ◌<◌, ◌≤◌, ◌-◌, ◌^◌, ◌++◌, [], ◌∷◌, length, set, slice_get, Some, OnOk};
ghost use Rattle.cm_gen.specs.Builder as builder;
ghost use Rattle.cm_gen.specs.Part.{plain, call, straight};
ghost use Rattle.cm_gen.specs.Expression as jump;

use cm_isa::Instr;
use cm_text::Memory;
use std::alloc::Global;
use std::marker::Model;

/// A word of the code. A jump stands as the number of words over which it goes, since it may be too far for an
/// instruction as long as the whole code may be too long.
#[derive(Clone, Copy, Debug)]
pub enum Word {
    /// An instruction.
    Plain(Instr),
    /// A call of the function with this index.
    Call(u32),
    /// A jump over so many words behind it.
    Skip(usize),
    /// A jump back over so many words before it.
    Back(usize),
}

/// Code, which grows at its beginning. Contracts see the parts that it has, from its beginning to its end.
#[derive(Debug, Drop)]
pub struct CodeBuilder {
    words: Vec<Word>,
}

impl Model for CodeBuilder {
    ghost use Rattle.std.specs.Prelude.{List, length};
    ghost use Rattle.cm_gen.specs.Part.{Part};
    ghost use Rattle.cm_gen.specs.Builder.{code_in, AreWithin};

    ghost Value = { List Part };

    ghost view = { λ b. code_in b.words.items };

    ghost invariant = { λ b. AreWithin (length b.words.items) b.words.items };
}

impl CodeBuilder {
    /// No code, which takes no memory yet.
    pub fn new(alloc: Global) -> CodeBuilder
        ensures { result ≡ [] }
    {
        CodeBuilder {
            words: Vec::new(alloc),
        }
    }

    /// How many words there are.
    pub fn len(&self) -> usize
        ensures { result ≡ length self.now }
    {
        self.words.len()
    }

    /// How many words there are, a number to which a few can be added.
    pub fn size(&self) -> u64
        ensures value { result ≡ length self.now }
        ensures small { result < 2 ^ 63 }
    {
        self.words.len() as u64
    }

    /// The word with so many words before it.
    pub fn word(&self, before: usize) -> Word
        requires { before < length self.now }
        ensures seen { slice_get self.now before ≡ Some (builder.seen result) }
        ensures reach { builder.reach result ≤ length self.now }
    {
        self.words[self.words.len() - 1 - before]
    }

    // Puts a word before the others.
    fn put(&mut self, word: Word) -> Result<(), Memory>
        requires { builder.reach word ≤ length self.old }
        ensures { OnOk result (self.new ≡ builder.seen word ∷ self.old) }
    {
        self.words.push(word)?;
        Ok(())
    }

    /// Puts an instruction before the others.
    pub fn plain(&mut self, instr: Instr) -> Result<(), Memory>
        ensures { OnOk result (self.new ≡ plain instr ∷ self.old) }
    {
        self.put(Word::Plain(instr))
    }

    /// Puts a call before the others.
    pub fn call(&mut self, function: u32) -> Result<(), Memory>
        ensures { OnOk result (self.new ≡ call function ∷ self.old) }
    {
        self.put(Word::Call(function))
    }

    /// Puts a jump over the next words before the others.
    pub fn skip(&mut self, words: usize) -> Result<(), Memory>
        requires { words ≤ length self.old }
        ensures { OnOk result (self.new ≡ straight (jump.skip words) ++ self.old) }
    {
        self.put(Word::Skip(words))
    }

    /// Puts a word before the others that becomes a jump back by `close`.
    pub fn open(&mut self) -> Result<(), Memory>
        ensures { OnOk result (self.new ≡ straight (jump.back_over 0) ++ self.old) }
    {
        self.put(Word::Back(0))
    }

    /// The word behind which so many words stand becomes a jump back over so many words before it.
    pub fn close(&mut self, behind: usize, words: usize)
        requires place { behind < length self.old }
        requires reach { words ≤ length self.old }
        ensures { self.new ≡ set self.old (length self.old - 1 - behind) (builder.back words) }
    {
        self.words[behind] = Word::Back(words);
    }
}
