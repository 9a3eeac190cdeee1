//! The frames of the live calls, with their words in one list that is taken once: a call moves nothing.
ghost use Rattle.std.specs.Prelude.{◌≡◌, ◌+◌, ◌*◌, ◌∷◌, ◌≤◌, ◌<◌, ◌^◌, ℕ, ℤ, List, length, map, reverse, IfOk, OnOk, IsSome, Some, slice_get};
ghost use Rattle.cm_syntax.specs.declared.stmt.Extent.TheVariants as extent;
ghost use Rattle.cm_syntax.specs.declared.stmt.Function.{Function};
ghost use Rattle.cm_syntax.specs.Frame.{slots_words, frame_words as words_of_frame};
ghost use Rattle.cm_syntax.specs.Limit.{max_frame_words};
ghost use Rattle.cm_syntax.specs.Cell.{present};
ghost use Rattle.cm_syntax.specs.Stack.{Stack, write_word, clear_words, write_parts, push_frame, pop_frame};
ghost use Rattle.cm_syntax.specs.Step.{top};
ghost use Rattle.cm_meaning.specs.Measure.{frame_bytes_in};
ghost use Rattle.cm_meaning.specs.TypedState.{slots_at, row_words};
ghost use Rattle.cm_meaning.specs.Layout.{reference_of, argument_of, address, frames_words, program_in, calls_in, room_in, slot_in, extent_in, layout_of, offsets_from, place_words, FitFrames, IsLaidOut, IsPlaceAt, IsWordAt, Shows, ShowsAfter, IsNew, IsSamePlace, IsArray, IsRowOf, TakesArguments, ArePlaces, ArePut, AreCleared};
ghost use Rattle.cm_meaning.specs.Range.{max_stack_words};

use crate::reference::{Argument, Reference};
use cm_syntax::{Extent, Function, Program, Slot, frame_words, slot_words};
use cm_text::{List, Memory};
use std::alloc::Global;

/// The frames of the live calls.
#[derive(Debug, Drop)]
pub(crate) struct Frames<'a> {
    /// The program.
    program: &'a Program,
    /// How the frame of each function is laid out.
    layouts: List<Layout>,
    /// The live frames, the last one last.
    frames: Vec<Frame>,
    /// The words of all frames, and room for more.
    words: Vec<i32>,
    /// The reference of each slice, where its first word would stand.
    references: Vec<Reference>,
    /// How many words the live frames have.
    used: u32,
}

/// How the frame of a function is laid out.
#[derive(Debug, Drop)]
struct Layout {
    /// How many words it has.
    words: u32,
    /// Where the words of each slot begin in it.
    offsets: List<u32>,
}

/// A live frame.
#[derive(Clone, Copy, Debug)]
struct Frame {
    /// Its function.
    function: u32,
    /// Where its words begin.
    base: u32,
}

/// How the frames of these functions are laid out.
fn layouts_of(alloc: Global, functions: &[Function<u32>]) -> Result<List<Layout>, Memory>
    requires { (f : ℕ) (function : Function ℕ) → slice_get functions.now f ≡ Some function → words_of_frame function ≤ max_frame_words }
    ensures { IfOk result (λ layouts. layouts ≡ map layout_of functions.now) }
{
    let mut layouts = List::new(alloc);
    for function in functions {
        layouts.push(lay_out(alloc, function)?)?;
    }
    Ok(layouts)
}

/// How the frame of this function is laid out.
fn lay_out(alloc: Global, function: &Function<u32>) -> Result<Layout, Memory>
    requires { words_of_frame function.now ≤ max_frame_words }
    ensures { IfOk result (λ layout. layout ≡ layout_of function.now) }
{
    let words = frame_words(function);
    let offsets = offsets(alloc, function.slots.items())?;
    Ok(Layout { words, offsets })
}

/// Where the words of each slot begin in a frame.
fn offsets(alloc: Global, slots: &[Slot]) -> Result<List<u32>, Memory>
    requires { slots_words slots.now ≤ max_frame_words }
    ensures { IfOk result (λ offsets. offsets ≡ offsets_from 0 slots.now) }
{
    let mut offsets = List::new(alloc);
    let mut before: u32 = 0;
    for slot in slots {
        offsets.push(before)?;
        before += slot_words(*slot);
    }
    Ok(offsets)
}

/// Puts the arguments into the first slots of the frame that begins at `base`.
fn put_arguments(
    words: &mut Vec<i32>,
    references: &mut Vec<Reference>,
    offsets: &[u32],
    base: u32,
    arguments: &[Argument],
)
    requires places { ArePlaces offsets.now base (length arguments.now) (length words.old.items) }
    requires paired { length references.old.items ≡ length words.old.items }
    requires few { length words.old.items ≤ max_stack_words }
    ensures { ArePut offsets.now base (length arguments.now) arguments.now words.old.items words.new.items
        references.old.items references.new.items }
{
    for (slot, argument) in arguments.iter().enumerate() {
        let place = (base + offsets[slot]) as usize;
        match *argument {
            Argument::Word(value) => words[place] = value,
            Argument::Slice(reference) => references[place] = reference,
        }
    }
}

/// Sets so many words to 0.
fn clear_from(words: &mut Vec<i32>, start: u32, count: u32)
    requires within { start + count ≤ length words.old.items }
    requires few { length words.old.items ≤ max_stack_words }
    ensures { AreCleared start count words.old.items words.new.items }
{
    for index in 0..count {
        words[(start + index) as usize] = 0;
    }
}

impl<'a> Frames<'a> {
    /// No frame yet, with room for so many words of frames of this program. It lays out the frame of each function.
    /// `Memory` is want of memory.
    pub(crate) fn new(alloc: Global, program: &'a Program, room: u32) -> Result<Frames<'a>, Memory>
        requires fits { FitFrames program.now }
        requires few { room ≤ max_stack_words }
        ensures { IfOk result (λ frames. IsNew program.now room frames) }
    {
        let layouts = layouts_of(alloc, program.functions.items())?;
        let empty = Reference {
            depth: 0,
            slot: 0,
            start: 0,
            length: 0,
        };
        let words = vec![in alloc; 0; room as usize]?;
        let references = vec![in alloc; empty; room as usize]?;
        Ok(Frames {
            program,
            layouts,
            frames: Vec::new(alloc),
            words,
            references,
            used: 0,
        })
    }

    /// The bytes of a function's frame.
    pub(crate) fn frame_bytes(&self, function: u32) -> u32
        requires laid { IsLaidOut self.now }
        requires there { IsSome (slice_get (program_in self.now).functions function) }
        ensures { result ≡ frame_bytes_in (slice_get (program_in self.now).functions function) }
    {
        4 * self.layouts.items()[function as usize].words
    }

    /// The bytes of the live frames.
    pub(crate) fn used_bytes(&self) -> u32
        requires { IsLaidOut self.now }
        ensures { result ≡ 4 * frames_words (program_in self.now) (calls_in self.now) }
    {
        4 * self.used
    }

    /// How many frames are live.
    pub(crate) fn depth(&self) -> u32
        requires { IsLaidOut self.now }
        ensures { result ≡ length (calls_in self.now) }
    {
        self.frames.len() as u32
    }

    /// The running function.
    pub(crate) fn function(&self) -> u32
        requires laid { IsLaidOut self.now }
        requires some { 1 ≤ length (calls_in self.now) }
        ensures { (f : ℕ) (more : List ℕ) → calls_in self.now ≡ f ∷ more → result ≡ f }
    {
        self.frames[self.frames.len() - 1].function
    }

    /// A call begins: its frame comes last, with its arguments in its parameters, and whatever else is in it is unset.
    /// `Memory` is want of memory.
    pub(crate) fn push(&mut self, function: u32, arguments: &[Argument]) -> Result<(), Memory>
        requires laid { IsLaidOut self.old }
        requires takes { TakesArguments (program_in self.old) function arguments.now }
        requires room { frames_words (program_in self.old) (function ∷ calls_in self.old) ≤ room_in self.old }
        ensures laid { IsLaidOut self.new }
        ensures calls { OnOk result (calls_in self.new ≡ function ∷ calls_in self.old) }
        ensures place { OnOk result (IsSamePlace self.old self.new) }
        ensures shows { OnOk result (ShowsAfter self.old self.new
            (λ h. push_frame h (length (calls_in self.old)) (reverse (map argument_of arguments.now)))) }
    {
        let base = self.used;
        let layout = &self.layouts.items()[function as usize];
        self.frames.push(Frame { function, base })?;
        self.used = base + layout.words;
        put_arguments(
            &mut self.words,
            &mut self.references,
            layout.offsets.items(),
            base,
            arguments,
        );
        Ok(())
    }

    /// The last call ends: its frame goes.
    pub(crate) fn pop(&mut self)
        requires laid { IsLaidOut self.old }
        requires some { 1 ≤ length (calls_in self.old) }
        ensures laid { IsLaidOut self.new }
        ensures calls { (f : ℕ) (more : List ℕ) → calls_in self.old ≡ f ∷ more → calls_in self.new ≡ more }
        ensures place { IsSamePlace self.old self.new }
        ensures shows { ShowsAfter self.old self.new (λ h. pop_frame h (top (calls_in self.old))) }
    {
        match self.frames.pop() {
            Some(frame) => self.used = frame.base,
            None => unreachable!(),
        }
    }

    /// Where the words of a slot begin.
    fn start(&self, depth: u32, slot: u32) -> u32
        requires laid { IsLaidOut self.now }
        requires live { depth < length (calls_in self.now) }
        requires there { IsSome (slice_get (slots_at (program_in self.now) (calls_in self.now) depth) slot) }
        ensures value { result ≡ address (program_in self.now) (calls_in self.now) depth slot 0 }
        ensures within { result + place_words (slice_get (slots_at (program_in self.now) (calls_in self.now) depth) slot) ≤ room_in self.now }
    {
        let frame = self.frames[depth as usize];
        let layout = &self.layouts.items()[frame.function as usize];
        frame.base + layout.offsets.items()[slot as usize]
    }

    /// Where a word of a slot stands.
    fn address(&self, depth: u32, slot: u32, index: u32) -> u32
        requires laid { IsLaidOut self.now }
        requires place { IsPlaceAt self.now depth slot index }
        ensures value { result ≡ address (program_in self.now) (calls_in self.now) depth slot index }
        ensures within { result < room_in self.now }
    {
        self.start(depth, slot) + index
    }

    /// A word of a scalar or an array of a live frame.
    pub(crate) fn word(&self, depth: u32, slot: u32, index: u32) -> i32
        requires laid { IsLaidOut self.now }
        requires there { IsWordAt self.now depth slot index }
        ensures { (h : Stack) (v : ℤ) → Shows self.now h → h.words depth slot index ≡ present v → result ≡ v }
    {
        self.words[self.address(depth, slot, index) as usize]
    }

    /// Puts a value into a word of a scalar or an array of a live frame.
    pub(crate) fn set_word(&mut self, depth: u32, slot: u32, index: u32, value: i32)
        requires laid { IsLaidOut self.old }
        requires there { IsWordAt self.old depth slot index }
        ensures laid { IsLaidOut self.new }
        ensures calls { calls_in self.new ≡ calls_in self.old }
        ensures place { IsSamePlace self.old self.new }
        ensures shows { ShowsAfter self.old self.new (λ h. write_word h depth slot index value) }
    {
        let place = self.address(depth, slot, index);
        self.words[place as usize] = value;
    }

    /// Sets the words of an array of the running function to 0.
    pub(crate) fn clear(&mut self, slot: u32)
        requires laid { IsLaidOut self.old }
        requires some { 1 ≤ length (calls_in self.old) }
        requires array { IsArray (slot_in self.old slot) }
        ensures laid { IsLaidOut self.new }
        ensures calls { calls_in self.new ≡ calls_in self.old }
        ensures place { IsSamePlace self.old self.new }
        ensures shows { ShowsAfter self.old self.new
            (λ h. clear_words h (top (calls_in self.old)) slot (row_words (slot_in self.old slot))) }
        ensures shows_array { (h : Stack) (n : ℕ) → extent_in self.old slot ≡ Some (extent.Words n) → Shows self.old h
            → Shows self.new (clear_words h (top (calls_in self.old)) slot n) }
    {
        let start = self.start_of(slot);
        match self.extent(slot) {
            Extent::Words(count) => clear_from(&mut self.words, start, count),
            _ => unreachable!(),
        }
    }

    /// What a slot of the running function has.
    fn extent(&self, slot: u32) -> Extent
        requires laid { IsLaidOut self.now }
        requires some { 1 ≤ length (calls_in self.now) }
        requires there { IsSome (slot_in self.now slot) }
        ensures { extent_in self.now slot ≡ Some result }
    {
        let function = &self.program.functions.items()[self.function() as usize];
        function.slots.items()[slot as usize].extent()
    }

    /// Where the words of a slot of the running function begin.
    fn start_of(&self, slot: u32) -> u32
        requires laid { IsLaidOut self.now }
        requires some { 1 ≤ length (calls_in self.now) }
        requires there { IsSome (slot_in self.now slot) }
        ensures value { result ≡ address (program_in self.now) (calls_in self.now) (top (calls_in self.now)) slot 0 }
        ensures within { result + place_words (slot_in self.now slot) ≤ room_in self.now }
    {
        self.start(self.depth() - 1, slot)
    }

    /// The words of a slot of the running function: its scalar, its array, or what its slice refers to.
    pub(crate) fn row(&self, slot: u32) -> Reference
        requires laid { IsLaidOut self.now }
        requires some { 1 ≤ length (calls_in self.now) }
        requires there { IsSome (slot_in self.now slot) }
        ensures { (h : Stack) → Shows self.now h
            → IsRowOf h (calls_in self.now) slot (slot_in self.now slot) (reference_of result) }
    {
        let words = match self.extent(slot) {
            Extent::Word => 1,
            Extent::Words(words) => words,
            Extent::Reference => return self.references[self.start_of(slot) as usize],
        };
        Reference {
            depth: self.depth() - 1,
            slot,
            start: 0,
            length: words,
        }
    }

    /// Parts a slice: its first words become one slice of the running function, the others another.
    pub(crate) fn set_parts(&mut self, left: u32, right: u32, whole: Reference, count: u32)
        requires laid { IsLaidOut self.old }
        requires some { 1 ≤ length (calls_in self.old) }
        requires left { extent_in self.old left ≡ Some extent.Reference }
        requires right { extent_in self.old right ≡ Some extent.Reference }
        requires count { count ≤ whole.length }
        requires fits { whole.start + whole.length < 2 ^ 32 }
        ensures laid { IsLaidOut self.new }
        ensures calls { calls_in self.new ≡ calls_in self.old }
        ensures place { IsSamePlace self.old self.new }
        ensures shows { ShowsAfter self.old self.new
            (λ h. write_parts h (top (calls_in self.old)) left right (reference_of whole) count) }
    {
        let first = self.start_of(left) as usize;
        let second = self.start_of(right) as usize;
        self.references[first] = Reference {
            length: count,
            ..whole
        };
        self.references[second] = Reference {
            start: whole.start + count,
            length: whole.length - count,
            ..whole
        };
    }
}
