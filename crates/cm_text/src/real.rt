//! Streams over the readers and writers of std, and those over standard input and output.
ghost use Rattle.std.specs.Prelude.{◌≡◌, ◌<◌, ◌≤◌, Ok, IsErr, IfOk, OnErr};
ghost use Rattle.cm_text.specs.Count.{next_count};

use crate::error::Failed;
use crate::stream::{Sink, Source};
use std::io::{self, Read, Stdin, Stdout, Write};

/// A reader as a source, which tells the bytes that the reader tells. Each error that a read meets, also
/// one that a signal made, raises the count of faults and is answered with `Failed`.
#[derive(Drop)]
pub struct ReaderSource<R> {
    input: R,
    faults: u64,
    reads: u64,
}

/// A writer as a sink, which tells the bytes that the writer tells. Each error that a write meets, and a
/// write that takes nothing of a piece that isn't empty, raises the count of faults and is answered with
/// `Failed`.
#[derive(Drop)]
pub struct WriterSink<W> {
    output: W,
    faults: u64,
}

/// Standard input as a source, which tells no bytes.
pub type RealSource = ReaderSource<Stdin>;

/// Standard output as a sink, which tells no bytes. Nothing is held back: what a write took is out.
pub type RealSink = WriterSink<Stdout>;

/// The answer of a stream, by what the system answered to a call that has to move at least `least` bytes.
/// An error, or fewer bytes, is a fault, which raises the count.
fn settle(answer: io::Result<usize>, least: usize, faults: &mut u64) -> Result<usize, Failed>
    ensures moved { IfOk answer (λ count. least ≤ count → (result ≡ Ok count) × (faults.new ≡ faults.old)) }
    ensures short { IfOk answer (λ count. count < least → IsErr result × (faults.new ≡ next_count faults.old)) }
    ensures fault { OnErr answer (IsErr result × (faults.new ≡ next_count faults.old)) }
    ensures kept { faults.old ≤ faults.new }
{
    match answer {
        Ok(count) if least <= count => Ok(count),
        _ => {
            *faults = faults.saturating_add(1);
            Err(Failed)
        }
    }
}

impl<R: Read> ReaderSource<R> {
    /// A source over a reader, as `RealSource::new(rt.stdin())`.
    pub fn new(input: R) -> ReaderSource<R>
        ensures faults { ⟦<ReaderSource<R> as Source>⟧.faults result ≡ 0 }
        ensures reads { ⟦<ReaderSource<R> as Source>⟧.reads result ≡ 0 }
        ensures left { ⟦<ReaderSource<R> as Source>⟧.left result ≡ R.remaining input }
    {
        ReaderSource {
            input,
            faults: 0,
            reads: 0,
        }
    }
}

impl<R: Read> Source for ReaderSource<R> {
    ghost left = { λ source. R.remaining source.input };

    ghost faults = { λ source. source.faults };

    ghost reads = { λ source. source.reads };

    fn read(&mut self, into: &mut [u8]) -> Result<usize, Failed> {
        self.reads = self.reads.saturating_add(1);
        let answer = self.input.read(into);
        settle(answer, 0, &mut self.faults)
    }
}

impl<W: Write> WriterSink<W> {
    /// A sink over a writer, as `RealSink::new(rt.stdout())`.
    pub fn new(output: W) -> WriterSink<W>
        ensures faults { ⟦<WriterSink<W> as Sink>⟧.faults result ≡ 0 }
        ensures taken { ⟦<WriterSink<W> as Sink>⟧.taken result ≡ W.contents output }
    {
        WriterSink { output, faults: 0 }
    }
}

impl<W: Write> Sink for WriterSink<W> {
    ghost taken = { λ sink. W.contents sink.output };

    ghost faults = { λ sink. sink.faults };

    fn write(&mut self, piece: &[u8]) -> Result<usize, Failed> {
        let answer = self.output.write(piece);
        settle(answer, piece.len().min(1), &mut self.faults)
    }
}
