//! A source and a sink over memory, which fail at the calls that they were told.
ghost use Rattle.std.specs.Prelude.{◌≡◌, ◌<◌, ◌≤◌, length, take as front_of, is_err, Some, IfOk, OnErr};
ghost use Rattle.std.specs.Io.{ReadsAtMost, WritesAtMost};
ghost use Rattle.std.specs.Io.KnownBytes.{ReadConsumes, WriteAppends};
ghost use Rattle.cm_text.specs.Count.{Rose, next_count, is_next_among};
ghost use Rattle.cm_text.specs.SourceState.{fresh_source, is_read_failing, given_count, after_read};
ghost use Rattle.cm_text.specs.SinkState.{fresh_sink, is_write_failing, taken_count, after_write};

use crate::error::{Failed, Memory};
use crate::list::{Bytes, List};
use crate::stream::{Sink, Source};
use std::marker::Model;

/// A source over bytes in memory.
#[derive(Debug, Drop)]
pub struct MemSource {
    bytes: Bytes,
    at: usize,
    give: usize,
    fails: List<u32>,
    calls: u64,
    faults: u64,
}

impl Model for MemSource {
    ghost use Rattle.std.specs.Prelude.{◌≤◌, length, drop};
    ghost use Rattle.cm_text.specs.SourceState.{SourceState};

    ghost Value = { SourceState };

    ghost view = { λ source. record {
      left = drop source.at source.bytes;
      give = source.give;
      fails = source.fails;
      calls = source.calls;
      faults = source.faults;
    } };

    ghost invariant = { λ source. source.at ≤ length source.bytes };
}

impl MemSource {
    /// A source of these bytes, which gives at most `give` bytes a read, and at least 1. The reads whose
    /// numbers, counted from 1, are in `fails` fail, and no others.
    pub fn of(bytes: Bytes, give: usize, fails: List<u32>) -> MemSource
        ensures { result ≡ fresh_source bytes give fails }
    {
        MemSource {
            bytes,
            at: 0,
            give,
            fails,
            calls: 0,
            faults: 0,
        }
    }
}

impl Source for MemSource {
    ghost left = { λ source. Some source.left };

    ghost faults = { λ source. source.faults };

    ghost reads = { λ source. source.calls };

    fn read(&mut self, into: &mut [u8]) -> Result<usize, Failed>
        ensures fails { is_err result ≡ is_read_failing self.old }
        ensures count { IfOk result (λ count. count ≡ given_count self.old (length into.old)) }
        ensures filled { IfOk result (λ count. front_of count into.new ≡ front_of count self.old.left) }
        ensures state { self.new ≡ after_read self.old (length into.old) }

        ensures bound { ReadsAtMost result into.new }
        ensures bytes { ReadConsumes (Some self.old.left) (Some self.new.left) result into.new }
        ensures fault { OnErr result (Rose self.old.faults self.new.faults) }
        ensures kept { self.old.faults ≤ self.new.faults }
        ensures counted { self.new.calls ≡ next_count self.old.calls }
    {
        let failing = is_next_among(self.fails.items(), self.calls);
        self.calls = self.calls.saturating_add(1);
        if failing {
            self.faults = self.faults.saturating_add(1);
            return Err(Failed);
        }
        let left = &self.bytes.items()[self.at..];
        let count = self.give.max(1).min(into.len()).min(left.len());
        into[..count].copy_from_slice(&left[..count]);
        self.at += count;
        Ok(count)
    }
}

/// A sink over memory.
#[derive(Debug, Drop)]
pub struct MemSink {
    bytes: Vec<u8>,
    room: u32,
    most: usize,
    fails: List<u32>,
    calls: u64,
    faults: u64,
}

impl Model for MemSink {
    ghost use Rattle.std.specs.Prelude.{◌≤◌, vec_len, vec_capacity};
    ghost use Rattle.cm_text.specs.SinkState.{SinkState};

    ghost Value = { SinkState };

    ghost view = { λ sink. record {
      taken = sink.bytes.items;
      room = sink.room;
      most = sink.most;
      fails = sink.fails;
      calls = sink.calls;
      faults = sink.faults;
    } };

    ghost invariant = { λ sink. (vec_len sink.bytes ≤ sink.room) × (sink.room ≤ vec_capacity sink.bytes) };
}

impl MemSink {
    /// A sink with memory for `room` bytes, which takes at most `take` bytes a write, and at least 1. The
    /// writes whose numbers, counted from 1, are in `fails` fail, and those of a piece that isn't empty
    /// after `room` bytes were taken, and no others. `Memory` comes for want of memory alone.
    pub fn of(room: u32, take: usize, fails: List<u32>) -> Result<MemSink, Memory>
        ensures { IfOk result (λ sink. sink ≡ fresh_sink room take fails) }
    {
        let bytes = Vec::with_capacity(fails.allocator(), room as usize)?;
        Ok(MemSink {
            bytes,
            room,
            most: take,
            fails,
            calls: 0,
            faults: 0,
        })
    }

    /// The bytes that it took.
    pub fn taken(&self) -> &[u8]
        ensures { result.now ≡ self.now.taken }
    {
        self.bytes.as_slice()
    }
}

impl Sink for MemSink {
    ghost taken = { λ sink. Some sink.taken };

    ghost faults = { λ sink. sink.faults };

    fn write(&mut self, piece: &[u8]) -> Result<usize, Failed>
        ensures fails { is_err result ≡ is_write_failing self.old piece.now }
        ensures count { IfOk result (λ count. count ≡ taken_count self.old piece.now) }
        ensures state { self.new ≡ after_write self.old piece.now }

        ensures bound { WritesAtMost result piece.now }
        ensures progress { IfOk result (λ count. 0 < length piece.now → 0 < count) }
        ensures bytes { WriteAppends (Some self.old.taken) (Some self.new.taken) result piece.now }
        ensures fault { OnErr result (Rose self.old.faults self.new.faults) }
        ensures kept { self.old.faults ≤ self.new.faults }
    {
        let failing = is_next_among(self.fails.items(), self.calls)
            || (!piece.is_empty() && self.room as usize <= self.bytes.len());
        self.calls = self.calls.saturating_add(1);
        if failing {
            self.faults = self.faults.saturating_add(1);
            return Err(Failed);
        }
        let left = self.room as usize - self.bytes.len();
        let count = self.most.max(1).min(piece.len()).min(left);
        self.bytes.extend_from_slice(&piece[..count]).unwrap();
        Ok(count)
    }
}

// Whether the call after `calls` calls is among these numbers of calls, counted from 1.
fn is_next_among(numbers: &[u32], calls: u64) -> bool
    ensures { result ≡ is_next_among numbers.now calls }
{
    numbers
        .iter()
        .any(|number| *number > 0 && u64::from(*number) - 1 == calls)
}
