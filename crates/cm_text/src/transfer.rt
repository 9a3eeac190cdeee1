//! Whole transfers: all bytes up to the end of input, and all bytes out.
ghost use Rattle.std.specs.Prelude.{◌≡◌, ◌+◌, ◌≤◌, length, IfOk, IfErr, IfSome, OnOk, OnErr};
ghost use Rattle.std.specs.Io.KnownBytes.{Appends, Consumes, IsAtEnd};
ghost use Rattle.cm_text.specs.Count.{Rose};
ghost use Rattle.cm_text.specs.Transfer.{Causes, GaveSome, TookFront};

use crate::error::{Failed, Memory};
use crate::list::{Bytes, List};
use crate::stream::{Sink, Source};
use std::alloc::Global;

/// Why reading stopped before the end of input.
#[derive(Clone, Copy, Debug, PartialEq, Eq)]
pub enum ReadEnd {
    /// A read failed.
    Fault,

    /// A byte past the limit was read. It carries this limit, in bytes.
    Long { limit: u32 },

    /// There was no memory for the bytes.
    Memory,
}

impl From<Failed> for ReadEnd {
    ghost use Rattle.std.specs.Prelude.{◌≡◌};
    ghost use Rattle.cm_text.specs.declared.transfer.ReadEnd.TheVariants.{Fault};

    ghost from_gives = { λ _ end. end ≡ Fault };

    fn from(_error: Failed) -> ReadEnd {
        ReadEnd::Fault
    }
}

impl From<Memory> for ReadEnd {
    ghost use Rattle.std.specs.Prelude.{◌≡◌};
    ghost use Rattle.cm_text.specs.declared.transfer.ReadEnd.TheVariants.{Memory as OutOfMemory};

    ghost from_gives = { λ _ end. end ≡ OutOfMemory };

    fn from(_error: Memory) -> ReadEnd {
        ReadEnd::Memory
    }
}

// How many bytes one read has room for.
const ROOM: usize = 4096;

/// All bytes up to the end of input, in at most `limit + 2` reads.
///
/// `Fault` comes only where the source's count of faults rose in this call, `Long` exactly where a byte
/// past `limit` was read, and `Memory` for want of memory. After an error some bytes are taken.
pub fn read_all<I: Source>(alloc: Global, source: &mut I, limit: u32) -> Result<Bytes, ReadEnd>
    ensures whole { IfOk result (λ bytes. Consumes (I.left source.old) (I.left source.new) bytes) }
    ensures told { IfOk result (λ bytes. IfSome (I.left source.old) (λ told. bytes ≡ told)) }
    ensures end { OnOk result (IsAtEnd (I.left source.new)) }
    ensures within { IfOk result (λ bytes. length bytes ≤ limit) }

    ensures cause { IfErr result (λ end.
        Causes end limit (I.left source.old) (I.faults source.old) (I.faults source.new)) }
    ensures given { IfErr result (λ end. GaveSome end limit (I.left source.old) (I.left source.new)) }

    ensures kept { I.faults source.old ≤ I.faults source.new }
    ensures counted { I.reads source.new ≤ I.reads source.old + (limit + 2) }
{
    let mut bytes = List::new(alloc);
    let mut room = [0u8; ROOM];
    while bytes.len() <= limit as usize {
        let count = source.read(&mut room)?;
        if count == 0 {
            return Ok(bytes);
        }
        bytes.append(&room[..count])?;
    }
    Err(ReadEnd::Long { limit })
}

/// Writes all of the bytes. It takes no memory.
///
/// `Failed` comes only where the sink's count of faults rose in this call. Then some bytes from the front
/// went out, and no others.
pub fn write_all<O: Sink>(sink: &mut O, bytes: &[u8]) -> Result<(), Failed>
    ensures all { OnOk result (Appends (O.taken sink.old) (O.taken sink.new) bytes.now) }
    ensures fault { OnErr result (Rose (O.faults sink.old) (O.faults sink.new)) }
    ensures front { OnErr result (TookFront (O.taken sink.old) (O.taken sink.new) bytes.now) }
    ensures kept { O.faults sink.old ≤ O.faults sink.new }
{
    let mut at = 0;
    while at < bytes.len() {
        at += sink.write(&bytes[at..])?;
    }
    Ok(())
}
