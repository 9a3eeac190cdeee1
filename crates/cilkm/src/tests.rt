//! The program over streams in memory: streams that fail, and what a text with an answer can't tell. The texts with their
//! answers stand in tables outside of the crate, which run the built program.
mod big;
mod build;
mod output;
mod reader;
mod strand;

use crate::cut::one_source;
use crate::still::still;
use crate::verdict::one_answer;
use cm_text::{Bytes, List, MemSink, MemSource, Memory};
use std::alloc::{AllocError, Global};
use std::test::Fail;

fn list_of<T: Copy>(alloc: Global, items: &[T]) -> Result<List<T>, Memory> {
    let mut list = List::new(alloc);
    list.append(items)?;
    Ok(list)
}

/// How streams in memory behave: the most bytes that a call moves, the number of the call that fails, and the bytes that
/// the sink has room for.
#[derive(Clone, Copy)]
struct Streams {
    give: usize,
    read_fails: u32,
    take: usize,
    write_fails: u32,
    room: u32,
}

/// Streams that take and give all at once and never fail.
const CALM: Streams = Streams {
    give: 65536,
    read_fails: 0,
    take: 65536,
    write_fails: 0,
    room: 64,
};

/// What the program answers over streams in memory: its status, and what the sink took.
fn answer(
    alloc: Global,
    words: &[&str],
    input: &[u8],
    streams: &Streams,
) -> Result<(u8, Bytes), Memory> {
    let bytes = list_of(alloc, input)?;
    let mut source = MemSource::of(bytes, streams.give, list_of(alloc, &[streams.read_fails])?);
    let mut sink = MemSink::of(
        streams.room,
        streams.take,
        list_of(alloc, &[streams.write_fails])?,
    )?;
    let status = still(alloc, words, &mut source, &mut sink);
    Ok((status, list_of(alloc, sink.taken())?))
}

/// A text, then a piece so many times, and then a text.
fn repeated(
    alloc: Global,
    front: &str,
    piece: &str,
    count: usize,
    back: &str,
) -> Result<String, AllocError> {
    let mut text = String::from_str(alloc, front)?;
    for _ in 0..count {
        text.push_str(piece)?;
    }
    text.push_str(back)?;
    Ok(text)
}

#[test]
fn failing_streams(rt: HostRuntime) -> Result<(), Fail> {
    one_answer();
    one_source();
    let source = b"int main() { return 14; }";
    for call in 1..=27 {
        let streams = Streams {
            give: 1,
            read_fails: call,
            ..CALM
        };
        let told = answer(rt.alloc(), &["serial"], source, &streams)?;
        let wanted = if call < 27 {
            (5, "read\n")
        } else {
            (0, "value 14\n")
        };
        assert_eq!(rt; told.0, wanted.0, "read {call}");
        assert_eq!(rt; told.1.items(), wanted.1.as_bytes(), "read {call}");
    }
    for call in 1..=10 {
        let streams = Streams {
            take: 1,
            write_fails: call,
            ..CALM
        };
        let told = answer(rt.alloc(), &["serial"], source, &streams)?;
        assert_eq!(rt; told.0, if call < 10 { 6 } else { 0 }, "write {call}");
        assert_eq!(rt; told.1.len(), call as usize - 1, "write {call}");
    }
    let broken = Streams {
        take: 4,
        write_fails: 2,
        ..CALM
    };
    let told = answer(rt.alloc(), &["serial"], source, &broken)?;
    assert_eq!(rt; told.0, 6);
    assert_eq!(rt; told.1.items(), b"valu".as_slice());
    Ok(())
}
