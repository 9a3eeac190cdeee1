//! What both builds of a program have in common, and a listing whose sink fails.
use super::{Streams, answer};
use cm_asm::unlist;
use cm_text::{List, Memory};
use std::alloc::Global;
use std::test::Fail;

/// Streams whose sink has room for the longest listing.
pub(super) const ROOMY: Streams = Streams {
    give: 65536,
    read_fails: 0,
    take: 4_194_304,
    write_fails: 0,
    room: 4_194_304,
};

/// A program of 29 words.
const FOURTEEN: &str = "int main() { return 14; }";

/// A program with functions of both kinds: `h`, `s` and `main` aren't marked `cilk`.
const BOTH_KINDS: &str = "cilk int g(int n) { return n * 2; }
int h(int i) { return i; }
cilk int f(int n) { int x, i, y; x = spawn g(n);
  for (i = 0; i < 20; i++) y = y + h(i);
  sync; return x + y; }
int s(int n) { int a[3]; a[0] = n; return f(n) + a[0]; }
int main() { return s(5); }";

/// The words that a listing has.
fn listed(alloc: Global, words: &[&str], source: &str) -> Result<List<u32>, Memory> {
    let told = answer(alloc, words, source.as_bytes(), &ROOMY)?;
    match unlist(alloc, told.1.items()) {
        Ok(image) => Ok(image.words),
        Err(_) => Err(Memory),
    }
}

#[test]
fn broken_listing(rt: HostRuntime) -> Result<(), Fail> {
    let words = listed(rt.alloc(), &["build"], FOURTEEN)?;
    assert_eq!(rt; words.len(), 29);
    assert_eq!(rt; words.items().first(), Some(&0x00000f93));
    assert_eq!(rt; words.items().last(), Some(&0x00008067));
    // the sink fails in the third line
    let broken = Streams {
        take: 18,
        write_fails: 3,
        ..ROOMY
    };
    let told = answer(rt.alloc(), &["build"], FOURTEEN.as_bytes(), &broken)?;
    assert_eq!(rt; told.0, 6);
    assert_eq!(rt;
        told.1.items(),
        b"00000000 00000f93\n00000004 00000073\n".as_slice()
    );
    Ok(())
}

#[test]
fn serial_parts(rt: HostRuntime) -> Result<(), Fail> {
    let serial = listed(rt.alloc(), &["build", "serial=1"], BOTH_KINDS)?;
    let cilk = listed(rt.alloc(), &["build"], BOTH_KINDS)?;
    // Behind the end service and the table `h` has 27 words, `s` 60 and `main` 30; then `g` stands.
    assert!(rt; serial.items().get(7..124).is_some());
    assert_eq!(rt; serial.items().get(7..124), cilk.items().get(7..124));
    // the jumps to `h`, `s` and `main`, and to `g`
    for at in [3, 5, 6, 2] {
        assert_eq!(rt; serial.items().get(at), cilk.items().get(at), "{at}");
    }
    assert_eq!(rt; serial.items().get(2), Some(&0x1e80006f));
    // a sync at the exit of `g` moves `f`
    assert!(rt; serial.items().get(4) != cilk.items().get(4));
    assert!(rt; serial.len() < cilk.len());
    Ok(())
}
