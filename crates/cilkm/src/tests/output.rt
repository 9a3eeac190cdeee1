//! Outputs, the texts of ends, and what elisions take of the stack, where there is memory.
ghost use Rattle.cm_meaning.specs.Ended.{limits_of};
ghost use Rattle.cm_meaning.specs.Range.{HasRanges};

use crate::program::check_source;
use cm_meaning::{Ended, Limits, Measure, Output, Trap, measure, text};
use cm_text::Memory;
use std::alloc::Global;
use std::test::Fail;

#[test]
fn outputs(rt: HostRuntime) -> Result<(), Fail> {
    let alloc = rt.alloc();
    let mut piece = Output::new(alloc);
    piece.number(-7)?;
    let mut output = Output::new(alloc);
    output.number(1)?;
    let hole = output.hole()?;
    output.number(-2147483648)?;
    output.fill(hole, piece);
    let done = Ended::Done {
        output,
        value: 3,
        ticks: 5,
    };
    assert_eq!(rt;
        text(alloc, &done)?.items(),
        b"1\n-7\n-2147483648\nvalue 3\n".as_slice()
    );
    let mut output = Output::new(alloc);
    output.number(5)?;
    let hole = output.hole()?;
    output.number(6)?;
    output.cut(hole);
    let trapped = Ended::Trap {
        output,
        kind: Trap::Input,
        ticks: 5,
    };
    assert_eq!(rt;
        text(alloc, &trapped)?.items(),
        b"5\ntrap input\n".as_slice()
    );
    assert_eq!(rt; text(alloc, &Ended::Spent)?.items(), b"budget\n".as_slice());
    Ok(())
}

/// The Fibonacci number of 10, by spawned calls.
const FIB: &str =
    "cilk int fib(int n) { int x, y; if (n < 2) return n; x = spawn fib(n - 1); y = spawn fib(n - 2); sync;
return x + y; } cilk int main() { int r; r = spawn fib(10); sync; return r; }";

/// What the elision of an accepted source takes of the stack.
fn taken(alloc: Global, source: &str, limits: &Limits) -> Result<Option<Measure>, Memory>
    requires { HasRanges (limits_of limits.now) }
{
    let Ok(program) = check_source(alloc, source.as_bytes()) else {
        return Err(Memory);
    };
    measure(alloc, &program, &[], limits)
}

#[test]
fn measures(rt: HostRuntime) -> Result<(), Fail> {
    let alloc = rt.alloc();
    let wide = Limits {
        ticks: 178,
        stack: 64,
        page: 4096,
    };
    let narrow = Limits {
        ticks: 178,
        stack: 64,
        page: 256,
    };
    let few = Limits {
        ticks: 177,
        stack: 64,
        page: 4096,
    };
    let one = Some(Measure {
        pages: 1,
        depth: 11,
    });
    let two = Some(Measure {
        pages: 2,
        depth: 11,
    });
    assert!(rt; taken(alloc, FIB, &wide)? == one, "a page of 4096 bytes");
    assert!(rt; taken(alloc, FIB, &narrow)? == two, "pages of 256 bytes");
    assert!(rt; taken(alloc, FIB, &few)? == None, "a tick too few");
    let divides = "int main() { return 1 / 0; }";
    assert!(rt; taken(alloc, divides, &wide)? == None, "a trap");
    Ok(())
}
