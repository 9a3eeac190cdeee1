//! Large sources that are made from a seed: they are accepted and short enough to be built, and the smallest one has the
//! value that was worked out by hand.
use super::build::ROOMY;
use super::{CALM, answer};
use cm_big::make;
use std::test::Fail;

#[test]
fn sources(rt: HostRuntime) -> Result<(), Fail> {
    let alloc = rt.alloc();
    for size in [1, 2, 50, 200] {
        let big = make(alloc, 7, size)?;
        assert_eq!(rt; answer(alloc, &["check"], big.source.items(), &CALM)?.0, 0);
        assert_eq!(rt; answer(alloc, &["build"], big.source.items(), &ROOMY)?.0, 0);
    }
    let big = make(alloc, 0, 1)?;
    let mut input = String::new(alloc);
    for byte in big.source.items() {
        input.push(char::from(*byte))?;
    }
    input.push_str("%%\n")?;
    for number in big.numbers.items() {
        let piece = format!(in alloc; "{number} ")?;
        input.push_str(piece.as_str())?;
    }
    let told = answer(alloc, &["serial"], input.as_bytes(), &CALM)?;
    assert_eq!(rt; told.0, 0);
    assert_eq!(rt; told.1.items(), b"value 338240\n".as_slice());
    Ok(())
}
