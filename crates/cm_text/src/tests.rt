//! Each public call once, with ample memory, and the edges of the limit and of numbers.
use super::{
    Bytes, Failed, List, MemSink, MemSource, Memory, ReadEnd, ReaderSource, RealSink, RealSource,
    Source, WriterSink, number, read_all, write_all,
};
use std::alloc::Global;
use std::test::Fail;

fn list_of<T: Copy>(alloc: Global, items: &[T]) -> Result<List<T>, Memory> {
    let mut list = List::new(alloc);
    list.append(items)?;
    Ok(list)
}

fn read_six(alloc: Global, give: usize, fails: &[u32], limit: u32) -> Result<Bytes, ReadEnd> {
    let bytes = list_of(alloc, b"abcdef")?;
    let mut source = MemSource::of(bytes, give, list_of(alloc, fails)?);
    read_all(alloc, &mut source, limit)
}

#[test]
fn reads(rt: HostRuntime) -> Result<(), Fail> {
    for give in [0, 1, 4, 6, 5000] {
        for limit in [6, 7, 4_194_304] {
            let bytes = read_six(rt.alloc(), give, &[9], limit)?;
            assert_eq!(rt; bytes.items(), b"abcdef".as_slice(), "{give} {limit}");
        }
        let end = read_six(rt.alloc(), give, &[9], 5).err();
        assert_eq!(rt; end, Some(ReadEnd::Long { limit: 5 }), "{give}");
    }
    let end = read_six(rt.alloc(), 2, &[2], 6).err();
    assert_eq!(rt; end, Some(ReadEnd::Fault));

    let mut source = MemSource::of(list_of(rt.alloc(), b"xyz")?, 2, list_of(rt.alloc(), &[2])?);
    let mut room = [0u8; 3];
    assert_eq!(rt; source.read(&mut room), Ok(2));
    assert_eq!(rt; source.read(&mut room), Err(Failed));
    assert_eq!(rt; source.read(&mut room), Ok(1));
    assert_eq!(rt; room.as_slice(), b"zy\0".as_slice());
    assert_eq!(rt; source.read(&mut room), Ok(0));

    let mut source = ReaderSource::new(b"xyz".as_slice());
    assert_eq!(rt;
        read_all(rt.alloc(), &mut source, 3)?.items(),
        b"xyz".as_slice()
    );
    let _source = RealSource::new(rt.stdin());
    Ok(())
}

#[test]
fn writes(rt: HostRuntime) -> Result<(), Fail> {
    for take in [0, 1, 4, 6, 5000] {
        let mut sink = MemSink::of(6, take, list_of(rt.alloc(), &[])?)?;
        assert_eq!(rt; write_all(&mut sink, b"abcdef"), Ok(()), "{take}");
        assert_eq!(rt; write_all(&mut sink, b""), Ok(()), "{take}");
        assert_eq!(rt; write_all(&mut sink, b"g"), Err(Failed), "{take}");
        assert_eq!(rt; sink.taken(), b"abcdef".as_slice(), "{take}");
    }
    let mut sink = MemSink::of(100, 2, list_of(rt.alloc(), &[3])?)?;
    assert_eq!(rt; write_all(&mut sink, b"abcdef"), Err(Failed));
    assert_eq!(rt; sink.taken(), b"abcd".as_slice());
    assert_eq!(rt; write_all(&mut sink, b"xy"), Ok(()));
    assert_eq!(rt; sink.taken(), b"abcdxy".as_slice());

    let mut page = Vec::new(rt.alloc());
    assert_eq!(rt;
        write_all(&mut WriterSink::new(&mut page), b"abcdef"),
        Ok(())
    );
    assert_eq!(rt; page.as_slice(), b"abcdef".as_slice());
    assert_eq!(rt; write_all(&mut RealSink::new(rt.stdout()), b""), Ok(()));
    Ok(())
}

#[test]
fn numbers_and_lists(rt: HostRuntime) -> Result<(), Fail> {
    for (text, want) in [
        ("0", Some(0)),
        ("-0", Some(0)),
        ("007", Some(7)),
        ("-42", Some(-42)),
        ("2147483647", Some(2_147_483_647)),
        ("-2147483648", Some(-2_147_483_648)),
        ("2147483648", None),
        ("-2147483649", None),
        ("99999999999999999999", None),
        ("-", None),
        ("+1", None),
        ("", None),
        ("--1", None),
        ("-+1", None),
        ("1 ", None),
        ("1a", None),
        ("é", None),
    ] {
        assert_eq!(rt; number(text.as_bytes()), want, "{text}");
    }
    let mut list = List::from_vec(vec![in rt.alloc(); 5u32, 6]?);
    list.push(7)?;
    assert_eq!(rt; list.items(), [5, 6, 7].as_slice());
    assert_eq!(rt; (list.len(), list.is_empty()), (3, false));
    assert_eq!(rt;
        (list.pop(), list.pop(), list.pop()),
        (Some(7), Some(6), Some(5))
    );
    assert_eq!(rt; (list.pop(), list.is_empty()), (None, true));
    Ok(())
}
