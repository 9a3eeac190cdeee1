//! The calls of a strand that take memory, over the build of a source.
use crate::program::compile_source;
use cm_gen::Form;
use cm_isa::convention::{RA, SP, TICKS};
use cm_meaning::Limits;
use cm_strand::Strand;
use std::test::Fail;

#[test]
fn strands_begin(rt: HostRuntime) -> Result<(), Fail> {
    let alloc = rt.alloc();
    let source = b"int f() { return 4; } cilk int main() { int x; x = spawn f(); sync; return x; }";
    let limits = Limits {
        ticks: 10,
        stack: 64,
        page: 4096,
    };
    if let Ok(build) = compile_source(alloc, source, Form::Cilk, 4096) {
        assert_eq!(rt; build.main, 1);
        if build.main < 256 {
            let mut root = Strand::root(alloc, &build, &limits)?;
            assert_eq!(rt; root.hart().regs.get(SP), 0x4000_0000);
            assert_eq!(rt; root.hart().regs.get(TICKS), 10);
            root.print(5)?;
            let child = Strand::child(&mut root)?;
            assert_eq!(rt; child.hart().regs.get(RA), 0);
            assert_eq!(rt; child.hart().regs.get(TICKS), 10);
            assert_eq!(rt; root.scope().is_some(), true);
            return Ok(());
        }
    }
    assert_eq!(rt; 0, 1);
    Ok(())
}
