//! The generator's first draws, and the smallest source with its input.
use super::{Generator, make};
use std::test::Fail;

#[test]
fn first_draws(rt: HostRuntime) -> Result<(), Fail> {
    let mut generator = Generator::new(0);
    for want in [15_470, 18_256, 53_708, 43_769] {
        assert_eq!(rt; generator.draw(), want);
    }
    Ok(())
}

#[test]
fn smallest(rt: HostRuntime) -> Result<(), Fail> {
    let big = make(rt.alloc(), 0, 1)?;
    let source =
        b"int f0(int x) { return x * 70 + 56; }\nint pick(int x) {\nint s;\ns = s + f0(x);\nreturn s;\n}\n\
        cilk int work(int a[]) {\nint x, y;\nif (len(a) == 1) return pick(a[0]);\nsplit a at len(a) / 2 as l, r {\n\
        x = spawn work(l);\ny = spawn work(r);\nsync;\n}\nreturn x + y;\n}\ncilk int main() {\nint a[10];\nint i, v;\n\
        for (i = 0; i < inputs(); i++) a[i] = input(i);\nv = spawn work(a);\nsync;\nreturn v;\n}\n";
    assert_eq!(rt; big.source.items(), source.as_slice());
    assert_eq!(rt; big.source.len(), 379);
    let numbers = [708, 769, 170, 750, 526, 945, 277, 128, 214, 337];
    assert_eq!(rt; big.numbers.items(), numbers.as_slice());
    Ok(())
}
