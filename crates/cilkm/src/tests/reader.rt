//! The reader alone: texts with their trees, worked out by hand. A tree is told by its canonical text.
use super::repeated;
use cm_reader::{read, write};
use cm_text::Memory;
use std::alloc::Global;
use std::test::Fail;

/// The texts of the table.
const ROWS: [(&str, &str); 11] = [
    ("int main(){return 0;}//", "int main ( ) { return 0 ; }"),
    (
        "int/**/main(){/* /* */return/*/ */1;}",
        "int main ( ) { return 1 ; }",
    ),
    (
        "int main(){int a;a=a- - -1;}",
        "int main ( ) { int a ; a = a - - - 1 ; }",
    ),
    (
        "int main(){return 2147483647;}",
        "int main ( ) { return 2147483647 ; }",
    ),
    (
        "int f(int *p){p[0]++;return *p;}",
        "int f ( int p [ ] ) { * p += 1 ; return * p ; }",
    ),
    (
        "void f(void){if(1)if(2);else;}",
        "void f ( ) { if ( 1 ) if ( 2 ) ; else ; }",
    ),
    (
        "int f(){return 1-(2-3)-4;}",
        "int f ( ) { return 1 - ( 2 - 3 ) - 4 ; }",
    ),
    (
        "int f(){return ((1*2))+3<<-4;}",
        "int f ( ) { return 1 * 2 + 3 << - 4 ; }",
    ),
    (
        "cilk int f(int n){int x;x=spawn f(n);sync;return x;}",
        "cilk int f ( int n ) { int x ; x = spawn f ( n ) ; sync ; return x ; }",
    ),
    ("int f(){for(;;){}}", "int f ( ) { for ( ; ; ) { } }"),
    (
        "int f(int a[]){split a at len(a)/2 as l,r{f(l);f(&r);}}",
        "int f ( int a [ ] ) { split a at len ( a ) / 2 as l , r { f ( l ) ; f ( & r ) ; } }",
    ),
];

#[test]
fn trees(rt: HostRuntime) -> Result<(), Fail> {
    for (text, printed) in ROWS {
        let Ok(tree) = read(rt.alloc(), text.as_bytes()) else {
            return Err(Memory.into());
        };
        let written = write(rt.alloc(), &tree)?;
        assert_eq!(rt; written.items(), printed.as_bytes(), "{text}");
    }
    Ok(())
}

/// Whether a text with so many pieces is accepted.
fn is_accepted(
    alloc: Global,
    front: &str,
    piece: &str,
    count: usize,
    back: &str,
) -> Result<bool, Fail> {
    let text = repeated(alloc, front, piece, count, back)?;
    Ok(read(alloc, text.as_bytes()).is_ok())
}

#[test]
fn limits_of_texts(rt: HostRuntime) -> Result<(), Fail> {
    let alloc = rt.alloc();
    // 63 loops and an empty statement, 64 brackets, 64 operators; and one more
    let rows = [
        ("int f(){", "while(1)", 63, ";}"),
        ("int f(){return ", "~", 64, "1;}"),
        ("int f(){return 0", "+0", 64, ";}"),
        ("int f(){return f(0", ",0", 4000, ");}"),
        ("int f(){", ";", 65527, "}"),
    ];
    for (front, piece, count, back) in rows {
        assert!(rt; is_accepted(alloc, front, piece, count, back)?, "{front}");
    }
    // the text that takes most of the host's stack
    let front = repeated(alloc, "int f(){", "{", 63, "return ")?;
    let unary = repeated(alloc, "", "~", 64, "(")?;
    let inside = repeated(alloc, "1", ")", 64, ";")?;
    let back = repeated(alloc, inside.as_str(), "}", 64, "")?;
    assert!(rt; is_accepted(alloc, front.as_str(), unary.as_str(), 64, back.as_str())?);
    Ok(())
}
