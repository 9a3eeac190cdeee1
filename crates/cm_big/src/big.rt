//! Large sources and inputs.
ghost use Rattle.std.specs.Prelude.{◌≡◌, ◌*◌, ◌≤◌, ◌++◌, IfOk, OnOk};
ghost use Rattle.std.specs.Fmt.{decimal};
ghost use Rattle.cm_big.specs.Draw.{value_after};
ghost use Rattle.cm_big.specs.Source.{function_line, function_lines, call_line, call_lines, source_of, numbers_from, numbers_of};

use crate::generator::Generator;
use cm_text::{Bytes, List, Memory};
use std::alloc::Global;

/// A source and the numbers of its input.
#[derive(Debug, Drop)]
pub struct Big {
    /// The bytes of the source.
    pub source: Bytes,
    /// The input numbers, from 0 to 999.
    pub numbers: List<i32>,
}

// What stands between the functions and their calls.
const PICK: &[u8] = b"int pick(int x) {\nint s;\n";

// What stands between the calls and the length of the array.
const WORK: &[u8] = b"return s;\n}\n\
    cilk int work(int a[]) {\n\
    int x, y;\n\
    if (len(a) == 1) return pick(a[0]);\n\
    split a at len(a) / 2 as l, r {\n\
    x = spawn work(l);\n\
    y = spawn work(r);\n\
    sync;\n\
    }\n\
    return x + y;\n\
    }\n\
    cilk int main() {\n\
    int a[";

// What stands behind the length of the array.
const MAIN: &[u8] = b"];\n\
    int i, v;\n\
    for (i = 0; i < inputs(); i++) a[i] = input(i);\n\
    v = spawn work(a);\n\
    sync;\n\
    return v;\n\
    }\n";

/// The source and the input of a seed: `size` functions, of which the sum is taken at each of ten times as many input
/// numbers, by a tree of spawns. Function by function two draws modulo 100 are its factor and its summand, and then
/// each draw modulo 1,000 is a number. The size is 1 to 200. `Memory` comes for want of memory alone.
pub fn make(alloc: Global, seed: u32, size: u32) -> Result<Big, Memory>
    requires some { 1 ≤ size }
    requires most { size ≤ 200 }
    ensures source { IfOk result (λ big. big.source ≡ source_of seed size) }
    ensures numbers { IfOk result (λ big. big.numbers ≡ numbers_of seed size) }
{
    let mut generator = Generator::new(seed);
    let mut source = List::new(alloc);
    put_functions(alloc, &mut source, &mut generator, size)?;
    source.append(PICK)?;
    put_calls(alloc, &mut source, size)?;
    source.append(WORK)?;
    let length = format!(in alloc; "{}", 10 * size)?;
    source.append(length.as_bytes())?;
    source.append(MAIN)?;
    let numbers = draw_numbers(alloc, &mut generator, 10 * size)?;
    Ok(Big { source, numbers })
}

/// Puts the functions last, a line each.
fn put_functions(
    alloc: Global,
    source: &mut Bytes,
    generator: &mut Generator,
    size: u32,
) -> Result<(), Memory>
    ensures lines { OnOk result (source.new ≡ source.old ++ function_lines generator.old size) }
    ensures value { OnOk result (generator.new ≡ value_after (2 * size) generator.old) }
{
    for index in 0..size {
        let factor = generator.draw() % 100;
        let summand = generator.draw() % 100;
        let line = format!(in alloc;
            "int f{index}(int x) {{ return x * {factor} + {summand}; }}\n"
        )?;
        source.append(line.as_bytes())?;
    }
    Ok(())
}

/// Puts the calls of the functions last, a line each.
fn put_calls(alloc: Global, source: &mut Bytes, size: u32) -> Result<(), Memory>
    ensures { OnOk result (source.new ≡ source.old ++ call_lines size) }
{
    for index in 0..size {
        let line = format!(in alloc; "s = s + f{index}(x);\n")?;
        source.append(line.as_bytes())?;
    }
    Ok(())
}

/// Draws the input numbers.
fn draw_numbers(alloc: Global, generator: &mut Generator, count: u32) -> Result<List<i32>, Memory>
    ensures { IfOk result (λ numbers. numbers ≡ numbers_from generator.old count) }
{
    let mut numbers = List::new(alloc);
    for _index in 0..count {
        let number = generator.draw() % 1000;
        numbers.push(number as i32)?;
    }
    Ok(numbers)
}
