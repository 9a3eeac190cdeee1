//! The program of a tree, or the fault that is answered.
ghost use Rattle.std.specs.Prelude.{◌≡◌, ◌++◌, ◌==◌, ℕ, nat_lt, not, ◌||◌, ◌&&◌, Some, List, [], take, length, if◌then◌else◌, codes, IfOk, IfErr, Ok, Err};
ghost use Rattle.std.specs.Option.{option_map};
ghost use Rattle.std.specs.List.{list_any};
ghost use Rattle.cm_syntax.specs.Limit.{max_frame_words, max_functions, max_parameter_words};
ghost use Rattle.cm_syntax.specs.Text.{is_same};
ghost use Rattle.cm_syntax.specs.Frame.{slots_words, rounded_frame, body_temporaries};
ghost use Rattle.cm_syntax.specs.Resolution as resolution;
ghost use Rattle.cm_syntax.specs.Fault as fault;
ghost use Rattle.cm_names.specs.Found.{found_before};
ghost use Rattle.cm_names.specs.Finding as finding;
ghost use Rattle.cm_names.specs.Answer.{Gives, IsRefusalOf, refusal_of};

use crate::expression::Resolver;
use crate::finding::{FaultKind, Findings, FoundFault};
use crate::functions::Functions;
use crate::pass::Pass;
use crate::refusal::NameRefusal;
use crate::variable::Variables;
use cm_syntax::{
    Function, Item, Mark, Name, Program, Slot, Stmt, Tree, checked_frame_words, checked_slots_words,
};
use cm_text::{List, Memory};
use std::alloc::Global;

/// The most functions of a program.
const MAX_FUNCTIONS: u32 = 256;

/// The most words of a function's parameters.
const MAX_PARAMETER_WORDS: u32 = 8;

/// The program of a tree: each name is its number. A tree with faults is refused: the least faulty offset is answered,
/// and at one offset the variant of `NameRefusal` that stands first. `NameRefusal::Memory` is want of memory, and comes
/// also where a number of a slot or of a function doesn't fit 32 bits.
///
/// The call takes time in proportion to the tree, and calls itself as deep as expressions and statements are nested in
/// it.
pub fn resolve(alloc: Global, tree: Tree) -> Result<Program, NameRefusal>
    ensures program { IfOk result (λ program. (fault.faults tree ≡ []) × (program ≡ fault.program_of tree)) }
    ensures refusal { IfErr result (IsRefusalOf tree) }
    ensures each_program { fault.faults tree ≡ [] → Gives result (Ok (fault.program_of tree)) }
    ensures each_refusal { (at : ℕ) (variant : fault.Variant) → fault.IsNameAnswer tree at variant → Gives result (Err (refusal_of variant at)) }
{
    let resolved = resolved_tree(alloc, &tree)?;
    match resolved.least {
        None => Ok(resolved.program),
        Some(fault) => Err(refusal(fault)),
    }
}

/// The refusal that says this fault.
fn refusal(fault: FoundFault) -> NameRefusal
    ensures { result ≡ refusal_of (finding.variant_of fault.kind) fault.at }
{
    let at = fault.at;
    match fault.kind {
        FaultKind::Unknown => NameRefusal::Unknown { at },
        FaultKind::Twice => NameRefusal::Twice { at },
        FaultKind::Arity => NameRefusal::Arity { at },
        FaultKind::Kind => NameRefusal::Kind { at },
        FaultKind::NoMain => NameRefusal::NoMain { at },
        FaultKind::Frame => NameRefusal::Frame { at },
        FaultKind::Count => NameRefusal::Count { at },
    }
}

// ---- trees

/// A tree whose names are numbers, and the fault that is answered, if there is one.
#[derive(Drop)]
struct ResolvedTree {
    program: Program,
    least: Option<FoundFault>,
}

/// Resolves a tree.
fn resolved_tree(alloc: Global, tree: &Tree) -> Result<ResolvedTree, Memory>
    ensures program { IfOk result (λ resolved. resolved.program ≡ fault.program_of tree.now) }
    ensures least { IfOk result (λ resolved. finding.IsLeast (option_map finding.fault_of resolved.least) (fault.faults tree.now)) }
{
    let functions = Functions::new(alloc, tree.functions.items())?;
    let resolved = resolved_functions(alloc, &functions)?;
    let name = Name::of(alloc, b"main")?;
    let main = functions.number(&name);
    let mut found = Findings::behind(resolved.least);
    found.note_where(main.is_none(), tree.length, FaultKind::NoMain);
    Ok(ResolvedTree {
        program: Program {
            functions: resolved.functions,
            main: main.unwrap_or(0),
        },
        least: found.least(),
    })
}

// ---- functions

/// Functions whose names are numbers, and the fault that is answered of theirs, if there is one.
#[derive(Drop)]
struct ResolvedFunctions {
    functions: List<Function<u32>>,
    least: Option<FoundFault>,
}

/// Resolves all functions.
fn resolved_functions<'a>(
    alloc: Global,
    functions: &'a Functions<'a>,
) -> Result<ResolvedFunctions, Memory>
    ensures functions { IfOk result (λ resolved. resolved.functions ≡ resolution.resolve_functions functions.now 0 functions.now) }
    ensures least { IfOk result (λ resolved. finding.IsLeast (option_map finding.fault_of resolved.least) (fault.functions_faults functions.now [] 0 functions.now)) }
{
    let mut resolved = List::new(alloc);
    let mut least = None;
    for (index, function) in functions.items().iter().enumerate() {
        let Ok(number) = u32::try_from(index) else {
            return Err(Memory);
        };
        let next = resolved_function(alloc, functions, number, function, least)?;
        resolved.push(next.function)?;
        least = next.least;
    }
    Ok(ResolvedFunctions {
        functions: resolved,
        least,
    })
}

/// A function whose names are numbers, and the fault that is answered of its own and those before it.
#[derive(Drop)]
struct ResolvedFunction {
    function: Function<u32>,
    least: Option<FoundFault>,
}

/// Resolves the function of this index, behind those of which a fault is kept.
fn resolved_function<'a>(
    alloc: Global,
    functions: &'a Functions<'a>,
    index: u32,
    function: &'a Function<Name>,
    least: Option<FoundFault>,
) -> Result<ResolvedFunction, Memory>
    ensures function { IfOk result (λ resolved. resolved.function ≡ resolution.resolve_function functions.now index function.now) }
    ensures least { (earlier : List fault.Fault) → finding.IsLeast (option_map finding.fault_of least) earlier
        → IfOk result (λ resolved. finding.IsLeast (option_map finding.fault_of resolved.least)
        (earlier ++ fault.function_faults functions.now (take index functions.now) index function.now)) }
{
    let resolver = Resolver {
        alloc,
        functions,
        function,
    };
    let mut parts = resolved_parts(&resolver, least)?;
    let is_second = functions.is_second(index, &function.name.name);
    let is_wrong_main = is_wrong_main(function);
    let has_large_frame = has_large_frame(
        parts.slots.items(),
        parts.found.has_faulty_mention(),
        function.body.items(),
        parts.body.items(),
    );
    let is_excess = is_excess(index, parts.is_wide);
    let at = function.name.at;
    parts.found.note_where(is_second, at, FaultKind::Twice);
    parts.found.note_where(is_wrong_main, at, FaultKind::Kind);
    parts
        .found
        .note_where(has_large_frame, at, FaultKind::Frame);
    parts.found.note_where(is_excess, at, FaultKind::Count);
    Ok(ResolvedFunction {
        function: Function {
            name: Mark { name: index, at },
            cilk: function.cilk,
            gives: function.gives,
            parameters: parts.parameters,
            body: parts.body,
            slots: parts.slots,
        },
        least: parts.found.least(),
    })
}

/// Whether it is one function too many, or has too many words of parameters.
fn is_excess(index: u32, is_wide: bool) -> bool
    ensures { result ≡ (index == max_functions || is_wide) }
{
    index == MAX_FUNCTIONS || is_wide
}

/// Whether a function is called `main`, and has parameters or returns no value.
fn is_wrong_main(function: &Function<Name>) -> bool
    ensures { result ≡ (is_same function.now.name.name (codes "main") && (not (length function.now.parameters == 0) || not function.now.gives)) }
{
    function.name.name.bytes() == b"main".as_slice()
        && (!function.parameters.is_empty() || !function.gives)
}

// ---- the parts of a function

/// The parts of a function whose names are numbers, and what was found in its names.
#[derive(Drop)]
struct FunctionParts {
    parameters: List<Item<u32>>,
    body: List<Stmt<u32>>,
    slots: List<Slot>,
    found: Findings,
    /// Whether the parameters have too many words.
    is_wide: bool,
}

/// Resolves the parameters and the body of a function.
fn resolved_parts<'a>(
    resolver: &Resolver<'a>,
    least: Option<FoundFault>,
) -> Result<FunctionParts, Memory>
    ensures parameters { IfOk result (λ parts. parts.parameters ≡ resolution.resolve_items resolver.now.functions.now resolution.function_scope resolver.now.function.now.parameters) }
    ensures body { IfOk result (λ parts. parts.body ≡ resolution.resolve_body resolver.now.functions.now
        (resolution.declare_items resolution.function_scope resolver.now.function.now.parameters) resolver.now.function.now.body) }
    ensures slots { IfOk result (λ parts. parts.slots ≡ resolution.function_slots resolver.now.function.now) }
    ensures found { IfOk result (λ parts. parts.found ≡ finding.after_uses resolver.now.functions.now resolver.now.function.now
        (found_before (option_map finding.fault_of least)) (resolution.function_uses resolver.now.function.now)) }
    ensures wide { IfOk result (λ parts. parts.is_wide ≡ nat_lt max_parameter_words (slots_words (fault.parameter_slots resolver.now.function.now))) }
{
    let mut pass = Pass {
        variables: Variables::new(resolver.alloc),
        slots: List::new(resolver.alloc),
        found: Findings::behind(least),
    };
    let function = resolver.function;
    let parameters = resolver.items(&mut pass, 0, function.parameters.items())?;
    let is_wide = is_wide(pass.slots.items());
    let body = resolver.body(&mut pass, 0, function.body.items())?;
    Ok(FunctionParts {
        parameters,
        body,
        slots: pass.slots,
        found: pass.found,
        is_wide,
    })
}

/// Whether the slots of parameters have too many words.
fn is_wide(slots: &[Slot]) -> bool
    ensures { result ≡ nat_lt max_parameter_words (slots_words slots.now) }
{
    checked_slots_words(slots, MAX_PARAMETER_WORDS).is_none()
}

/// Whether the frame of a function with these slots has too many words. Its temporaries are counted in the tree where a
/// mention is faulty, and in the resolved body otherwise.
fn has_large_frame(
    slots: &[Slot],
    has_faulty_mention: bool,
    tree: &[Stmt<Name>],
    resolved: &[Stmt<u32>],
) -> bool
    ensures { result ≡ nat_lt max_frame_words (rounded_frame (slots_words slots.now)
        (if has_faulty_mention then body_temporaries tree.now else body_temporaries resolved.now)) }
{
    if has_faulty_mention {
        checked_frame_words(slots, tree).is_none()
    } else {
        checked_frame_words(slots, resolved).is_none()
    }
}
