//! From a source text to its tree.
ghost use Rattle.std.specs.Prelude.{◌≡◌, ℕ, IfOk, IfErr, Ok, Err};
ghost use Rattle.cm_syntax.specs.Grammar.{IsSourceOf};
ghost use Rattle.cm_syntax.specs.Refusal.{Refusal, IsAnswer, HasNoRefusal, IsSoundTree};
ghost use Rattle.cm_syntax.specs.Canonical.{canonical};
ghost use Rattle.cm_syntax.specs.Offset.{without_offsets};
ghost use Rattle.cm_reader.specs.Answer.{IsRefusalOf, refusal_of, Gives};

use crate::cursor::MAX_SOURCE_BYTES;
use crate::lexer::tokens;
use crate::parser::parse;
use crate::refusal::ReadRefusal;
use cm_syntax::Tree;
use std::alloc::Global;

/// The tree of a source text, with the offset of each name. A text that is no source, or that passes a limit, is
/// refused at the least offset that is refused, and at one offset for its size first. The time and the memory are
/// linear in the text. What `write` makes of a sound tree is read as this tree, in all but the offsets and the length,
/// where it passes no limit.
///
/// # Errors
/// `Syntax` and `Size` as the grammar and the limits have them, exactly there; `Memory` is want of memory.
pub fn read(alloc: Global, source: &[u8]) -> Result<Tree, ReadRefusal>
    ensures tree { IfOk result (IsSourceOf source.now) }
    ensures within { IfOk result (λ _. HasNoRefusal source.now) }
    ensures refusal { IfErr result (IsRefusalOf source.now) }
    ensures each_tree { (tree : Tree) → IsSourceOf source.now tree → HasNoRefusal source.now → Gives result (Ok tree) }
    ensures each_refusal { (refusal : Refusal) (at : ℕ) → IsAnswer source.now refusal at
        → Gives result (Err (refusal_of refusal at)) }
    ensures written { (tree : Tree) → IsSoundTree tree → source.now ≡ canonical tree
        → IfOk result (λ again. without_offsets again ≡ without_offsets tree) }
{
    let tokens = tokens(alloc, source)?;
    let length = source.len().min(MAX_SOURCE_BYTES as usize + 1) as u32;
    let functions = parse(alloc, tokens.items(), length)?;
    Ok(Tree { functions, length })
}
