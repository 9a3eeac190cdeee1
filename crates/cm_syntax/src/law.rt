//! Laws of the definitions, and single texts worked out by hand with which they have to agree. The functions do
//! nothing: their contracts are the laws.

ghost use Rattle.std.specs.Prelude.{◌≡◌, ◌≤◌, ◌<◌, ◌⊎◌, ◌++◌, [], ◌∷◌, ℕ, List, Bool, pos, length, codes, map, replicate, slice_get, Some, None};
ghost use Rattle.cm_syntax.specs.declared.name.Name.{Name};
ghost use Rattle.cm_syntax.specs.declared.expr.Expr.{Expr};
ghost use Rattle.cm_syntax.specs.declared.expr.Expr.TheVariants as expression;
ghost use Rattle.cm_syntax.specs.declared.expr.Arg.{Arg};
ghost use Rattle.cm_syntax.specs.declared.expr.Call.{Call};
ghost use Rattle.cm_syntax.specs.declared.stmt.Item.{Item};
ghost use Rattle.cm_syntax.specs.declared.stmt.Target.{Target};
ghost use Rattle.cm_syntax.specs.declared.stmt.Stmt.{Stmt};
ghost use Rattle.cm_syntax.specs.declared.stmt.Stmt.TheVariants as statement;
ghost use Rattle.cm_syntax.specs.declared.stmt.Function.{Function};
ghost use Rattle.cm_syntax.specs.declared.stmt.Tree.{Tree};
ghost use Rattle.cm_syntax.specs.declared.token.Keyword.TheVariants as keywords;
ghost use Rattle.cm_syntax.specs.declared.token.Sign.TheVariants as signs;
ghost use Rattle.cm_syntax.specs.Token.{Token, LocatedToken, token_at, Tokens};
ghost use Rattle.cm_syntax.specs.ParseTree as grammar;
ghost use Rattle.cm_syntax.specs.Yield.{CountedToken, program_tokens, located_tokens};
ghost use Rattle.cm_syntax.specs.Grammar.{IsExpression, IsPrimary, IsArgument, IsCall, IsItem, AreItems, IsDeclaration, IsTarget, IsSimple, IsPlain, AreStatements, IsStatement, IsBlock, IsParameter, AreParameters, IsFunction, Parses, IsSourceOf};
ghost use Rattle.cm_syntax.specs.Refusal.{Syntax, Size, Refusal, IsAnswer, HasNoRefusal, IsSoundTree};
ghost use Rattle.cm_syntax.specs.Parser.{text_answer, IsAnswerTo};
ghost use Rattle.cm_syntax.specs.Canonical.{canonical};
ghost use Rattle.cm_syntax.specs.Offset.{without_offsets};
ghost use Rattle.std.specs.List.{range_with_len};
ghost use Rattle.cm_syntax.specs.Number.{declared_numbers, function_numbers, uses_numbers};
ghost use Rattle.cm_syntax.specs.Resolution.{function_uses, resolve_function, Variable, ResolvesTo, function_slots};
ghost use Rattle.cm_syntax.specs.Frame as frame;
ghost use Rattle.cm_syntax.specs.Fault.{Variant, fault_at, faults, frame_of, program_of, Faulty, IsNameAnswer, IsSoundFunction};
ghost use Rattle.cm_syntax.specs.Limit.{max_frame_words, max_functions, max_source_bytes};
ghost use Rattle.cm_syntax.specs.declared.expr.Op.TheVariants as operators;
ghost use Rattle.cm_syntax.specs.Shape.{Joined};
ghost use Rattle.cm_syntax.specs.Row.{AreSpelled, BindsTighter, GroupsLeft, IsAccepted, PrefixBindsTighter, literal, IsPrintedAs, HasBody, HasFaults, HasFrames, HasNumbers, UpdatesBy, ResolvesToSlot, IsSoundSource, loops};

/// A text has exactly one list of tokens.
pub fn one_token_list()
    ensures some { (bytes : List ℕ) → (tokens : List LocatedToken) × Tokens 0 bytes tokens }
    ensures one { (bytes : List ℕ) (tokens others : List LocatedToken) → Tokens 0 bytes tokens
        → Tokens 0 bytes others → tokens ≡ others }
{}

/// Each nonterminal of the grammar has a member: an expression of each level, statements open and not, and so on.
pub fn grammar_members()
    ensures expression { (level : ℕ) → level ≤ 12
        → (tokens : List LocatedToken) × (tree : Expr Name) × IsExpression level tokens tree }
    ensures primary { (tokens : List LocatedToken) × (tree : Expr Name) × IsPrimary tokens tree }
    ensures argument { (tokens : List LocatedToken) × (tree : Arg Name) × IsArgument tokens tree }
    ensures call { (tokens : List LocatedToken) × (tree : Call Name) × IsCall tokens tree }
    ensures item { (tokens : List LocatedToken) × (tree : Item Name) × IsItem tokens tree }
    ensures items { (tokens : List LocatedToken) × (items : List (Item Name)) × AreItems tokens items }
    ensures declaration { (tokens : List LocatedToken) × (tree : Stmt Name) × IsDeclaration tokens tree }
    ensures target { (tokens : List LocatedToken) × (tree : Target Name) × IsTarget tokens tree }
    ensures simple { (tokens : List LocatedToken) × (tree : Stmt Name) × IsSimple tokens tree }
    ensures plain { (is_open : Bool) → (tokens : List LocatedToken) × (tree : Stmt Name) × IsPlain is_open tokens tree }
    ensures statements { (tokens : List LocatedToken) × (trees : List (Stmt Name)) × AreStatements tokens trees }
    ensures statement { (tokens : List LocatedToken) × (tree : Stmt Name) × IsStatement tokens tree }
    ensures block { (tokens : List LocatedToken) × (trees : List (Stmt Name)) × IsBlock tokens trees }
    ensures parameter { (tokens : List LocatedToken) × (tree : Item Name) × IsParameter tokens tree }
    ensures parameters { (tokens : List LocatedToken) × (items : List (Item Name)) × AreParameters tokens items }
    ensures function { (tokens : List LocatedToken) × (tree : Function Name) × IsFunction tokens tree }
    ensures program { (tokens : List LocatedToken) × (functions : List (Function Name)) × Parses tokens functions }
{}

/// The grammar is unambiguous: tokens are of one list of functions at most, and so a source has one tree at most.
pub fn one_tree()
    ensures tokens { (tokens : List LocatedToken) (x y : List (Function Name)) → Parses tokens x
        → Parses tokens y → x ≡ y }
    ensures source { (bytes : List ℕ) (x y : Tree) → IsSourceOf bytes x → IsSourceOf bytes y → x ≡ y }
{}

/// What is counted at a token against the limits depends on the tokens up to it alone: two programs whose tokens
/// begin alike have the same counts there.
pub fn one_count()
    ensures { (a b : grammar.Program) (before others more rest : List CountedToken)
        → program_tokens a ≡ before ++ more → program_tokens b ≡ others ++ rest
        → located_tokens before ≡ located_tokens others → before ≡ others }
{}

/// Syntax is refused at one offset at most.
pub fn one_syntax_offset()
    ensures { (bytes : List ℕ) (i j : ℕ) → Syntax bytes i → Syntax bytes j → i ≡ j }
{}

/// A source is answered with one refusal at one offset at most, and so is a tree with a fault.
pub fn one_answer()
    ensures source { (bytes : List ℕ) (r s : Refusal) (i j : ℕ) → IsAnswer bytes r i
        → IsAnswer bytes s j → (r ≡ s) × (i ≡ j) }
    ensures names { (tree : Tree) (i j : ℕ) (u v : Variant) → IsNameAnswer tree i u
        → IsNameAnswer tree j v → (i ≡ j) × (u ≡ v) }
{}

/// Each text has exactly one answer: it is a source and no offset of it is refused, or a refusal is answered.
pub fn every_text_is_answered()
    ensures some { (bytes : List ℕ) → ((tree : Tree) × IsSourceOf bytes tree × HasNoRefusal bytes)
        ⊎ ((refusal : Refusal) × (at : ℕ) × IsAnswer bytes refusal at) }
    ensures one { (bytes : List ℕ) (refusal : Refusal) (at : ℕ) → HasNoRefusal bytes
        → IsAnswer bytes refusal at → ⊥ }
{}

/// The answer that the parser gives to the tokens of a text is the text's answer.
pub fn answers_of_parser()
    ensures { (bytes : List ℕ) (tokens : List LocatedToken) → Tokens 0 bytes tokens
        → IsAnswerTo bytes (text_answer tokens (length bytes)) }
{}

/// What a mention stands for has its slot among the slots of its function, and the slot is of its kind.
pub fn slots_of_mentions()
    ensures { (f : Function Name) (i : ℕ) (v : Variable) → ResolvesTo f i v
        → slice_get (function_slots f) v.slot ≡ Some v.kind }
{}

/// In the program of a tree, the numbers of a function's mentions are the slots and the indices that its uses stand
/// for, in their order, and its own names are numbered from 0 on in the order of the text, one for each slot.
pub fn numbers_of_names()
    ensures mentions { (functions : List (Function Name)) (index : ℕ) (f : Function Name)
        → function_numbers (resolve_function functions index f) ≡ uses_numbers functions (function_uses f) }
    ensures declarations { (functions : List (Function Name)) (index : ℕ) (f : Function Name)
        → declared_numbers (resolve_function functions index f) ≡ range_with_len 0 (length (function_slots f)) }
{}

/// The canonical text of a sound tree is a source text of the same tree, in all but the offsets and the length.
pub fn canonical_source()
    ensures { (tree : Tree) → IsSoundTree tree
        → (again : Tree) × IsSourceOf (canonical tree) again × (without_offsets again ≡ without_offsets tree) }
{}

/// In a tree without faults, the frame words that are held against the limit are those of the program's functions.
pub fn frame_words_agree()
    ensures { (tree : Tree) → faults tree ≡ []
        → map (frame_of tree.functions) tree.functions ≡ map frame.frame_words (program_of tree).functions }
{}

/// A function of a sound program has a frame within the limit, so `frame_words` and `frame_bytes` can be called on it.
pub fn frames_of_sound_programs()
    ensures { (f : Function ℕ) → IsSoundFunction f → frame.frame_words f ≤ max_frame_words }
{}

/// The tokens of some texts: the longest token that fits stands, a comment doesn't nest, and a word that is set
/// aside or a byte that begins no token fits nowhere. All signs, all words of the language and all that are set aside.
pub fn tokens_of_texts()
    ensures longest { Tokens 0 (codes "a+++b<<=c//d")
        (token_at (Token.name (codes "a")) 0 ∷ token_at (Token.sign signs.PlusPlus) 1 ∷
        token_at (Token.sign signs.Plus) 3 ∷ token_at (Token.name (codes "b")) 4 ∷
        token_at (Token.sign signs.ShiftLeftAssign) 5 ∷ token_at (Token.name (codes "c")) 8 ∷ []) }
    ensures comment { Tokens 0 (codes "/* /* */ x /*/ y */ z")
        (token_at (Token.name (codes "x")) 9 ∷ token_at (Token.name (codes "z")) 20 ∷ []) }
    ensures words { Tokens 0 (codes "int ints inputs if0 _ 0 10 const")
        (token_at (Token.keyword keywords.Int) 0 ∷ token_at (Token.name (codes "ints")) 4 ∷
        token_at (Token.keyword keywords.Inputs) 9 ∷ token_at (Token.name (codes "if0")) 16 ∷
        token_at (Token.name (codes "_")) 20 ∷ token_at (Token.number 0) 22 ∷
        token_at (Token.number 10) 24 ∷ token_at Token.unfit 27 ∷ []) }
    ensures faulty { Tokens 0 (codes "x # y")
        (token_at (Token.name (codes "x")) 0 ∷ token_at Token.unfit 2 ∷ []) }
    ensures all_signs { AreSpelled
        ((codes "<<=", Token.sign signs.ShiftLeftAssign) ∷
        (codes ">>=", Token.sign signs.ShiftRightAssign) ∷
        (codes "<<", Token.sign signs.ShiftLeft) ∷
        (codes ">>", Token.sign signs.ShiftRight) ∷
        (codes "<=", Token.sign signs.LessEqual) ∷
        (codes ">=", Token.sign signs.GreaterEqual) ∷
        (codes "==", Token.sign signs.Equal) ∷
        (codes "!=", Token.sign signs.NotEqual) ∷
        (codes "&&", Token.sign signs.AndAnd) ∷
        (codes "||", Token.sign signs.OrOr) ∷
        (codes "+=", Token.sign signs.PlusAssign) ∷
        (codes "-=", Token.sign signs.MinusAssign) ∷
        (codes "*=", Token.sign signs.StarAssign) ∷
        (codes "/=", Token.sign signs.SlashAssign) ∷
        (codes "%=", Token.sign signs.PercentAssign) ∷
        (codes "&=", Token.sign signs.AndAssign) ∷
        (codes "^=", Token.sign signs.CaretAssign) ∷
        (codes "|=", Token.sign signs.OrAssign) ∷
        (codes "++", Token.sign signs.PlusPlus) ∷
        (codes "--", Token.sign signs.MinusMinus) ∷
        (codes "+", Token.sign signs.Plus) ∷
        (codes "-", Token.sign signs.Minus) ∷
        (codes "*", Token.sign signs.Star) ∷
        (codes "/", Token.sign signs.Slash) ∷
        (codes "%", Token.sign signs.Percent) ∷
        (codes "<", Token.sign signs.Less) ∷
        (codes ">", Token.sign signs.Greater) ∷
        (codes "=", Token.sign signs.Assign) ∷
        (codes "!", Token.sign signs.Exclamation) ∷
        (codes "~", Token.sign signs.Tilde) ∷
        (codes "&", Token.sign signs.Ampersand) ∷
        (codes "^", Token.sign signs.Caret) ∷
        (codes "|", Token.sign signs.Bar) ∷
        (codes "(", Token.sign signs.ParenOpen) ∷
        (codes ")", Token.sign signs.ParenClose) ∷
        (codes "{", Token.sign signs.BraceOpen) ∷
        (codes "}", Token.sign signs.BraceClose) ∷
        (codes "[", Token.sign signs.BracketOpen) ∷
        (codes "]", Token.sign signs.BracketClose) ∷
        (codes ",", Token.sign signs.Comma) ∷
        (codes ";", Token.sign signs.Semicolon) ∷ []) }
    ensures all_words { AreSpelled
        ((codes "int", Token.keyword keywords.Int) ∷
        (codes "void", Token.keyword keywords.Void) ∷
        (codes "cilk", Token.keyword keywords.Cilk) ∷
        (codes "spawn", Token.keyword keywords.Spawn) ∷
        (codes "sync", Token.keyword keywords.Sync) ∷
        (codes "if", Token.keyword keywords.If) ∷
        (codes "else", Token.keyword keywords.Else) ∷
        (codes "while", Token.keyword keywords.While) ∷
        (codes "for", Token.keyword keywords.For) ∷
        (codes "return", Token.keyword keywords.Return) ∷
        (codes "print", Token.keyword keywords.Print) ∷
        (codes "input", Token.keyword keywords.Input) ∷
        (codes "inputs", Token.keyword keywords.Inputs) ∷
        (codes "len", Token.keyword keywords.Len) ∷
        (codes "split", Token.keyword keywords.Split) ∷
        (codes "at", Token.keyword keywords.At) ∷
        (codes "as", Token.keyword keywords.As) ∷ []) }
    ensures words_set_aside { AreSpelled
        ((codes "const", Token.unfit) ∷
        (codes "cilk_spawn", Token.unfit) ∷
        (codes "cilk_sync", Token.unfit) ∷
        (codes "cilk_for", Token.unfit) ∷
        (codes "grain", Token.unfit) ∷
        (codes "reducer", Token.unfit) ∷
        (codes "foreign", Token.unfit) ∷
        (codes "extern", Token.unfit) ∷
        (codes "break", Token.unfit) ∷
        (codes "continue", Token.unfit) ∷
        (codes "do", Token.unfit) ∷
        (codes "goto", Token.unfit) ∷
        (codes "switch", Token.unfit) ∷
        (codes "case", Token.unfit) ∷
        (codes "default", Token.unfit) ∷
        (codes "struct", Token.unfit) ∷
        (codes "union", Token.unfit) ∷
        (codes "enum", Token.unfit) ∷
        (codes "typedef", Token.unfit) ∷
        (codes "static", Token.unfit) ∷
        (codes "char", Token.unfit) ∷
        (codes "short", Token.unfit) ∷
        (codes "long", Token.unfit) ∷
        (codes "unsigned", Token.unfit) ∷
        (codes "signed", Token.unfit) ∷
        (codes "float", Token.unfit) ∷
        (codes "double", Token.unfit) ∷
        (codes "sizeof", Token.unfit) ∷
        (codes "inlet", Token.unfit) ∷
        (codes "abort", Token.unfit) ∷ []) }
{}

/// The trees of some sources, in whole or by their canonical texts: an `else` belongs to the nearest `if`, binary
/// operators group to the left, and parentheses stand only where they are needed.
pub fn trees_of_sources()
    ensures nearest_else { HasBody (codes "int main() { if (1) if (2) ; else ; }") (statement.If
        (expression.Number (pos 1)) (statement.If (expression.Number (pos 2)) statement.Empty (Some
        statement.Empty)) None ∷ []) }
    ensures pointer { IsPrintedAs (codes "int f(int *p){p[0]++;return *p;}")
        (codes "int f ( int p [ ] ) { * p += 1 ; return * p ; }") }
    ensures grouped { IsPrintedAs
        (codes "int main(void) { return (1 + 2) * 3 - ((4 * 5)) - (6 - 7); }")
        (codes "int main ( ) { return ( 1 + 2 ) * 3 - 4 * 5 - ( 6 - 7 ) ; }") }
    ensures loop_ { IsPrintedAs
        (codes "int main() { int i; for (i = 0; ; --i) { while (-i < !2) ; } return i; }")
        (codes "int main ( ) { int i ; for ( i = 0 ; ; i -= 1 ) { while ( - i < ! 2 ) ; } return i ; }") }
    ensures spawned { IsPrintedAs
        (codes "cilk int g(int a[]) { return len(a); } cilk int main() { int x, b[3]; x = spawn g(b); sync; return x; }")
        (codes "cilk int g ( int a [ ] ) { return len ( a ) ; } cilk int main ( ) { int x , b [ 3 ] ; x = spawn g ( b ) ; sync ; return x ; }") }
    ensures constructs { IsPrintedAs
        (codes "void f(int a[],int n){if(n)f(a,n-1);else if(!n);else{return;}split a at input(n) as l,r{print(inputs());}for(int k=0,m[2];k<len(a);k++)a[k+1]<<=*a;spawn f(&n,n);}")
        (codes "void f ( int a [ ] , int n ) { if ( n ) f ( a , n - 1 ) ; else if ( ! n ) ; else { return ; } split a at input ( n ) as l , r { print ( inputs ( ) ) ; } for ( int k = 0 , m [ 2 ] ; k < len ( a ) ; k += 1 ) a [ k + 1 ] <<= * a ; spawn f ( & n , n ) ; }") }
{}

/// Each sign of an update has its operator.
pub fn updates_of_source()
    ensures { UpdatesBy
        (codes "int main() { int x; x += 1; x -= 2; x *= 3; x /= 4; x %= 5; x <<= 6; x >>= 7; x &= 8; x ^= 9; x |= 10; return x; }")
        (operators.Add ∷ operators.Sub ∷ operators.Mul ∷ operators.Div ∷ operators.Rem ∷ operators.Shl ∷ operators.Shr ∷ operators.And ∷ operators.Xor ∷ operators.Or ∷ []) }
{}

/// Where some sources are refused, and why.
pub fn refused_sources()
    ensures empty { IsAnswer (codes "") Refusal.syntax_ 0 }
    ensures no_brace { IsAnswer (codes "int main() { return 1") Refusal.syntax_ 21 }
    ensures leading_zero { IsAnswer (codes "012") Refusal.syntax_ 0 }
    ensures lone_byte { IsAnswer (128 ∷ []) Refusal.syntax_ 0 }
    ensures unclosed { IsAnswer (codes "/* a") Refusal.syntax_ 0 }
    ensures reserved { IsAnswer (codes "const int") Refusal.syntax_ 0 }
    ensures number_and_letter { IsAnswer (codes "12a") Refusal.syntax_ 0 }
    ensures unclosed_later { IsAnswer (codes "int /*") Refusal.syntax_ 4 }
    ensures number_for_name { IsAnswer (codes "int 2147483648") Refusal.syntax_ 4 }
    ensures word_for_name { IsAnswer (codes "int if") Refusal.syntax_ 4 }
    ensures literal { IsAnswer (codes "int main() { return 2147483648; }") Refusal.size 20 }
    ensures no_words { IsAnswer (codes "int main() { int a[0]") Refusal.size 19 }
    ensures many_words { IsAnswer (codes "int main() { int a[16385]") Refusal.size 19 }
    ensures parentheses { IsAnswer (codes "int main() { return " ++ replicate 65 40) Refusal.size 84 }
    ensures operators { IsAnswer (codes "int main() { return " ++ replicate 65 126) Refusal.size 84 }
    ensures loops { IsAnswer (codes "int main() { " ++ loops 64) Refusal.size 525 }
    ensures less_loops { IsAnswer (codes "int main() { " ++ loops 63) Refusal.syntax_ 518 }
    ensures no_value { IsAnswer (codes "int main() { x = ; }") Refusal.syntax_ 17 }
    ensures second_else { IsAnswer (codes "int main() { if (1) ; else ; else ; }") Refusal.syntax_ 29 }
    ensures element_spawn { IsAnswer (codes "int main() { a[1] = spawn f(); }") Refusal.syntax_ 20 }
    ensures for_spawn { IsAnswer (codes "int main() { for (x = spawn f(); ; ) ; }") Refusal.syntax_ 22 }
    ensures reference { IsAnswer (codes "int main() { f(&x + 1); }") Refusal.syntax_ 18 }
    ensures trailing_comma { IsAnswer (codes "int main() { f(x,); }") Refusal.syntax_ 17 }
    ensures declared_body { IsAnswer (codes "int main() { if (1) int x; }") Refusal.syntax_ 20 }
    ensures behind { IsAnswer (codes "int main() { } ;") Refusal.syntax_ 15 }
    ensures first_refused { IsAnswer (codes "int main() { return 2147483648 1; }") Refusal.size 20 }
    ensures too_long { (bytes : List ℕ) → max_source_bytes < length bytes → Size bytes max_source_bytes }
{}

/// Sources that are refused inside of a body, at the token that doesn't fit there.
pub fn refused_bodies()
    ensures no_value { IsAnswer (codes "int main() { int x; if (x) { x = ; } return x; }") Refusal.syntax_ 33 }
    ensures no_parenthesis { IsAnswer (codes "int main() { while (1 { } }") Refusal.syntax_ 22 }
    ensures third_part { IsAnswer (codes "int main() { for (;;;) ; }") Refusal.syntax_ 20 }
    ensures no_comma { IsAnswer (codes "int main() { int a[2]; split a at 1 as l r { } }") Refusal.syntax_ 41 }
    ensures no_assignment { IsAnswer (codes "int main() { x + 1; }") Refusal.syntax_ 15 }
    ensures no_argument { IsAnswer (codes "int main() { f(1,); }") Refusal.syntax_ 17 }
    ensures lone_else { IsAnswer (codes "int main() { else ; }") Refusal.syntax_ 13 }
    ensures two_values { IsAnswer (codes "int main() { return 1 2; }") Refusal.syntax_ 22 }
    ensures no_semicolon { IsAnswer (codes "int main() { { int x } }") Refusal.syntax_ 21 }
    ensures spawned_value { IsAnswer (codes "cilk int main() { x = spawn 1; }") Refusal.syntax_ 28 }
    ensures no_bracket { IsAnswer (codes "int main() { a[1 = 2; }") Refusal.syntax_ 17 }
    ensures no_name { IsAnswer (codes "int f(int) { }") Refusal.syntax_ 9 }
{}

/// Sources that come up to a limit and are refused nowhere; `refused_sources` has those that pass it by one.
pub fn sources_at_limits()
    ensures deepest_loop { IsAccepted (codes "int main() { " ++ (loops 63 ++ codes " }")) }
    ensures most_parentheses { IsAccepted (codes "int main() { return " ++ (replicate 64 40 ++ (codes "1" ++ (replicate 64 41 ++ codes "; }")))) }
    ensures most_operators { IsAccepted (codes "int main() { return " ++ (replicate 64 126 ++ codes "1; }")) }
    ensures greatest_literal { IsAccepted (codes "int main() { return 2147483647; }") }
    ensures least_array { IsAccepted (codes "int main() { int a[1]; return 0; }") }
    ensures greatest_array { IsAccepted (codes "int main() { int a[16384]; return 0; }") }
{}

/// Neighbouring levels of operators, each operator among them: which one binds tighter, and that operators of one
/// level group to the left.
pub fn levels_of_operators()
    ensures tighter { BindsTighter (codes "&&") (codes "||") ×
        BindsTighter (codes "|") (codes "&&") ×
        BindsTighter (codes "^") (codes "|") ×
        BindsTighter (codes "&") (codes "^") ×
        BindsTighter (codes "==") (codes "&") ×
        BindsTighter (codes "!=") (codes "&") ×
        BindsTighter (codes "<") (codes "==") ×
        BindsTighter (codes "<=") (codes "!=") ×
        BindsTighter (codes ">") (codes "==") ×
        BindsTighter (codes ">=") (codes "!=") ×
        BindsTighter (codes "<<") (codes "<") ×
        BindsTighter (codes ">>") (codes "<=") ×
        BindsTighter (codes "<<") (codes ">") ×
        BindsTighter (codes ">>") (codes ">=") ×
        BindsTighter (codes "+") (codes "<<") ×
        BindsTighter (codes "-") (codes ">>") ×
        BindsTighter (codes "*") (codes "+") ×
        BindsTighter (codes "/") (codes "-") ×
        BindsTighter (codes "%") (codes "+") }
    ensures left { GroupsLeft (codes "||") (codes "||") ×
        GroupsLeft (codes "&&") (codes "&&") ×
        GroupsLeft (codes "|") (codes "|") ×
        GroupsLeft (codes "^") (codes "^") ×
        GroupsLeft (codes "&") (codes "&") ×
        GroupsLeft (codes "==") (codes "!=") ×
        GroupsLeft (codes "!=") (codes "==") ×
        GroupsLeft (codes "<") (codes "<=") ×
        GroupsLeft (codes "<=") (codes ">") ×
        GroupsLeft (codes ">") (codes ">=") ×
        GroupsLeft (codes ">=") (codes "<") ×
        GroupsLeft (codes "<<") (codes ">>") ×
        GroupsLeft (codes ">>") (codes "<<") ×
        GroupsLeft (codes "+") (codes "-") ×
        GroupsLeft (codes "-") (codes "+") ×
        GroupsLeft (codes "*") (codes "/") ×
        GroupsLeft (codes "/") (codes "%") ×
        GroupsLeft (codes "%") (codes "*") }
    ensures prefix { PrefixBindsTighter (codes "-") (codes "*") ×
        PrefixBindsTighter (codes "!") (codes "/") ×
        PrefixBindsTighter (codes "~") (codes "%") }
{}

/// All faults of some sources.
pub fn faulty_sources()
    ensures twice { HasFaults (codes "int f() { return 0; } int f() { return 1; } int main() { return 0; }")
        (fault_at 26 Variant.twice ∷ []) }
    ensures plain_sync { HasFaults (codes "int main() { sync; return 0; }")
        (fault_at 13 Variant.kind ∷ []) }
    ensures no_main { HasFaults (codes "int f() { return 0; }") (fault_at 21 Variant.no_main ∷ []) }
    ensures unknown { HasFaults (codes "int main() { return y; }")
        (fault_at 20 Variant.unknown ∷ []) }
    ensures part_outside { HasFaults (codes "int main() { int a[2]; split a at 1 as l, r { } return len(l); }")
        (fault_at 59 Variant.unknown ∷ []) }
    ensures whole_inside { HasFaults (codes "int main() { int a[2]; split a at 1 as l, r { return len(a); } return 0; }")
        (fault_at 57 Variant.unknown ∷ []) }
    ensures outer_whole { HasFaults
        (codes "int main() { int a[2]; { int a[3]; split a at 1 as l, a { a[0] = len(l); } } return 0; }")
        [] }
    ensures deeper_whole { HasFaults
        (codes "int main() { int a[2]; { int a[3]; split a at 1 as l, r { return len(a); } } return 0; }")
        [] }
    ensures same_parts { HasFaults (codes "int main() { int a[2]; split a at 1 as l, l { int l; } return 0; }")
        (fault_at 42 Variant.twice ∷ []) }
    ensures own_value { HasFaults (codes "int main() { int x = x; return x; }")
        (fault_at 21 Variant.unknown ∷ []) }
    ensures for_scope { HasFaults (codes "int main() { for (int i = 0; i < 3; i++) { int i; } return i; }")
        (fault_at 59 Variant.unknown ∷ []) }
    ensures parameter_scope { HasFaults (codes "int f(int a, int b) { int b; { int a; } return a; } int main() { return 0; }")
        (fault_at 26 Variant.twice ∷ []) }
    ensures arguments { HasFaults (codes "int f(int a[]) { return a[0]; } int main() { int x; return f(x) + f(&x) + f(1, 2); }")
        (fault_at 59 Variant.kind ∷ fault_at 74 Variant.arity ∷ fault_at 74 Variant.kind ∷ []) }
    ensures misused { HasFaults (codes "void v() { return 1; } int main() { int x, a[2]; x = a; a = x; x[0] = len(x) + v(); return; }")
        (fault_at 11 Variant.kind ∷ fault_at 53 Variant.kind ∷ fault_at 56 Variant.kind ∷
        fault_at 63 Variant.kind ∷ fault_at 74 Variant.kind ∷ fault_at 79 Variant.kind ∷
        fault_at 84 Variant.kind ∷ []) }
    ensures unknown_argument { HasFaults (codes "int g(int a) { return a; } int main() { return g(u) + h(u) + g(&u); }")
        (fault_at 49 Variant.unknown ∷ fault_at 54 Variant.unknown ∷ fault_at 56 Variant.unknown ∷
        fault_at 61 Variant.kind ∷ fault_at 64 Variant.unknown ∷ []) }
    ensures destinations { HasFaults (codes "void g(int a[]) { return; } cilk int main() { int x, a[2]; split x at 0 as l, r { } g(&a); a = spawn g(a); x = spawn g(&x); spawn g(&x); sync; return 0; }")
        (fault_at 65 Variant.kind ∷ fault_at 87 Variant.kind ∷ fault_at 91 Variant.kind ∷ fault_at 101 Variant.kind ∷ fault_at 117 Variant.kind ∷ []) }
    ensures void_main { HasFaults (codes "int h(int v) { spawn h(v); return v; } void main() { int a[1]; h(&a); }")
        (fault_at 15 Variant.kind ∷ fault_at 44 Variant.kind ∷ fault_at 63 Variant.kind ∷ fault_at 66 Variant.kind ∷ []) }
    ensures wrong_main { HasFaults (codes "int main(int x) { return x; }")
        (fault_at 4 Variant.kind ∷ []) }
    ensures many_words { HasFaults (codes "int f(int a[], int b[], int c[], int d[], int e) { return e; } int main() { return 0; }")
        (fault_at 4 Variant.count ∷ []) }
    ensures eight_words { HasFaults (codes "int f(int a[], int b[], int c[], int d[]) { return 0; } int main() { return 0; }")
        [] }
    ensures great_frame { HasFaults (codes "int main() { int a[16384], b[16384]; return 0; }")
        (fault_at 4 Variant.frame ∷ []) }
{}

/// The name of the 257th function of a tree is faulty.
pub fn one_function_too_many()
    ensures { (tree : Tree) (before : List (Function Name)) (f : Function Name)
        (more : List (Function Name)) → tree.functions ≡ before ++ f ∷ more
        → length before ≡ max_functions → Faulty tree f.name.at Variant.count }
{}

/// What some mentions stand for: the slot of a variable by the number of its use in the text.
pub fn mentions_of_sources()
    ensures split_whole { ResolvesToSlot
        (codes "int main() { int a[2]; { int a[3]; split a at 1 as l, r { return len(a); } } return 0; }")
        0 1 }
    ensures split_outer { ResolvesToSlot
        (codes "int main() { int a[2]; { int a[3]; split a at 1 as l, r { return len(a); } } return 0; }")
        2 0 }
    ensures loop_name { ResolvesToSlot
        (codes "int main() { int i; for (int i = 0; i < 3; ) ; return i; }") 0 1 }
    ensures name_behind_loop { ResolvesToSlot
        (codes "int main() { int i; for (int i = 0; i < 3; ) ; return i; }") 2 0 }
{}

/// The numbers that the functions of some sources mention: a function may stand behind its caller, the parts of a split
/// have slots in their order, the names of a `for` come before those of its body, and `main` needn't stand first.
pub fn numbers_of_sources()
    ensures called_before { HasNumbers
        (codes "int main() { return f(1); } int f(int n) { return n; }")
        0 ((1 ∷ []) ∷ (0 ∷ []) ∷ []) }
    ensures split_numbers { HasNumbers
        (codes "int main() { int a[3], n; split a at 2 as l, r { n = len(l); return r[0] + n; } return a[0]; }")
        0 ((0 ∷ 1 ∷ 2 ∷ 3 ∷ 1 ∷ 0 ∷ []) ∷ []) }
    ensures loop_numbers { HasNumbers
        (codes "int f(int n) { int s; for (int i = 0; i < n; i++) { int j; j = i; s += j; } return s; } int main() { return f(3); }")
        1 ((2 ∷ 0 ∷ 2 ∷ 3 ∷ 2 ∷ 1 ∷ 3 ∷ 1 ∷ []) ∷ (0 ∷ []) ∷ []) }
{}

/// The words of the frames of some sources' functions.
pub fn frames_of_sources()
    ensures fibonacci { HasFrames (codes "cilk int fib(int n) { int x, y; if (n < 2) return n; x = spawn fib(n - 1); y = spawn fib(n - 2); sync; return x + y; } cilk int main() { int r; r = spawn fib(10); sync; return r; }")
        (8 ∷ 4 ∷ []) }
    ensures one_page { HasFrames (codes "int main() { int a[62]; return len(a); }") (64 ∷ []) }
    ensures two_pages { HasFrames (codes "int main() { int a[63]; return len(a); }") (68 ∷ []) }
    ensures passed { HasFrames (codes "int f(int a[], int n) { return n; } int main() { int a[1], x; a[0] = 1 + f(a, f(&x, 2)); return 0 && 1; }")
        (8 ∷ 12 ∷ []) }
{}

/// Some sources are sound and without faults, so the calls on sound programs can be made.
pub fn sound_sources()
    ensures fourteen { IsSoundSource (codes "int main() { return 14; }") }
    ensures sound_spawn { IsSoundSource
        (codes "cilk int g(int a[]) { return len(a); } cilk int main() { int x, b[3]; x = spawn g(b); sync; return x; }") }
{}

/// How many temporaries two expressions use: a right operand has one more in use than a left one.
pub fn temporaries_of_expressions()
    ensures right { frame.temporaries (Joined operators.Add (literal 2) (Joined operators.Mul (literal 3) (literal 4))) 0 ≡ 2 }
    ensures left { frame.temporaries (Joined operators.Add (Joined operators.Mul (literal 2) (literal 3)) (literal 4)) 0 ≡ 1 }
{}
