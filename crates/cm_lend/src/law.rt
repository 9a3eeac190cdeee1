//! Laws of the definitions, and single texts worked out by hand with which they have to agree. The functions do
//! nothing: their contracts are the laws.
ghost use Rattle.std.specs.Prelude.{◌↔◌, ℕ, codes};
ghost use Rattle.cm_syntax.specs.Walk.{Order};
ghost use Rattle.cm_syntax.specs.Evaluation.{function_order};
ghost use Rattle.cm_syntax.specs.Lending.{HasPath};
ghost use Rattle.cm_syntax.specs.declared.stmt.Function.{Function};
ghost use Rattle.cm_lend.specs.AddedSync.{AddsSync};
ghost use Rattle.cm_lend.specs.Part.{HoldsPath};
ghost use Rattle.cm_lend.specs.Spawn.{HasSpawn};
ghost use Rattle.cm_lend.specs.Row.{ObeysLending, IsRefusedLent, IsRefusedSame};

/// A path of some walk stands in a part of the text, or leads from a part into a later one.
pub fn paths_of_parts()
    ensures { (order : Order) (spawn variable at : ℕ) → HasPath order spawn variable at
        ↔ HoldsPath order spawn variable at }
{}

/// A function without a spawn has no path.
pub fn paths_want_a_spawn()
    ensures { (f : Function ℕ) (spawn variable at : ℕ) → HasPath (function_order f) spawn variable at
        → HasSpawn f }
{}

/// A `sync` that is added to a function, wherever it stands, never adds a path.
pub fn sync_adds_no_path()
    ensures { (f g : Function ℕ) (spawn variable at : ℕ) → AddsSync f.body g.body
        → HasPath (function_order g) spawn variable at → HasPath (function_order f) spawn variable at }
{}

/// Lent mentions of some sources, and the spawns that are named.
pub fn lent_sources()
    ensures destination { IsRefusedLent (codes "cilk int f() { return 1; } cilk int main() { int x; x = spawn f(); return x; }") 74 56 }
    ensures behind_round { IsRefusedLent (codes "cilk int f() { return 1; } cilk int main() { int x; int i; for (i = 0; i < 2; i++) { x = spawn f(); } sync; return x; }") 85 89 }
    ensures closing_brace { IsRefusedLent (codes "cilk void z(int a[]) { } cilk int main() { int a[4]; split a at 2 as l, r { spawn z(l); } return 0; }") 88 76 }
    ensures right_part { IsRefusedLent (codes "cilk void z(int a[]) { } cilk int main() { int a[4]; split a at 2 as l, r { spawn z(r); } return 0; }") 88 76 }
    ensures round { IsRefusedLent (codes "cilk void z(int a[]) { } cilk int main() { int a[1]; while (1) spawn z(a); }") 71 63 }
    ensures last_condition { IsRefusedLent (codes "cilk void z(int a[]) { } cilk int main() { int a[1]; while (a[0]) { sync; spawn z(a); } return 0; }") 60 74 }
    ensures behind_loop { IsRefusedLent (codes "cilk void z(int a[]) { } cilk int main() { int a[1]; while (1) { sync; spawn z(a); } return a[0]; }") 92 71 }
    ensures one_branch { IsRefusedLent (codes "cilk void z(int a[]) { } cilk int main() { int a[1]; if (1) spawn z(a); return a[0]; }") 79 60 }
    ensures synced_branch { IsRefusedLent (codes "cilk void z(int a[]) { } cilk int main() { int a[1]; spawn z(a); if (1) sync; return a[0]; }") 85 53 }
    ensures returned_branch { IsRefusedLent (codes "cilk void z(int a[]) { } cilk int main() { int a[1]; spawn z(a); if (1) return 0; return a[0]; }") 89 53 }
    ensures two_spawns { IsRefusedLent (codes "cilk void z(int a[]) { } cilk int main() { int a[1]; if (1) spawn z(a); else spawn z(a); return a[0]; }") 96 77 }
    ensures index { IsRefusedLent (codes "cilk int f() { return 1; } cilk int main() { int x, a[1]; x = spawn f(); a[x] = 1; return 0; }") 75 62 }
    ensures address { IsRefusedLent (codes "cilk void z(int a[]) { } cilk int main() { int x; spawn z(&x); x = 1; return 0; }") 63 50 }
    ensures declared_round { IsRefusedLent (codes "cilk void z(int a[]) { } cilk int main() { while (1) { int b[1]; spawn z(b); } }") 59 65 }
    ensures right_operand { IsRefusedLent (codes "cilk void z(int a[]) { } cilk int main() { int a[1]; spawn z(a); return 0 && a[0]; }") 77 53 }
    ensures unreached { IsRefusedLent (codes "cilk void z(int a[]) { } cilk int main() { int a[1]; return 0; spawn z(a); a[0] = 1; }") 75 63 }
    ensures part_round { IsRefusedLent (codes "cilk void z(int a[]) { } cilk int main() { int a[2]; while (1) split a at 1 as l, r { spawn z(l); } return 0; }") 79 86 }
    ensures two_behind { IsRefusedLent (codes "cilk void z(int a[]) { } cilk int main() { int a[1]; while (1) { a[0] = 1; if (a[0]) spawn z(a); else { spawn z(a); } } return 0; }") 65 85 }
    ensures inner_split { IsRefusedLent (codes "cilk void z(int a[]) { } cilk int main() { int a[4]; split a at 2 as l, r { split l at 1 as m, n { spawn z(n); } } return 0; }") 111 99 }
{}

/// Sources that obey the lending rule.
pub fn accepted_sources()
    ensures synced_round { ObeysLending (codes "cilk int f() { return 1; } cilk int main() { int x; int i; for (i = 0; i < 2; i++) { x = spawn f(); sync; } sync; return x; }") }
    ensures other_branch { ObeysLending (codes "cilk void z(int a[]) { } cilk int main() { int a[1]; if (1) spawn z(a); else a[0] = 1; return 0; }") }
    ensures returned { ObeysLending (codes "cilk void z(int a[]) { } cilk int main() { int a[1]; if (1) { spawn z(a); return 0; } return a[0]; }") }
    ensures endless { ObeysLending (codes "cilk void z(int a[]) { } cilk int main() { int a[1]; for (;;) { sync; spawn z(a); } return a[0]; }") }
    ensures before { ObeysLending (codes "cilk int f(int v) { return v; } cilk int main() { int x; x = spawn f(x + 1); sync; return x; }") }
    ensures returned_in_split { ObeysLending (codes "cilk void z(int a[]) { } cilk int main() { int a[4]; split a at 2 as l, r { spawn z(l); return 0; } }") }
    ensures other_part { ObeysLending (codes "cilk void z(int a[]) { } cilk int main() { int a[4]; split a at 2 as l, r { spawn z(l); r[0] = 1; sync; } return 0; }") }
    ensures nested_argument { ObeysLending (codes "int h(int a[]) { return a[0]; } cilk void n(int v) { } cilk int main() { int a[1]; spawn n(h(a)); a[0] = 1; return 0; }") }
    ensures shadowed { ObeysLending (codes "cilk void z(int a[]) { } cilk int main() { int a[1]; spawn z(a); { int a; a = 1; } return 0; }") }
    ensures nested_call { ObeysLending (codes "int h(int a[]) { return a[0]; } int g(int a[], int v) { return v; } int main() { int a[1]; return g(a, h(a)); }") }
{}

/// Where some sources pass or lend a variable a second time.
pub fn same_sources()
    ensures neighbours { IsRefusedSame (codes "int g(int a[], int b[]) { return 0; } int main() { int a[2]; return g(a, a); }") 73 }
    ensures apart { IsRefusedSame (codes "int g(int a[], int b[], int c[]) { return 0; } int main() { int a[2], b[2]; return g(a, b, a); }") 91 }
    ensures destination_again { IsRefusedSame (codes "cilk int h(int a[]) { return 0; } cilk int main() { int x; x = spawn h(&x); sync; return x; }") 72 }
{}
