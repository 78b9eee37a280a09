//! Laws on a store's heap at its close, and on its census: the contracts of functions that do
//! nothing.
ghost use Rattle.std.specs.Prelude.{List, length, ℕ, ◌+◌, ◌∷◌, ◌≡◌, ◌≤◌};
ghost use mathlib.Core.Option.{some};
ghost use lib.ListN.{get_elem?};
ghost use Rattle.closed_store.specs.Chain.{ShowsVersions};
ghost use Rattle.client_history.specs.Closing.{EndedStore};
ghost use Rattle.dlg_core.specs.Collects.{AreOut, IsTidy};
ghost use Rattle.heap_rule.specs.Shape.{Shape};
ghost use Rattle.heap_rule.specs.declared.view.View.{View};
ghost use Rattle.version_rule.specs.Pass.{Pass};
ghost use Rattle.closed_store.specs.Kept.{HasCensus};
ghost use Rattle.doc_tree.specs.Tree.{DocTree};
ghost use Rattle.heap_census.specs.Census.{IsFloating, IsSound};
ghost use Rattle.heap_census.specs.Counts.{IsCountOf};
ghost use Rattle.heap_census.specs.Heap.{heap_of};
ghost use Rattle.heap_census.specs.Roles.{HasRole};
ghost use Rattle.heap_census.specs.declared.layouts.Role.TheVariants as role;
ghost use Rattle.heap_table.specs.Images.{ImageView, Shows};

/// Where no mutator is in, and some pass has cut the link of the oldest version that stays, the
/// words show as many versions as stay, or all that there are, and no other box that the anchor
/// leads to.
pub fn the_words_show_the_versions()
    ensures { (h : Shape) (words : List ℕ) (v : View Pass) (ended : EndedStore h words v)
        (i : ℕ) (p : Pass) → get_elem? ended.shows.passes i ≡ some p
        → length ended.shows.kept.trees ≤ p.cut + ended.shows.kept.keep
        → AreOut ended.shows.core
        → ShowsVersions ended.shows.core ended.shows.kept.keep ended.shows.kept.trees }
{}

/// Where the words show the versions of a store, each cell with a role is in use and has the layout
/// of it and no other role. The versions are the boxes of the chain; and where the anchor leads to
/// every used cell, none is floating.
pub fn a_closed_store_is_sound()
    ensures sound { (h : Shape) (words : List ℕ) (v : View Pass) (ended : EndedStore h words v)
        (keep : ℕ) (trees : List DocTree) → ShowsVersions ended.shows.core keep trees
        → IsSound (heap_of ended.shows.core) }
    ensures versions { (h : Shape) (words : List ℕ) (v : View Pass) (ended : EndedStore h words v)
        (keep : ℕ) (trees : List DocTree) (stay : ShowsVersions ended.shows.core keep trees)
        (count : ℕ) → IsCountOf (HasRole (heap_of ended.shows.core) role.Version)
        ended.shows.core.cells count → count ≡ length (stay.latest ∷ stay.older) }
    ensures floating { (h : Shape) (words : List ℕ) (v : View Pass) (ended : EndedStore h words v)
        (keep : ℕ) (trees : List DocTree) → ShowsVersions ended.shows.core keep trees
        → IsTidy ended.shows.core → (c : ℕ) → ¬ (IsFloating (heap_of ended.shows.core) c) }
{}

/// A census of these words is never refused, and it counts the versions of the chain; and where the
/// anchor leads to every used cell, it counts no cell as floating.
pub fn a_closed_store_has_a_census()
    ensures { (h : Shape) (image : ImageView) (v : View Pass)
        (ended : EndedStore h image.words v) (keep : ℕ) (trees : List DocTree)
        → Shows image ended.shows.core → (stay : ShowsVersions ended.shows.core keep trees)
        → HasCensus image (length (stay.latest ∷ stay.older)) (IsTidy ended.shows.core) }
{}
