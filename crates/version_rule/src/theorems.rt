//! Laws of the rule of versions, for any spelling of trees: the contracts of functions that do
//! nothing.
ghost use Rattle.std.specs.Prelude.{Some, false, ◌∷◌, ◌⊎◌};
ghost use Rattle.std.specs.Prelude.{List, length, map as mapped, min, ℕ, ◌≡◌, ◌≤◌, ◌+◌, ◌-◌};
ghost use Rattle.std.specs.List.{AllZip};
ghost use mathlib.Core.Option.{some};
ghost use lib.ListN.{get_elem?};
ghost use Rattle.cell_words.specs.Term.{Term};
ghost use Rattle.cell_words.specs.declared.fields.Field.{Field};
ghost use Rattle.cell_words.specs.declared.fields.Field.TheVariants as field;
ghost use Rattle.core_machine.specs.InRange.{IsShaped};
ghost use Rattle.core_machine.specs.State.{State, presence_of};
ghost use Rattle.core_machine.specs.declared.events.Event.TheVariants as event;
ghost use Rattle.doc_model.specs.Agreement.{Agree, rising};
ghost use Rattle.doc_model.specs.Answers.{Limits};
ghost use Rattle.doc_model.specs.ClientLog.{ClientLog};
ghost use Rattle.doc_tree.specs.Tree.{DocTree};
ghost use Rattle.heap_rule.specs.Asks.{begun_of, target};
ghost use Rattle.heap_rule.specs.Boxes.{Map, Payload, boxes_of};
ghost use Rattle.heap_rule.specs.Facts.{Facts};
ghost use Rattle.heap_rule.specs.Lore.{Lore};
ghost use Rattle.heap_rule.specs.Opening.{FirstTerms, opening_lore, opening_passes, opening_rooms};
ghost use Rattle.heap_rule.specs.Shape.{Shape, start};
ghost use Rattle.heap_rule.specs.Steps.{AtStep, Picks, same_pass};
ghost use Rattle.heap_rule.specs.declared.view.View.{View};
ghost use Rattle.version_rule.specs.Chains.{Among, Stays};
ghost use Rattle.version_rule.specs.Fits.{Grows};
ghost use Rattle.version_rule.specs.Knowing.{HasReadLink, KnowsVersion, MayCommit, MayCut};
ghost use Rattle.version_rule.specs.Knowing.{latest_seen, link_cut, link_seen, link_taken};
ghost use Rattle.version_rule.specs.Knowing.{next_made, tree_read};
ghost use Rattle.version_rule.specs.Opening.{OpensVersions, first_rows, first_terms};
ghost use Rattle.version_rule.specs.Pass.{Pass, committed, cutting, opening_pass, reading};
ghost use Rattle.version_rule.specs.Pass.{seeing};
ghost use Rattle.version_rule.specs.Shows.{ReadsLatest, ShowsCommit, ShowsLatest, ShowsLink};
ghost use Rattle.version_rule.specs.Shows.{ShowsNumber};
ghost use Rattle.version_rule.specs.Shows.{ShowsRoot};
ghost use Rattle.version_rule.specs.Tied.{Tied};
ghost use Rattle.version_rule.specs.Versions.{HoldsVersions, is_fixed};

use crate::spelling::Spelling;

/// A heap whose first rows are the anchor, version 0 and the root of the empty tree, with at most
/// `MOST_CLIENTS` mutators and a setting from 1 to 100, opens with the rule.
pub fn versions_open<S: Spelling>()
    ensures terms { FirstTerms first_rows first_terms }
    ensures holds { (h : Shape) → OpensVersions h → HoldsVersions S.is_tree S.tree_of
        (boxes_of (start h (opening_rooms h.mutators)) (opening_lore first_terms h.mutators))
        (opening_passes opening_pass h) }
{}

/// The rule stands after each read of the anchor or of a version that the mutator knows, with the
/// pass that is picked there.
pub fn reads_keep_versions<S: Spelling>()
    ensures latest { (v : View Pass) (place : ℕ) → target v place ≡ 0
        → Picks (HoldsVersions S.is_tree S.tree_of) is_fixed latest_seen v
        (event.Read v.number place 0) }
    ensures tree { (v : View Pass) (place number : ℕ) (root : Term)
        → KnowsVersion v place number root
        → Picks (HoldsVersions S.is_tree S.tree_of) is_fixed (tree_read S.tree_of) v
        (event.Read v.number place 1) }
    ensures link_seen { (v : View Pass) (place number : ℕ) (root : Term)
        → KnowsVersion v place number root → 1 ≤ number
        → Picks (HoldsVersions S.is_tree S.tree_of) is_fixed link_seen v
        (event.Read v.number place 2) }
    ensures link_cut { (v : View Pass) (place number : ℕ) (root : Term)
        → KnowsVersion v place number root
        → Picks (HoldsVersions S.is_tree S.tree_of) is_fixed link_cut v
        (event.Read v.number place 2) }
{}

/// What such a read tells. The latest version is not below any that the mutator knew of; a root is
/// a record that spells the version's tree; a link is the version one below, or null.
pub fn reads_tell_versions<S: Spelling>()
    ensures latest { (v w : View Pass) (place word : ℕ) → target v place ≡ 0
        → AtStep (HoldsVersions S.is_tree S.tree_of) is_fixed v (event.Read v.number place 0)
        latest_seen word w
        → ShowsLatest S.is_tree v w place word }
    ensures number { (v w : View Pass) (place word number : ℕ) (root : Term)
        → KnowsVersion v place number root
        → AtStep (HoldsVersions S.is_tree S.tree_of) is_fixed v (event.Read v.number place 0)
        same_pass word w
        → ShowsNumber v w place word number }
    ensures root { (v w : View Pass) (place word number : ℕ) (root : Term)
        → KnowsVersion v place number root
        → AtStep (HoldsVersions S.is_tree S.tree_of) is_fixed v (event.Read v.number place 1)
        (tree_read S.tree_of) word w
        → ShowsRoot S.is_tree S.tree_of v w place word number root }
    ensures link_seen { (v w : View Pass) (place word number : ℕ) (root : Term)
        → KnowsVersion v place number root
        → AtStep (HoldsVersions S.is_tree S.tree_of) is_fixed v (event.Read v.number place 2)
        link_seen word w
        → ShowsLink S.is_tree v w place word number (seeing (number + v.pass.keep - 1) v.pass) }
    ensures link_cut { (v w : View Pass) (place word number : ℕ) (root : Term)
        → KnowsVersion v place number root
        → AtStep (HoldsVersions S.is_tree S.tree_of) is_fixed v (event.Read v.number place 2)
        link_cut word w
        → ShowsLink S.is_tree v w place word number (cutting number v.pass) }
{}

/// A read of the anchor and then one of the number of the version that it found show both in the
/// trail, each with its cell, and the pass has seen that version.
pub fn the_latest_is_read<S: Spelling>()
    ensures { (v w x : View Pass) (place word other : ℕ) → target v place ≡ 0
        → (first : ShowsLatest S.is_tree v w place word)
        → ShowsNumber w x (length v.own.held) other first.number
        → ReadsLatest v x first.cell first.number }
{}

/// A commit is one write of the anchor's field, from the box of a version to a fresh box over it.
/// The rule stands whether the write was made or not; made, the pass has the commit, and else it
/// knows that a version with this number is there.
pub fn a_commit_keeps_versions<S: Spelling>()
    ensures keeps { (v : View Pass) (place latest box root number : ℕ) (before made : Term)
        → MayCommit S.is_tree v place latest box root number before made
        → Picks (HoldsVersions S.is_tree S.tree_of) is_fixed
        (next_made (field.Cell (target v latest)) number (S.tree_of before) (S.tree_of made)) v
        (event.Write v.number place 0 (field.Cell (target v latest))
        (field.Cell (target v box))) }
    ensures shows { (v w : View Pass) (place latest box root number word : ℕ)
        (before made : Term) → MayCommit S.is_tree v place latest box root number before made
        → AtStep (HoldsVersions S.is_tree S.tree_of) is_fixed v
        (event.Write v.number place 0 (field.Cell (target v latest)) (field.Cell (target v box)))
        (next_made (field.Cell (target v latest)) number (S.tree_of before) (S.tree_of made)) word
        w
        → ShowsCommit v w word (target v latest) number (S.tree_of before) (S.tree_of made) }
{}

/// A trim is one store of null over a version's link, once as many versions as stay are made from
/// it on. The rule stands whatever the link was, and the pass knows that it is cut.
pub fn a_trim_keeps_versions<S: Spelling>()
    ensures keeps { (v : View Pass) (newer number newest : ℕ) (root top : Term)
        → MayCut v (begun_of v).place newer number newest root top → (begun_of v).f ≡ 2
        → Picks (HoldsVersions S.is_tree S.tree_of) is_fixed (link_taken number) v
        (event.Store v.number field.Null) }
    ensures shows { (v w : View Pass) (number word : ℕ)
        → AtStep (HoldsVersions S.is_tree S.tree_of) is_fixed v (event.Store v.number field.Null)
        (link_taken number) word w
        → w.pass ≡ cutting number v.pass }
{}

/// Where no store may be begun, a trim is one exchange of the link for null, from what it was read
/// to be. The rule stands whether the exchange was made or not: if not, another has cut the link.
pub fn an_exchanged_link_keeps_versions<S: Spelling>()
    ensures keeps { (v : View Pass) (place newer number newest : ℕ) (root top : Term)
        (found : Field) → MayCut v place newer number newest root top → HasReadLink v number found
        → Picks (HoldsVersions S.is_tree S.tree_of) is_fixed (link_taken number) v
        (event.Write v.number place 2 found field.Null) }
    ensures shows { (v w : View Pass) (place number word : ℕ) (found : Field)
        → AtStep (HoldsVersions S.is_tree S.tree_of) is_fixed v
        (event.Write v.number place 2 found field.Null)
        (link_taken number) word w
        → w.pass ≡ cutting number v.pass }
{}

/// Whatever a mutator picks at a step on versions, its pass grows: a list of versions that fits it
/// then fitted it before, how many versions stay is the same, and what was seen and cut never
/// falls.
pub fn passes_grow()
    ensures seeing { (number : ℕ) (pass : Pass) → Grows pass (seeing number pass) }
    ensures reading { (number : ℕ) (tree : DocTree) (pass : Pass)
        → Grows pass (reading number tree pass) }
    ensures cutting { (number : ℕ) (pass : Pass) → Grows pass (cutting number pass) }
    ensures committed { (number : ℕ) (before made : DocTree) (pass : Pass) → pass.seen ≤ number
        → Grows pass (committed number before made pass) }
    ensures on { (first second third : Pass) → Grows first second → Grows second third
        → Grows first third }
{}

/// Where some pass has cut the link of the oldest version that stays, as many versions as the
/// setting says, or all that there are, stand in one chain from the latest on, and the chain ends.
/// Where nobody is in, these and the anchor are all boxes that there are.
pub fn as_many_versions_stay<S: Spelling>()
    ensures stay { (map : Map) (passes : List Pass)
        (h : HoldsVersions S.is_tree S.tree_of map passes) (i : ℕ) (pass : Pass)
        → get_elem? passes i ≡ some pass → length h.trees ≤ pass.cut + h.keep
        → Stays map h.latest.cell (length h.trees - 1) (min (length h.trees) h.keep) }
    ensures only { (s : State) (l : Lore) (passes : List Pass)
        (h : HoldsVersions S.is_tree S.tree_of (boxes_of s l) passes) (number count : ℕ)
        (stays : Stays (boxes_of s l) h.latest.cell number count) → IsShaped s
        → Facts is_fixed s l → ((i : ℕ) → (presence_of s i).inside ≡ false)
        → (x : ℕ) (box : Payload) → boxes_of s l x ≡ Some box
        → (x ≡ 0) ⊎ Among x (h.latest.cell ∷ stays.cells) }
{}

/// Logs that are tied to the passes, each to one, agree on the versions of the rule. So merged they
/// are a history of one store, whose versions are these.
pub fn tied_logs_agree<S: Spelling>()
    ensures { (l : Limits) (map : Map) (passes : List Pass) (logs : List ClientLog)
        (h : HoldsVersions S.is_tree S.tree_of map passes)
        → AllZip (Tied l) passes logs
        → mapped (λ (g : ClientLog). g.client) logs ≡ rising 0 (length logs)
        → Agree l h.trees logs }
{}
