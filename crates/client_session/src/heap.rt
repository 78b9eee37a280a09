//! What a session needs of its client's heap.
ghost use Rattle.std.specs.Prelude.{◌≡◌, ◌+◌, ◌≤◌, ◌<◌, ℕ, Bool, true, IfOk};
ghost use Rattle.std.specs.Prelude.{IfSome, OnErr, OnOk, [], ◌∷◌, Err, IsNone, None, Ok, length};
ghost use Rattle.std.specs.Prelude.{◌&&◌, Option, nat_le};
ghost use Rattle.std.specs.Option.{option_map};
ghost use Rattle.cell_words.specs.declared.fields.Field.TheVariants as field;
ghost use Rattle.client_session.specs.Handles.{Edits, GivesBack, Handles, Still, is_one};
ghost use Rattle.version_rule.specs.Shows.{version_asks};
ghost use Rattle.client_history.specs.State.{ClientState, IsReady, IsSettled, Lasts, Rests};
ghost use Rattle.client_history.specs.State.{StaysSmall};
ghost use Rattle.doc_records.specs.Texts.{name_asks, text_asks};
ghost use Rattle.doc_records.specs.Trees.{tree_of};
ghost use Rattle.doc_tree.specs.Edits.{answered, attach, delete, set_text};
ghost use Rattle.doc_tree.specs.Tree.{count, names_of, node};
ghost use Rattle.trails.specs.Asks.{Shows, gave};
ghost use Rattle.trails.specs.Claims.{IsFull};
ghost use Rattle.trails.specs.Stretches.{Had};
ghost use Rattle.version_rule.specs.Pass.{commit_numbers, committed, reading, seeing};

use crate::refusal::CommitRefusal;
use client_history::{
    BATCH_ROOM, CALL_PLACES, EDIT_SPARE, MADE_ROOM, SETTLED_ROOM, TREE_ROOM, WALK_PLACES,
};
use doc_tree::{EditFault, Names, NoMemory, Path, Text};
use run_limits::MOST_COMMANDS;
use std::alloc::Global;
use std::sync::Wait;
use version_rule::HeldVersion;

/// The cells, private records and draft of one client. What a call hands out stands across the
/// calls that have a clause `still`, and the draft across all that do not set it.
///
/// A call that reads asks for 8,192 places, since it may hold cells on its way, and one that goes
/// down a path for eight more, which it may keep. An edit asks for as many more as that once all
/// places but the draft's are given back, there is room again for every reading; so does a new
/// draft.
pub trait ClientHeap {
    type At: Copy;

    /// What is told where no cell could be claimed.
    type Full: Copy;

    ghost state: { Self → ClientState };

    ghost shown: { Self → Handles Self.At };

    /// Of a heap that borrows what it works on, what no call changes of that: whoever lends it
    /// something knows after each call that it is this that the heap has, and what of it stayed.
    ghost Lent: { Type 0 };

    ghost lent: { Self → Lent };

    /// The node is one of the shared heap.
    ghost shared: { Self.At → Bool };

    /// The cell of the shared heap in which a node stands, if it is one of that heap.
    ghost cell: { Self → Self.At → Option ℕ };

    /// The latest version.
    fn current(&mut self) -> HeldVersion
        requires room { CALL_PLACES ≤ (state self.old).room }
        ensures shows { (cell : ℕ) × Shows (version_asks cell result.number)
            (state self.old).marks (state self.new).marks }
        ensures pass { (state self.new).pass ≡ seeing result.number (state self.old).pass }
        ensures seen { (state self.old).pass.seen ≤ result.number }
        ensures version { (shown self.new).is_version result }
        ensures rests { Rests 1 (state self.old) (state self.new) }
        ensures still { Still (shown self.old) (shown self.new) }
        ensures lent { lent self.new ≡ lent self.old };

    /// The root of a version's tree, which the pass has read from then on.
    fn tree(&mut self, v: HeldVersion) -> Self::At
        requires room { CALL_PLACES ≤ (state self.old).room }
        requires version { (shown self.old).is_version v }
        ensures pass { (state self.new).pass
            ≡ reading v.number ((shown self.old).root v) (state self.old).pass }
        ensures node { (shown self.new).is_node result }
        ensures tree { (shown self.new).tree result ≡ (shown self.old).root v }
        ensures shared { shared result ≡ true }
        ensures rests { Rests 1 (state self.old) (state self.new) }
        ensures still { Still (shown self.old) (shown self.new) }
        ensures lent { lent self.new ≡ lent self.old };

    /// The version so many before, or none where a newer one has cut it off.
    fn older(&mut self, v: HeldVersion, back: u64) -> Option<HeldVersion>
        requires room { CALL_PLACES ≤ (state self.old).room }
        requires version { (shown self.old).is_version v }
        requires back { back ≤ v.number }
        requires kept { back < (state self.old).pass.keep }
        ensures number { IfSome result (λ older. older.number + back ≡ v.number) }
        ensures version { IfSome result (λ older. (shown self.new).is_version older) }
        ensures pass { IfSome result (λ older. (state self.new).pass ≡ (state self.old).pass) }
        ensures newer { result ≡ None → v.number < (state self.new).pass.seen }
        ensures rests { Rests 1 (state self.old) (state self.new) }
        ensures still { Still (shown self.old) (shown self.new) }
        ensures lent { lent self.new ≡ lent self.old };

    /// The node at a path below a node.
    fn node(&mut self, root: Self::At, path: &Path) -> Option<Self::At>
        requires room { WALK_PLACES ≤ (state self.old).room }
        requires node { (shown self.old).is_node root }
        ensures tree { option_map (shown self.new).tree result
            ≡ node path.now ((shown self.old).tree root) }
        ensures node { IfSome result (λ at. (shown self.new).is_node at) }
        ensures shared { shared root ≡ true → IfSome result (λ at. shared at ≡ true) }
        ensures pass { (state self.new).pass ≡ (state self.old).pass }
        ensures rests { Rests 8 (state self.old) (state self.new) }
        ensures still { Still (shown self.old) (shown self.new) }
        ensures lent { lent self.new ≡ lent self.old };

    /// The text of a node.
    fn text(&mut self, alloc: Global, at: Self::At) -> Result<Text, NoMemory>
        requires room { CALL_PLACES ≤ (state self.old).room }
        requires node { (shown self.old).is_node at }
        ensures text { IfOk result (λ text. text ≡ ((shown self.old).tree at).text) }
        ensures shows { OnOk result (shared at ≡ true
            → Shows (text_asks ((shown self.old).tree at).text)
            (state self.old).marks (state self.new).marks) }
        ensures pass { (state self.new).pass ≡ (state self.old).pass }
        ensures rests { Rests 0 (state self.old) (state self.new) }
        ensures still { Still (shown self.old) (shown self.new) }
        ensures lent { lent self.new ≡ lent self.old };

    /// The names of its children.
    fn names(&mut self, alloc: Global, at: Self::At) -> Result<Names, NoMemory>
        requires room { CALL_PLACES ≤ (state self.old).room }
        requires node { (shown self.old).is_node at }
        ensures names { IfOk result (λ names. names ≡ names_of ((shown self.old).tree at).kids) }
        ensures shows { OnOk result (shared at ≡ true
            → Shows (name_asks (names_of ((shown self.old).tree at).kids))
            (state self.old).marks (state self.new).marks) }
        ensures pass { (state self.new).pass ≡ (state self.old).pass }
        ensures rests { Rests 0 (state self.old) (state self.new) }
        ensures still { Still (shown self.old) (shown self.new) }
        ensures lent { lent self.new ≡ lent self.old };

    /// How many nodes its tree has.
    fn count(&mut self, at: Self::At) -> u64
        requires room { CALL_PLACES ≤ (state self.old).room }
        requires node { (shown self.old).is_node at }
        ensures count { result ≡ count ((shown self.old).tree at) }
        ensures shows { shared at ≡ true → Shows (gave (field.Num result) ∷ [])
            (state self.old).marks (state self.new).marks }
        ensures pass { (state self.new).pass ≡ (state self.old).pass }
        ensures rests { Rests 0 (state self.old) (state self.new) }
        ensures still { Still (shown self.old) (shown self.new) }
        ensures lent { lent self.new ≡ lent self.old };

    /// The client's draft.
    fn draft(&self) -> Self::At
        ensures node { (shown self.now).is_node result }
        ensures tree { (shown self.now).tree result ≡ tree_of (state self.now).draft };

    /// The tree with a text at a path, as doc_tree's edit of that name; so the two below.
    fn set_text(&mut self, root: Self::At, path: &Path, text: &Text) -> Result<Self::At, EditFault>
        requires room { TREE_ROOM ≤ (state self.old).room }
        requires spare { EDIT_SPARE ≤ (state self.old).spare }
        requires node { (shown self.old).is_node root }
        ensures tree { answered (shown self.new).tree result
            ≡ set_text path.now text.now ((shown self.old).tree root) }
        ensures node { IfOk result (λ at. (shown self.new).is_node at) }
        ensures edits { Edits 0 (state self.old) (state self.new) }
        ensures still { Still (shown self.old) (shown self.new) }
        ensures lent { lent self.new ≡ lent self.old };

    /// The tree without the node at a path.
    fn delete(&mut self, root: Self::At, path: &Path) -> Result<Self::At, EditFault>
        requires room { TREE_ROOM ≤ (state self.old).room }
        requires spare { EDIT_SPARE ≤ (state self.old).spare }
        requires node { (shown self.old).is_node root }
        ensures tree { answered (shown self.new).tree result
            ≡ delete path.now ((shown self.old).tree root) }
        ensures node { IfOk result (λ at. (shown self.new).is_node at) }
        ensures edits { Edits 0 (state self.old) (state self.new) }
        ensures still { Still (shown self.old) (shown self.new) }
        ensures lent { lent self.new ≡ lent self.old };

    /// The tree with another node's tree at a path.
    fn attach(&mut self, root: Self::At, path: &Path, sub: Self::At) -> Result<Self::At, EditFault>
        requires room { TREE_ROOM ≤ (state self.old).room }
        requires spare { EDIT_SPARE ≤ (state self.old).spare }
        requires node { (shown self.old).is_node root }
        requires sub { (shown self.old).is_node sub }
        ensures tree { answered (shown self.new).tree result
            ≡ attach path.now ((shown self.old).tree sub) ((shown self.old).tree root) }
        ensures node { IfOk result (λ at. (shown self.new).is_node at) }
        ensures edits { Edits 0 (state self.old) (state self.new) }
        ensures still { Still (shown self.old) (shown self.new) }
        ensures lent { lent self.new ≡ lent self.old };

    /// The node's tree is the draft from then on, and what it needs stays held.
    fn set_draft(&mut self, at: Self::At)
        requires room { SETTLED_ROOM ≤ (state self.old).room }
        requires node { (shown self.old).is_node at }
        ensures draft { tree_of (state self.new).draft ≡ (shown self.old).tree at }
        ensures pass { (state self.new).pass ≡ (state self.old).pass }
        ensures room { (state self.old).room ≤ (state self.new).room }
        ensures lasts { Lasts (state self.old) (state self.new) }
        ensures lent { lent self.new ≡ lent self.old };

    /// Whether two nodes stand in one cell of the shared heap, and so have one tree.
    fn is_same(&mut self, first: Self::At, second: Self::At) -> bool
        requires first { (shown self.old).is_node first }
        requires second { (shown self.old).is_node second }
        ensures same { result ≡ is_one (cell self.old first) (cell self.old second) }
        ensures tree { result ≡ true
            → (shown self.old).tree first ≡ (shown self.old).tree second }
        ensures pass { (state self.new).pass ≡ (state self.old).pass }
        ensures rests { Rests 0 (state self.old) (state self.new) }
        ensures still { Still (shown self.old) (shown self.new) }
        ensures lent { lent self.new ≡ lent self.old };

    /// A node as one of the shared heap: a private one is promoted.
    fn share<R: Wait>(&mut self, rt: &R, at: Self::At) -> Result<Self::At, Self::Full>
        requires room { CALL_PLACES ≤ (state self.old).room }
        requires node { (shown self.old).is_node at }
        ensures node { IfOk result (λ made. (shown self.new).is_node made) }
        ensures tree { IfOk result (λ made. (shown self.new).tree made
            ≡ (shown self.old).tree at) }
        ensures shared { IfOk result (λ made. shared made ≡ true) }
        ensures full { OnErr result (Had (IsFull (state self.old).cells)
            (state self.old).marks (state self.new).marks) }
        ensures pass { (state self.new).pass ≡ (state self.old).pass }
        ensures draft { (state self.new).draft ≡ (state self.old).draft }
        ensures base { (state self.new).base ≡ (state self.old).base }
        ensures room { (state self.old).room ≤ (state self.new).room + 1 }
        ensures lasts { Lasts (state self.old) (state self.new) }
        ensures still { Still (shown self.old) (shown self.new) }
        ensures lent { lent self.new ≡ lent self.old };

    /// Makes the next version, with the tree of a shared node, over a version that is held. It is
    /// not tried again where another client was faster.
    fn commit<R: Wait>(
        &mut self,
        rt: &R,
        v: HeldVersion,
        at: Self::At,
        versions: u64,
    ) -> Result<u64, CommitRefusal>
        requires room { CALL_PLACES ≤ (state self.old).room }
        requires version { (shown self.old).is_version v }
        requires node { (shown self.old).is_node at }
        requires shared { shared at ≡ true }
        requires below { v.number < versions }
        requires few { length (commit_numbers (state self.old).pass) < MOST_COMMANDS }
        ensures number { IfOk result (λ number. number ≡ v.number + 1) }
        ensures pass { OnOk result ((state self.new).pass ≡ committed (v.number + 1)
            ((shown self.old).root v) ((shown self.old).tree at) (state self.old).pass) }
        ensures rose { OnOk result ((state self.old).claims < (state self.new).claims) }
        ensures same { OnErr result (commit_numbers (state self.new).pass
            ≡ commit_numbers (state self.old).pass) }
        ensures moved { result ≡ Err CommitRefusal.Moved
            → v.number < (state self.new).pass.seen }
        ensures full { result ≡ Err CommitRefusal.Full → Had (IsFull (state self.old).cells)
            (state self.old).marks (state self.new).marks }
        ensures draft { (state self.new).draft ≡ (state self.old).draft }
        ensures base { (state self.new).base ≡ (state self.old).base }
        ensures room { (state self.old).room ≤ (state self.new).room }
        ensures lasts { Lasts (state self.old) (state self.new) }
        ensures still { Still (shown self.old) (shown self.new) }
        ensures lent { lent self.new ≡ lent self.old };

    /// Cuts off what is older than is kept.
    fn trim(&mut self, v: HeldVersion, keep: u64)
        requires room { CALL_PLACES ≤ (state self.old).room }
        requires version { (shown self.old).is_version v }
        requires keep { keep ≡ (state self.old).pass.keep }
        ensures due { v.number + 1 ≤ (state self.new).pass.cut + keep }
        ensures rests { Rests 0 (state self.old) (state self.new) }
        ensures lent { lent self.new ≡ lent self.old };

    /// Whether there is room for an edit without a minor collection.
    fn has_room(&self) -> bool
        ensures room { result ≡ (nat_le MADE_ROOM (state self.now).room
            && nat_le EDIT_SPARE (state self.now).spare) };

    /// Makes room for an edit, by a minor collection where there is too little.
    fn make_room<R: Wait>(&mut self, rt: &R) -> Result<(), Self::Full>
        requires ready { IsReady (state self.old) }
        ensures room { OnOk result (MADE_ROOM ≤ (state self.new).room) }
        ensures spare { OnOk result (EDIT_SPARE ≤ (state self.new).spare) }
        ensures idle { MADE_ROOM ≤ (state self.old).room → EDIT_SPARE ≤ (state self.old).spare
            → state self.new ≡ state self.old }
        ensures full { OnErr result (Had (IsFull (state self.old).cells)
            (state self.old).marks (state self.new).marks) }
        ensures kept { (state self.old).room ≤ (state self.new).room }
        ensures pass { (state self.new).pass ≡ (state self.old).pass }
        ensures draft { (state self.new).draft ≡ (state self.old).draft }
        ensures small { StaysSmall (state self.old) (state self.new) }
        ensures lasts { Lasts (state self.old) (state self.new) }
        ensures lent { lent self.new ≡ lent self.old };

    /// Makes room for one more edit of a tree that is in the making, by a minor collection where
    /// there is too little: of the draft and of that tree. The tree is then at the node that is the
    /// answer, and what else was held is given back, versions too. Without a collection nothing
    /// happens.
    fn make_room_for<R: Wait>(
        &mut self,
        rt: &R,
        at: Self::At,
    ) -> Result<Option<Self::At>, Self::Full>
        requires ready { IsReady (state self.old) }
        requires node { (shown self.old).is_node at }
        ensures room { OnOk result (BATCH_ROOM ≤ (state self.new).room) }
        ensures spare { OnOk result (EDIT_SPARE ≤ (state self.new).spare) }
        ensures unmoved { BATCH_ROOM ≤ (state self.old).room → EDIT_SPARE ≤ (state self.old).spare
            → result ≡ Ok None }
        ensures idle { IfOk result (λ moved. IsNone moved → state self.new ≡ state self.old) }
        ensures still { IfOk result (λ moved. IsNone moved
            → Still (shown self.old) (shown self.new)) }
        ensures node { IfOk result (λ moved. IfSome moved (λ next. (shown self.new).is_node next)) }
        ensures tree { IfOk result (λ moved. IfSome moved (λ next.
            (shown self.new).tree next ≡ (shown self.old).tree at)) }
        ensures full { OnErr result (Had (IsFull (state self.old).cells)
            (state self.old).marks (state self.new).marks) }
        ensures kept { (state self.old).room ≤ (state self.new).room }
        ensures pass { (state self.new).pass ≡ (state self.old).pass }
        ensures draft { (state self.new).draft ≡ (state self.old).draft }
        ensures small { StaysSmall (state self.old) (state self.new) }
        ensures lasts { Lasts (state self.old) (state self.new) }
        ensures lent { lent self.new ≡ lent self.old };

    /// Gives back all places but those that the draft needs, and may drop private records that it
    /// does not need.
    fn settle(&mut self)
        ensures settled { IsSettled (state self.new) }
        ensures room { SETTLED_ROOM ≤ (state self.new).room }
        ensures pass { (state self.new).pass ≡ (state self.old).pass }
        ensures gives_back { GivesBack (state self.old) (state self.new) }
        ensures lent { lent self.new ≡ lent self.old };

    /// Answers a handshake, if one is asked for. Who waits calls it between two pieces of its wait.
    fn safe_point(&mut self)
        ensures pass { (state self.new).pass ≡ (state self.old).pass }
        ensures rests { Rests 0 (state self.old) (state self.new) }
        ensures still { Still (shown self.old) (shown self.new) }
        ensures lent { lent self.new ≡ lent self.old };
}
