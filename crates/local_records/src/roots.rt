//! The roots that outlive moves.
ghost use Rattle.std.specs.Prelude.{◌≡◌, ◌<◌, ◌≤◌, ◌++◌, ◌∷◌, ◌↔◌, [], IfNone, IfSome, IsErr, List};
ghost use Rattle.std.specs.Prelude.{OnErr, OnOk};
ghost use Rattle.std.specs.Prelude.{length, slice_set, take, ℕ};
ghost use Rattle.heap_rule.specs.declared.known.Known.{Known};
ghost use Rattle.local_references.specs.Roots.{RootStands, slot_at};
ghost use Rattle.local_records.specs.Local.{IsLocal, IsRootBelow};

use crate::local::LocalRecords;
use local_references::{Root, StackFull};

/// The number after the place that a root is, if that is more.
fn named_with(root: Root, named: usize) -> usize
    requires below { IsRootBelow 18446744073709551615 root }
    ensures more { named ≤ result }
    ensures below { IsRootBelow result root }
    ensures least { (n : ℕ) → named ≤ n → IsRootBelow n root → result ≤ n }
{
    match root {
        Root::Shared(place) => named.max(place + 1),
        Root::Null | Root::Num(_) | Root::Private(_) => named,
    }
}

impl LocalRecords {
    /// How many roots are kept.
    pub fn roots_len(&self) -> usize
        ensures count { result ≡ length self.now.roots }
    {
        self.stack.len()
    }

    /// One more root, on top, where the mutator holds so many places.
    pub fn push(&mut self, root: Root, held: usize) -> Result<(), StackFull>
        requires stands { RootStands self.old.records root }
        requires there { IsRootBelow held root }
        ensures pushed { OnOk result (self.new.roots ≡ self.old.roots ++ root ∷ []) }
        ensures only { self.new ≡ record self.old {
          roots = self.new.roots;
          named = self.new.named;
        } }
        ensures local { (known : List Known) → IsLocal self.old known → held ≤ length known
            → IsLocal self.new known }
        ensures full { IsErr result ↔ (length self.old.roots ≡ self.old.most) }
        ensures unchanged { OnErr result (self.new ≡ self.old) }
    {
        let _ = held;
        match self.stack.push(root) {
            Ok(()) => {
                self.named = named_with(root, self.named);
                Ok(())
            }
            Err(full) => Err(full),
        }
    }

    /// Lets the newest root go and gives it back, if there is one.
    pub fn pop(&mut self) -> Option<Root>
        ensures popped { IfSome result (λ root. self.old.roots ≡ self.new.roots ++ root ∷ []) }
        ensures only { self.new ≡ record self.old { roots = self.new.roots } }
        ensures local { (known : List Known) → IsLocal self.old known → IsLocal self.new known }
        ensures stands { IfSome result (RootStands self.new.records) }
        ensures none { IfNone result (self.old.roots ≡ []) }
        ensures unchanged { IfNone result (self.new ≡ self.old) }
    {
        self.stack.pop()
    }

    /// Lets all roots go but the first so many.
    pub fn keep_roots(&mut self, kept: usize)
        ensures first { self.new ≡ record self.old { roots = take kept self.old.roots } }
        ensures local { (known : List Known) → IsLocal self.old known → IsLocal self.new known }
    {
        self.stack.truncate(kept);
    }

    /// A root, counted from the oldest.
    pub fn root(&self, i: usize) -> Root
        requires there { i < length self.now.roots }
        ensures root { result ≡ slot_at self.now.roots i }
        ensures stands { RootStands self.now.records result }
        ensures below { (known : List Known) → IsLocal self.now known
            → IsRootBelow self.now.named result }
    {
        self.stack.root(i)
    }

    /// Another root in place of one, where the mutator holds so many places.
    pub fn set(&mut self, i: usize, root: Root, held: usize)
        requires kept { i < length self.old.roots }
        requires stands { RootStands self.old.records root }
        requires there { IsRootBelow held root }
        ensures set { self.new.roots ≡ slice_set self.old.roots i root }
        ensures only { self.new ≡ record self.old {
          roots = self.new.roots;
          named = self.new.named;
        } }
        ensures local { (known : List Known) → IsLocal self.old known → held ≤ length known
            → IsLocal self.new known }
    {
        let _ = held;
        self.stack.set(i, root);
        self.named = named_with(root, self.named);
    }
}
