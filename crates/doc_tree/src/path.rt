//! Paths from the root of a tree to a node, and lists of names.
ghost use Rattle.std.specs.Prelude.{◌≡◌, [], ◌∷◌, ◌++◌, IfOk, IsTrue, OnOk, OnErr, Some, position};
ghost use Rattle.std.specs.Prelude.{◌==◌, nat_eq, take, true};
ghost use Rattle.std.specs.Cmp.Lexicographic.{pointwise};
ghost use Rattle.doc_tree.specs.Words.{path_of, is_path, pieces};

use crate::NoMemory;
use crate::text::Name;
use std::alloc::Global;
use std::marker::Model;
use std::sync::Arc;

/// The names on the way from the root to a node: 1 to 8 of them. The root has no path. All copies
/// of a path share its names, as a command and its entry in a log do.
#[derive(Debug)]
pub struct Path {
    names: Arc<Vec<Name>>,
}

impl Drop for Path {
    fn drop(self) {
        let Path { names: _names } = self;
    }
}

impl Model for Path {
    ghost use Rattle.std.specs.Arc.{arc_value};
    ghost use Rattle.std.specs.Prelude.{List, ℕ, IsTrue};
    ghost use Rattle.doc_tree.specs.Words.{is_path};

    ghost Value = { List (List ℕ) };

    ghost view = { λ p. (arc_value p.names).items };

    ghost invariant = { λ p. IsTrue (is_path (arc_value p.names).items) };
}

/// A list of names, as the children of a node.
#[derive(Debug)]
pub struct Names {
    names: Vec<Name>,
}

impl Drop for Names {
    fn drop(self) {
        let Names { names: _names } = self;
    }
}

impl Model for Names {
    ghost use Rattle.std.specs.Prelude.{List, ℕ};

    ghost Value = { List (List ℕ) };

    ghost view = { λ n. n.names.items };
}

impl PartialEq for Path {
    ghost use Rattle.std.specs.Prelude.{nat_eq};
    ghost use Rattle.std.specs.Cmp.Lexicographic.{pointwise};
    ghost use Rattle.std.specs.Cmp.{partial_equiv_from_equiv};
    ghost use Rattle.std.proofs.lemmas.Cmp.{nat_list_eq_equiv, lists_equiv};

    ghost eq = { pointwise (pointwise nat_eq) };

    ghost laws = { partial_equiv_from_equiv (lists_equiv nat_list_eq_equiv) };

    fn eq(&self, other: &Path) -> bool {
        self.names() == other.names()
    }
}

impl Eq for Path {
    ghost use Rattle.std.proofs.lemmas.Cmp.{nat_list_eq_equiv, lists_equiv};

    ghost laws = { lists_equiv nat_list_eq_equiv };
}

impl Path {
    /// The longest path has this many names.
    pub const MOST: usize = 8;

    /// The path that the bytes are, if they are one: names joined by `/`.
    pub fn read(alloc: Global, bytes: &[u8]) -> Result<Option<Path>, NoMemory>
        ensures { IfOk result (λ path. path ≡ path_of bytes.now) }
    {
        let mut names = Vec::with_capacity(alloc, names_in(bytes))?;
        let mut rest = bytes;
        while let Some(at) = first_slash(rest) {
            let (piece, after) = rest.split_at(at);
            let Some(name) = Name::read(alloc, piece)? else {
                return Ok(None);
            };
            if names.len() == Path::MOST - 1 {
                return Ok(None);
            }
            names.push(name)?;
            rest = after.split_at(1).1;
        }
        let Some(name) = Name::read(alloc, rest)? else {
            return Ok(None);
        };
        names.push(name)?;
        Ok(Some(Path {
            names: Arc::new(alloc, names)?,
        }))
    }

    /// An equal path.
    pub fn copy(&self) -> Result<Path, NoMemory>
        ensures { IfOk result (λ path. path ≡ self.now) }
    {
        Ok(Path {
            names: self.names.clone()?,
        })
    }

    /// The path of the first name alone.
    pub fn first(&self, alloc: Global) -> Result<Path, NoMemory>
        ensures { IfOk result (λ path. path ≡ take 1 self.now) }
    {
        let mut names = Vec::with_capacity(alloc, 1)?;
        names.push(self.names()[0].copy()?)?;
        Ok(Path {
            names: Arc::new(alloc, names)?,
        })
    }

    pub fn names(&self) -> &[Name]
        ensures names { result.now ≡ self.now }
        ensures path { IsTrue (is_path self.now) }
    {
        &self.names
    }

    /// Whether these bytes are this path.
    #[tactic(auto, using(crate::proofs::Pieces::a_path_of, crate::proofs::Pieces::pieces_are_names))]
    pub fn is_of(&self, bytes: &[u8]) -> bool
        ensures path { result ≡ true → path_of bytes.now ≡ Some self.now }
        ensures exact { path_of bytes.now ≡ Some self.now → result ≡ true }
    {
        are_pieces(self.names(), bytes)
    }
}

impl PartialEq for Names {
    ghost use Rattle.std.specs.Prelude.{nat_eq};
    ghost use Rattle.std.specs.Cmp.Lexicographic.{pointwise};
    ghost use Rattle.std.specs.Cmp.{partial_equiv_from_equiv};
    ghost use Rattle.std.proofs.lemmas.Cmp.{nat_list_eq_equiv, lists_equiv};

    ghost eq = { pointwise (pointwise nat_eq) };

    ghost laws = { partial_equiv_from_equiv (lists_equiv nat_list_eq_equiv) };

    fn eq(&self, other: &Names) -> bool {
        self.names == other.names
    }
}

impl Eq for Names {
    ghost use Rattle.std.proofs.lemmas.Cmp.{nat_list_eq_equiv, lists_equiv};

    ghost laws = { lists_equiv nat_list_eq_equiv };
}

impl Names {
    /// No name yet.
    pub fn new(alloc: Global) -> Names
        ensures { result ≡ [] }
    {
        Names {
            names: Vec::new(alloc),
        }
    }

    /// Adds the name at the end.
    pub fn push(&mut self, name: Name) -> Result<(), NoMemory>
        ensures ok { OnOk result (self.new ≡ self.old ++ name ∷ []) }
        ensures err { OnErr result (self.new ≡ self.old) }
    {
        self.names.push(name)?;
        Ok(())
    }

    /// An equal list.
    pub fn copy(&self) -> Result<Names, NoMemory>
        ensures { IfOk result (λ names. names ≡ self.now) }
    {
        Ok(Names {
            names: copies(&self.names)?,
        })
    }

    pub fn names(&self) -> &[Name]
        ensures { result.now ≡ self.now }
    {
        &self.names
    }
}

// How many names a path of these bytes has, or one that is as long as may be.
fn names_in(bytes: &[u8]) -> usize {
    let mut names = 1;
    for byte in bytes {
        if *byte == b'/' && names < Path::MOST {
            names += 1;
        }
    }
    names
}

// Whether the pieces of the bytes between slashes are these names.
#[tactic(auto, using(crate::proofs::Pieces::cut_room))]
fn are_pieces(names: &[Name], bytes: &[u8]) -> bool
    ensures pieces { result ≡ pointwise (pointwise nat_eq) names.now (pieces bytes.now) }
{
    let Some((first, others)) = names.split_first() else {
        return false;
    };
    match first_slash(bytes) {
        None => others.is_empty() && first.bytes() == bytes,
        Some(at) => {
            let (piece, after) = bytes.split_at(at);
            first.bytes() == piece && are_pieces(others, after.split_at(1).1)
        }
    }
}

fn first_slash(bytes: &[u8]) -> Option<usize>
    ensures { result ≡ position (λ byte. byte == 47) bytes.now }
{
    bytes.iter().position(|byte| *byte == b'/')
}

fn copies(names: &Vec<Name>) -> Result<Vec<Name>, NoMemory>
    ensures { IfOk result (λ copies. copies.items ≡ names.now.items) }
{
    let mut copies = Vec::with_capacity(*names.allocator(), names.len())?;
    for name in names {
        copies.push(name.copy()?)?;
    }
    Ok(copies)
}
