//! Names and texts: short runs of plain characters.
ghost use Rattle.std.specs.Prelude.{◌≡◌, [], IfOk, IsTrue};
ghost use Rattle.std.specs.List.{list_all};
ghost use Rattle.std.specs.Str.{IsAscii};
ghost use Rattle.doc_tree.specs.Tree.{name_cmp};
ghost use Rattle.doc_tree.specs.Words.{name_of, text_of, is_name, is_text, is_name_byte};
ghost use Rattle.doc_tree.specs.Words.{is_text_byte};

use crate::NoMemory;
use crate::letters::Letters;
use std::alloc::Global;
use std::cmp::Ordering;
use std::fmt;
use std::marker::Model;

/// The name of a child among its siblings: 1 to 64 letters, digits, `-` and `_`. They lie in the
/// value: a list of long names takes no more than its bytes, and no name takes memory of its own.
#[derive(Drop)]
pub struct Name {
    len: u8,
    // the first `len` of these
    letters: [u8; Name::MOST],
}

impl Model for Name {
    ghost use Rattle.std.specs.Prelude.{List, ℕ, ◌≤◌, IsTrue, take};
    ghost use Rattle.doc_tree.specs.Words.{is_name};

    ghost Value = { List ℕ };

    ghost view = { λ n. take n.len n.letters };

    ghost invariant = { λ n. (n.len ≤ 64) × IsTrue (is_name (take n.len n.letters)) };
}

/// What a node of a tree says: 0 to 4,096 bytes, each a character from the space to the tilde, a
/// tab or a line feed.
pub struct Text {
    letters: Letters,
}

impl Drop for Text {
    fn drop(self) {
        let Text { letters: _letters } = self;
    }
}

impl Model for Text {
    ghost use Rattle.std.specs.Prelude.{List, ℕ, IsTrue};
    ghost use Rattle.doc_tree.specs.Words.{is_text};

    ghost Value = { List ℕ };

    ghost view = { λ t. t.letters };

    ghost invariant = { λ t. IsTrue (is_text t.letters) };
}

impl fmt::Debug for Name {
    fn fmt<W: fmt::Write>(&self, f: &mut fmt::Formatter<W>) -> fmt::Result {
        fmt::Debug::fmt(self.as_str(), f)
    }
}

impl fmt::Debug for Text {
    fn fmt<W: fmt::Write>(&self, f: &mut fmt::Formatter<W>) -> fmt::Result {
        fmt::Debug::fmt(self.as_str(), f)
    }
}

impl PartialEq for Name {
    ghost use Rattle.std.specs.Prelude.{nat_eq};
    ghost use Rattle.std.specs.Cmp.Lexicographic.{pointwise};
    ghost use Rattle.std.specs.Cmp.{partial_equiv_from_equiv};
    ghost use Rattle.std.proofs.lemmas.Cmp.{nat_list_eq_equiv};

    ghost eq = { pointwise nat_eq };

    ghost laws = { partial_equiv_from_equiv nat_list_eq_equiv };

    fn eq(&self, other: &Name) -> bool {
        self.bytes() == other.bytes()
    }
}

impl Eq for Name {
    ghost use Rattle.std.proofs.lemmas.Cmp.{nat_list_eq_equiv};

    ghost laws = { nat_list_eq_equiv };
}

impl Name {
    /// The longest name has this many bytes.
    pub const MOST: usize = 64;

    /// The name that the bytes are, if they are one.
    pub fn read(alloc: Global, bytes: &[u8]) -> Result<Option<Name>, NoMemory>
        ensures { IfOk result (λ name. name ≡ name_of bytes.now) }
    {
        let _ = alloc;
        if !is_name(bytes) {
            return Ok(None);
        }
        let mut letters = [0; Name::MOST];
        letters[..bytes.len()].copy_from_slice(bytes);
        Ok(Some(Name {
            len: bytes.len() as u8,
            letters,
        }))
    }

    /// An equal name.
    pub fn copy(&self) -> Result<Name, NoMemory>
        ensures { IfOk result (λ name. name ≡ self.now) }
    {
        Ok(Name {
            len: self.len,
            letters: self.letters,
        })
    }

    pub fn bytes(&self) -> &[u8]
        ensures bytes { result.now ≡ self.now }
        ensures name { IsTrue (is_name self.now) }
    {
        &self.letters[..self.len as usize]
    }

    #[tactic(auto, using(crate::proofs::Plain::name_is_ascii))]
    pub fn as_str(&self) -> &str
        ensures bytes { result.now ≡ self.now }
        ensures name { IsTrue (is_name self.now) }
    {
        ascii(self.bytes())
    }

    /// The order of names, which is that of their bytes.
    pub fn order(&self, other: &Name) -> Ordering
        ensures { result ≡ name_cmp self.now other.now }
    {
        self.bytes().cmp(other.bytes())
    }
}

impl PartialEq for Text {
    ghost use Rattle.std.specs.Prelude.{nat_eq};
    ghost use Rattle.std.specs.Cmp.Lexicographic.{pointwise};
    ghost use Rattle.std.specs.Cmp.{partial_equiv_from_equiv};
    ghost use Rattle.std.proofs.lemmas.Cmp.{nat_list_eq_equiv};

    ghost eq = { pointwise nat_eq };

    ghost laws = { partial_equiv_from_equiv nat_list_eq_equiv };

    fn eq(&self, other: &Text) -> bool {
        self.bytes() == other.bytes()
    }
}

impl Eq for Text {
    ghost use Rattle.std.proofs.lemmas.Cmp.{nat_list_eq_equiv};

    ghost laws = { nat_list_eq_equiv };
}

impl Text {
    /// The longest text has this many bytes.
    pub const MOST: usize = 4096;

    /// The text of no characters.
    pub fn empty() -> Text
        ensures { result ≡ [] }
    {
        Text {
            letters: Letters::empty(),
        }
    }

    /// The text that the bytes are, if they are one.
    #[tactic(auto, using(crate::proofs::Plain::text_is_ascii))]
    pub fn read(alloc: Global, bytes: &[u8]) -> Result<Option<Text>, NoMemory>
        ensures { IfOk result (λ text. text ≡ text_of bytes.now) }
    {
        if !is_text(bytes) {
            return Ok(None);
        }
        Ok(Some(Text {
            letters: Letters::new(alloc, bytes)?,
        }))
    }

    /// An equal text.
    pub fn copy(&self) -> Result<Text, NoMemory>
        ensures { IfOk result (λ text. text ≡ self.now) }
    {
        Ok(Text {
            letters: self.letters.copy()?,
        })
    }

    pub fn bytes(&self) -> &[u8]
        ensures bytes { result.now ≡ self.now }
        ensures text { IsTrue (is_text self.now) }
    {
        self.letters.bytes()
    }

    pub fn as_str(&self) -> &str
        ensures bytes { result.now ≡ self.now }
        ensures text { IsTrue (is_text self.now) }
    {
        ascii(self.bytes())
    }
}

fn is_name(bytes: &[u8]) -> bool
    ensures { result ≡ is_name bytes.now }
{
    !bytes.is_empty() && bytes.len() <= Name::MOST && has_name_bytes(bytes)
}

fn has_name_bytes(bytes: &[u8]) -> bool
    ensures { result ≡ list_all is_name_byte bytes.now }
{
    bytes.iter().all(|byte| is_name_byte(*byte))
}

fn is_name_byte(byte: u8) -> bool
    ensures { result ≡ is_name_byte byte }
{
    matches!(byte, b'0'..=b'9' | b'A'..=b'Z' | b'a'..=b'z' | b'-' | b'_')
}

fn is_text(bytes: &[u8]) -> bool
    ensures { result ≡ is_text bytes.now }
{
    bytes.len() <= Text::MOST && has_text_bytes(bytes)
}

fn has_text_bytes(bytes: &[u8]) -> bool
    ensures { result ≡ list_all is_text_byte bytes.now }
{
    bytes.iter().all(|byte| is_text_byte(*byte))
}

fn is_text_byte(byte: u8) -> bool
    ensures { result ≡ is_text_byte byte }
{
    matches!(byte, b'\t' | b'\n' | b' '..=b'~')
}

// Plain bytes as Rust's text.
#[tactic(auto, using(crate::proofs::Plain::utf8))]
fn ascii(bytes: &[u8]) -> &str
    requires { IsAscii bytes.now }
    ensures { result.now ≡ bytes.now }
{
    std::str::from_utf8(bytes).unwrap()
}
