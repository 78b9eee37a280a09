//! The bytes of a name, kept without memory of their own.
ghost use Rattle.std.specs.Prelude.{◌≡◌, ◌≤◌, length};

use doc_tree::Name;
use std::marker::Model;

#[derive(Drop)]
pub(crate) struct Label {
    len: u8,
    bytes: [u8; Name::MOST],
}

impl Model for Label {
    ghost use Rattle.std.specs.Prelude.{List, ℕ, take, ◌≤◌};

    ghost Value = { List ℕ };

    ghost view = { λ l. take l.len l.bytes };

    ghost invariant = { λ l. l.len ≤ 64 };
}

impl Label {
    pub(crate) fn of(name: &Name) -> Label
        ensures { result ≡ name.now }
    {
        of_bytes(name.bytes())
    }

    pub(crate) fn copy(&self) -> Label
        ensures { result ≡ self.now }
    {
        Label {
            len: self.len,
            bytes: self.bytes,
        }
    }

    pub(crate) fn bytes(&self) -> &[u8]
        ensures { result.now ≡ self.now }
    {
        &self.bytes[..self.len as usize]
    }
}

fn of_bytes(letters: &[u8]) -> Label
    requires { length letters.now ≤ 64 }
    ensures { result ≡ letters.now }
{
    let mut bytes = [0; Name::MOST];
    bytes[..letters.len()].copy_from_slice(letters);
    Label {
        len: letters.len() as u8,
        bytes,
    }
}
