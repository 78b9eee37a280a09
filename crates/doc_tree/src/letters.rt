//! The bytes of a text.
//!
//! A few of them lie in the value; more lie in memory that all copies share. So a copy takes no new
//! memory, and a short text lies in the reply or the node itself.
ghost use Rattle.std.specs.Prelude.{◌≡◌, ◌≤◌, [], IfOk, length};

use crate::NoMemory;
use std::alloc::Global;
use std::marker::Model;
use std::sync::Arc;

// So many bytes lie in the value at most.
const MOST_SHORT: usize = 22;

/// Bytes that stay as they are.
pub(crate) struct Letters {
    stored: Stored,
}

// Where the bytes lie: the first `len` of those in the value, or all of those that are shared.
#[derive(Drop)]
enum Stored {
    Short { len: u8, bytes: [u8; MOST_SHORT] },
    Long(Arc<Vec<u8>>),
}

// By hand, so that a proof above takes a drop as one call and not as a case for each place of the
// bytes.
impl Drop for Letters {
    fn drop(self) {
        let Letters { stored: _stored } = self;
    }
}

impl Model for Letters {
    ghost use Rattle.std.specs.Prelude.{List, ℕ};
    ghost use Rattle.doc_tree.specs.Letters.{bytes_in, IsWithin};

    ghost Value = { List ℕ };

    ghost view = { λ l. bytes_in l.stored };

    ghost invariant = { λ l. IsWithin l.stored };
}

impl Letters {
    /// These bytes.
    pub(crate) fn new(alloc: Global, bytes: &[u8]) -> Result<Letters, NoMemory>
        ensures { IfOk result (λ letters. letters ≡ bytes.now) }
    {
        if bytes.len() <= MOST_SHORT {
            return Ok(short(bytes));
        }
        let all = Vec::from_slice(alloc, bytes)?;
        Ok(Letters {
            stored: Stored::Long(Arc::new(alloc, all)?),
        })
    }

    /// No bytes.
    pub(crate) fn empty() -> Letters
        ensures { result ≡ [] }
    {
        short(&[])
    }

    /// The same bytes once more.
    pub(crate) fn copy(&self) -> Result<Letters, NoMemory>
        ensures { IfOk result (λ letters. letters ≡ self.now) }
    {
        let stored = match &self.stored {
            Stored::Short { len, bytes } => Stored::Short {
                len: *len,
                bytes: *bytes,
            },
            Stored::Long(bytes) => Stored::Long(bytes.clone()?),
        };
        Ok(Letters { stored })
    }

    pub(crate) fn bytes(&self) -> &[u8]
        ensures { result.now ≡ self.now }
    {
        match &self.stored {
            Stored::Short { len, bytes } => &bytes[..*len as usize],
            Stored::Long(bytes) => bytes,
        }
    }
}

fn short(bytes: &[u8]) -> Letters
    requires { length bytes.now ≤ 22 }
    ensures { result ≡ bytes.now }
{
    let mut all = [0; MOST_SHORT];
    all[..bytes.len()].copy_from_slice(bytes);
    Letters {
        stored: Stored::Short {
            len: bytes.len() as u8,
            bytes: all,
        },
    }
}
