//! Paths that were read a short while ago.
//!
//! Scripts name the same paths again and again. A path that is still at hand is shared and not made
//! again: it takes no further memory, neither in a command nor in the log.
ghost use Rattle.doc_tree.specs.Words.{path_of};
ghost use Rattle.std.specs.Prelude.{◌≡◌, IfOk, IfSome, Some};

use doc_model::{NoMemory, Path};
use std::alloc::Global;

// So many paths are at hand at most while a script is read.
const MOST_PATHS: usize = 32_768;

// Spreads what paths differ by over all bits of a word: an odd number without a pattern in its
// bits.
const SPREAD: u64 = 0x517c_c1b7_2722_0a95;

/// As many as a script of this length may well have.
pub(crate) fn paths_for(bytes: &[u8]) -> usize {
    (bytes.len() / 8).min(MOST_PATHS)
}

/// Two paths whose bytes fall on one place.
#[derive(Drop)]
struct Place {
    newer: Option<Path>,
    older: Option<Path>,
}

impl Place {
    /// A copy of the one that the bytes are, if one of them is.
    fn find(&self, bytes: &[u8]) -> Result<Option<Path>, NoMemory>
        ensures { IfOk result (λ found. IfSome found (λ path. path_of bytes.now ≡ Some path)) }
    {
        match copy_of(&self.newer, bytes)? {
            Some(path) => Ok(Some(path)),
            None => copy_of(&self.older, bytes),
        }
    }

    /// Keeps one more, and lets the older one go.
    fn keep(&mut self, path: Path) {
        self.older = self.newer.take();
        self.newer = Some(path);
    }
}

// A copy of this path, if the bytes are it.
fn copy_of(path: &Option<Path>, bytes: &[u8]) -> Result<Option<Path>, NoMemory>
    ensures { IfOk result (λ found. IfSome found (λ path. path_of bytes.now ≡ Some path)) }
{
    match path {
        Some(path) if path.is_of(bytes) => Ok(Some(path.copy()?)),
        _ => Ok(None),
    }
}

/// The paths that are at hand, each at the place on which its bytes fall.
#[derive(Drop)]
pub(crate) struct RecentPaths {
    places: Vec<Place>,
}

impl RecentPaths {
    /// None yet, and room for so many.
    pub(crate) fn with_room(alloc: Global, room: usize) -> Result<RecentPaths, NoMemory> {
        let mut places = Vec::with_capacity(alloc, room / 2)?;
        for _place in 0..room / 2 {
            places.push(Place {
                newer: None,
                older: None,
            })?;
        }
        Ok(RecentPaths { places })
    }

    /// The path that the bytes are, if they are one.
    pub(crate) fn read(&mut self, alloc: Global, bytes: &[u8]) -> Result<Option<Path>, NoMemory>
        ensures { IfOk result (λ path. path ≡ path_of bytes.now) }
    {
        let place = place_of(bytes, self.places.len());
        if let Some(place) = self.places.get(place) {
            if let Some(known) = place.find(bytes)? {
                return Ok(Some(known));
            }
        }
        let Some(path) = Path::read(alloc, bytes)? else {
            return Ok(None);
        };
        let kept = path.copy()?;
        if let Some(place) = self.places.get_mut(place) {
            place.keep(kept);
        }
        Ok(Some(path))
    }
}

// The place of these bytes among so many. Short paths that differ in a letter or two fall on places
// far from each other.
fn place_of(bytes: &[u8], places: usize) -> usize {
    let mut mixed = 0u64;
    for byte in bytes {
        mixed = (mixed.rotate_left(5) ^ u64::from(*byte)).wrapping_mul(SPREAD);
    }
    ((mixed >> 32).wrapping_mul(places as u64) >> 32) as usize
}
