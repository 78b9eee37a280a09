ghost use Rattle.std.specs.Prelude.{◌≡◌, ℕ, ◌+◌, ◌^◌, ◌<◌, ◌≤◌, [], ◌++◌, length, take, drop, min};
ghost use Rattle.std.specs.Prelude.{None, Some, IfSome, IfNone};
ghost use Rattle.outside.specs.Named.{files_of, content_named, content_at, left_at};

/// The index of an open file, and how many of its bytes were read.
#[derive(Clone, Copy)]
pub(crate) struct Place {
    pub(crate) index: usize,
    pub(crate) position: usize,
}

// The index of the first file of this name.
pub(crate) fn index_of(files: &[(String, Vec<u8>)], name: &str) -> Option<usize>
    ensures found { IfSome result (λ index.
        content_named (files_of files.now) name.now
        ≡ Some (content_at (files_of files.now) index)) }
    ensures absent { IfNone result (content_named (files_of files.now) name.now ≡ None) }
{
    for (index, file) in files.iter().enumerate() {
        if file.0.as_str() == name {
            return Some(index);
        }
    }
    None
}

// The content of the file with this index, or nothing past the last.
fn content(files: &[(String, Vec<u8>)], index: usize) -> &[u8]
    ensures { result.now ≡ content_at (files_of files.now) index }
{
    match files.get(index) {
        Some(file) => file.1.as_slice(),
        None => &[],
    }
}

fn rest_of(bytes: &[u8], position: usize) -> &[u8]
    ensures { result.now ≡ drop position bytes.now }
{
    if position < bytes.len() {
        bytes.split_at(position).1
    } else {
        &[]
    }
}

// Copies the front of what is left into the buffer, and says how many bytes it is.
fn copy_front(rest: &[u8], buffer: &mut [u8]) -> usize
    ensures count { result ≡ min (length rest.now) (length buffer.old) }
    ensures copied { take result buffer.new ≡ take result rest.now }
{
    let count = rest.len().min(buffer.len());
    buffer[..count].copy_from_slice(&rest[..count]);
    count
}

// Reads on from a place, and gives the place after what was read.
pub(crate) fn read_at(
    files: &[(String, Vec<u8>)],
    place: Place,
    buffer: &mut [u8],
) -> (usize, Place)
    ensures count { result.0
        ≡ min (length (left_at (files_of files.now) place)) (length buffer.old) }
    ensures bytes { left_at (files_of files.now) place
        ≡ take result.0 buffer.new ++ left_at (files_of files.now) result.1 }
    ensures end { result.0 ≡ 0 → 0 < length buffer.old →
        left_at (files_of files.now) result.1 ≡ [] }
{
    let Place { index, position } = place;
    let count = copy_front(rest_of(content(files, index), position), buffer);
    let position = position + count;
    (count, Place { index, position })
}
