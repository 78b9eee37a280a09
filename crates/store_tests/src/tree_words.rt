//! Names, texts and paths from words.
use doc_tree::{Name, Path, Text};
use std::alloc::Global;
use std::test::Fail;

pub(crate) fn name(alloc: Global, word: &str) -> Result<Name, Fail> {
    Ok(Name::read(alloc, word.as_bytes())?.ok_or("a name")?)
}

pub(crate) fn text(alloc: Global, word: &str) -> Result<Text, Fail> {
    Ok(Text::read(alloc, word.as_bytes())?.ok_or("a text")?)
}

pub(crate) fn path(alloc: Global, word: &str) -> Result<Path, Fail> {
    Ok(Path::read(alloc, word.as_bytes())?.ok_or("a path")?)
}
