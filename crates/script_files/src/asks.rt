//! What a line asks for.
ghost use Rattle.script_files.specs.Generated.{ask_of, ask_text_of, copy_text_of};
ghost use Rattle.script_files.specs.Generated.{path_text_of};
ghost use Rattle.std.specs.Prelude.{IfOk, string_bytes, ◌≡◌};

use std::alloc::{AllocError, Global};

/// The kinds of lines.
#[derive(Clone, Copy)]
pub(crate) enum Ask {
    Put,
    Get,
    DraftPut,
    Del,
    Copy,
}

impl Ask {
    /// What the first draw of a line chooses.
    pub(crate) fn of(first: u32) -> Ask
        ensures { result ≡ ask_of first }
    {
        let rest = first % 8;
        if rest < 4 {
            Ask::Put
        } else if rest == 4 {
            Ask::Get
        } else if rest == 5 {
            Ask::DraftPut
        } else if rest == 6 {
            Ask::Del
        } else {
            Ask::Copy
        }
    }

    /// The line of a client that asks so for a node, with a number for its text.
    pub(crate) fn line(
        self,
        alloc: Global,
        client: u32,
        node: u32,
        number: u32,
    ) -> Result<Vec<u8>, AllocError>
        ensures { IfOk result (λ line. line.items ≡ ask_text_of self client node number) }
    {
        let path = path_text(alloc, client, node)?;
        let line = match self {
            Ask::Put => format!(in alloc; "put {path} t{number}\n"),
            Ask::Get => format!(in alloc; "get {path}\n"),
            Ask::DraftPut => format!(in alloc; "dput n{node} t{number}\n"),
            Ask::Del => format!(in alloc; "del {path}\n"),
            Ask::Copy => {
                let copy = copy_text(alloc, client, node)?;
                format!(in alloc; "copy {path} {copy}\n")
            }
        };
        Ok(line?.into_bytes())
    }
}

fn path_text(alloc: Global, client: u32, node: u32) -> Result<String, AllocError>
    ensures { IfOk result (λ path. string_bytes path ≡ path_text_of client node) }
{
    Ok(format!(in alloc; "c{client}/n{node}")?)
}

fn copy_text(alloc: Global, client: u32, node: u32) -> Result<String, AllocError>
    ensures { IfOk result (λ path. string_bytes path ≡ copy_text_of client node) }
{
    Ok(format!(in alloc; "c{client}/m{node}")?)
}
