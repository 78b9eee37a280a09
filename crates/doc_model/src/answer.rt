//! What a command is answered, before a store takes it in.
ghost use Rattle.std.specs.Prelude.{◌≡◌, ◌≢◌, ◌≤◌, ◌↔◌, Err, IsTrue, IfOk, OnOk, None, replicate};
ghost use Rattle.std.specs.Option.{ForSome, option_copied};
ghost use Rattle.std.specs.Result.{ForOk};
ghost use Rattle.doc_model.specs.Answers.{all_made, attached, count_shown, draft_made, drafted};
ghost use Rattle.doc_model.specs.Answers.{edit_made, full_place, names_shown, opening_account};
ghost use Rattle.doc_model.specs.Answers.{refusal, taken, text_shown, told};
ghost use Rattle.doc_model.specs.History.{Says};
ghost use Rattle.doc_model.specs.LawfulStore.{NotDeep};
ghost use Rattle.doc_tree.specs.Tree.{count};
ghost use Rattle.doc_tree.specs.Edits.{Gives};

use crate::NoMemory;
use crate::command::{Command, Entry, Reply};
use crate::edits::Edit;
use doc_tree::{EditFault, Path, Tree};
use std::alloc::Global;

/// What a client has in the store besides the versions.
#[derive(Drop)]
pub(crate) struct Account {
    pub(crate) draft: Tree,
    // The place of its last entry.
    pub(crate) last: u64,
    pub(crate) answered: u32,
}

/// The reply and what comes with it. No tree stands for no change.
#[derive(Drop)]
pub(crate) struct Answer {
    pub(crate) reply: Reply,
    pub(crate) place: u64,
    pub(crate) made: Option<Tree>,
    pub(crate) draft: Option<Tree>,
}

impl Answer {
    // Whether this is the answer that the entry has.
    pub(crate) fn says(&self, entry: &Entry) -> bool
        ensures { IsTrue result ↔ Says self.now entry.now }
    {
        self.place == entry.place && self.reply == entry.reply
    }
}

pub(crate) fn opening_accounts(alloc: Global, clients: u32) -> Result<Vec<Account>, NoMemory>
    ensures { IfOk result (λ accounts. accounts.items ≡ replicate clients opening_account) }
{
    let mut accounts = Vec::with_capacity(alloc, clients as usize)?;
    for _i in 0..clients {
        accounts.push(Account {
            draft: Tree::empty(alloc)?,
            last: 0,
            answered: 0,
        })?;
    }
    Ok(accounts)
}

pub(crate) fn told(reply: Reply, place: u64) -> Answer
    ensures { result ≡ told reply place }
{
    Answer {
        reply,
        place,
        made: None,
        draft: None,
    }
}

pub(crate) fn refused(fault: EditFault, shown: u64) -> Result<Answer, NoMemory>
    ensures answer { IfOk result (λ a. a ≡ told (refusal fault shown) shown) }
    ensures memory { OnOk result (fault ≢ EditFault.NoMemory) }
    ensures shallow { fault ≢ EditFault.Deep → IfOk result (λ a. NotDeep a.reply) }
{
    let reply = match fault {
        EditFault::Absent => Reply::Absent { shown },
        EditFault::Many => Reply::Many { shown },
        EditFault::Deep => Reply::Deep { shown },
        EditFault::Big => Reply::Big { shown },
        EditFault::NoMemory => return Err(NoMemory),
    };
    Ok(told(reply, shown))
}

// An edited tree as the next draft.
pub(crate) fn drafted(place: u64, edited: Result<Tree, EditFault>) -> Result<Answer, NoMemory>
    ensures answer { (wanted : _) → Gives edited wanted
        → IfOk result (λ a. a ≡ drafted place wanted) }
    ensures none { IfOk result (λ a. a.made ≡ None) }
    ensures shallow { edited ≢ Err EditFault.Deep → IfOk result (λ a. NotDeep a.reply) }
{
    match edited {
        Ok(tree) => Ok(draft_made(place, tree)),
        Err(fault) => refused(fault, place),
    }
}

// The node's tree as the next draft.
pub(crate) fn taken(shown: u64, node: Option<&Tree>) -> Result<Answer, NoMemory>
    ensures answer { IfOk result (λ a. a ≡ taken shown (option_copied node.entry)) }
    ensures none { IfOk result (λ a. a.made ≡ None) }
{
    match node {
        None => Ok(told(Reply::Absent { shown }, shown)),
        Some(tree) => Ok(draft_made(shown, tree.copy()?)),
    }
}

fn draft_made(place: u64, tree: Tree) -> Answer
    ensures { result ≡ draft_made place tree }
{
    Answer {
        reply: Reply::Drafted { shown: place },
        place,
        made: None,
        draft: Some(tree),
    }
}

// The tree with the node's tree also at another path.
pub(crate) fn attached(
    alloc: Global,
    to: &Path,
    tree: &Tree,
    node: Option<&Tree>,
) -> Result<Tree, EditFault>
    ensures { Gives result (attached to.now tree.now (option_copied node.entry)) }
{
    match node {
        None => Err(EditFault::Absent),
        Some(sub) => tree.attach(alloc, to, sub),
    }
}

// The tree with one edit of a batch made. Where it publishes, this is the draft.
fn edit_made(alloc: Global, draft: &Tree, edit: &Edit, tree: &Tree) -> Result<Tree, EditFault>
    requires counted { count tree.now ≤ 1_000_000_000 }
    ensures gives { Gives result (edit_made draft.now edit.now tree.now) }
    ensures counted { ForOk result (λ t. count t ≤ 1_000_000_000) }
{
    match edit {
        Edit::Put { path, text } => tree.set_text(alloc, path, text),
        Edit::Del { path } => tree.delete(alloc, path),
        Edit::Copy { from, to } => attached(alloc, to, tree, tree.node(from)),
        Edit::Publish { path } => tree.attach(alloc, path, draft),
    }
}

// The tree with all edits of a batch made, one after another.
pub(crate) fn all_made(
    alloc: Global,
    draft: &Tree,
    edits: &[Edit],
    tree: &Tree,
) -> Result<Tree, EditFault>
    requires counted { count tree.now ≤ 1_000_000_000 }
    ensures gives { Gives result (all_made draft.now edits.now tree.now) }
    ensures counted { ForOk result (λ t. count t ≤ 1_000_000_000) }
{
    let mut made = tree.copy()?;
    for edit in edits {
        made = edit_made(alloc, draft, edit, &made)?;
    }
    Ok(made)
}

// The text of a node of the version that is shown.
pub(crate) fn text_shown(shown: u64, place: u64, node: Option<&Tree>) -> Result<Answer, NoMemory>
    ensures answer { IfOk result (λ a. a ≡ text_shown shown place (option_copied node.entry)) }
    ensures none { IfOk result (λ a. a.made ≡ None) }
{
    match node {
        None => Ok(told(Reply::Absent { shown }, place)),
        Some(tree) => Ok(told(
            Reply::Val {
                shown,
                text: tree.text().copy()?,
            },
            place,
        )),
    }
}

// The names of the node's children.
pub(crate) fn names_shown(
    alloc: Global,
    shown: u64,
    node: Option<&Tree>,
) -> Result<Answer, NoMemory>
    ensures answer { IfOk result (λ a. a ≡ names_shown shown (option_copied node.entry)) }
    ensures none { IfOk result (λ a. a.made ≡ None) }
{
    match node {
        None => Ok(told(Reply::Absent { shown }, shown)),
        Some(tree) => Ok(told(
            Reply::Names {
                shown,
                names: tree.names(alloc)?,
            },
            shown,
        )),
    }
}

// How many nodes the node's tree has.
pub(crate) fn count_shown(shown: u64, node: Option<&Tree>) -> Answer
    requires { ForSome (option_copied node) (λ t. count t ≤ 1_000_000_000) }
    ensures answer { result ≡ count_shown shown (option_copied node.entry) }
    ensures none { result.made ≡ None }
{
    match node {
        None => told(Reply::Absent { shown }, shown),
        Some(tree) => told(
            Reply::Count {
                shown,
                count: tree.count(),
            },
            shown,
        ),
    }
}

// The place of a command that found the heap full, if it is one that needs cells.
pub(crate) fn full_place(shown: u64, account: &Account, command: &Command) -> Option<u64>
    ensures { result ≡ full_place shown account.now command.now }
{
    match command {
        Command::Put { .. }
        | Command::Del { .. }
        | Command::Copy { .. }
        | Command::Take { .. }
        | Command::Publish { .. }
        | Command::Batch { .. } => Some(shown),
        Command::DraftPut { .. } => Some(account.last),
        Command::Get { .. }
        | Command::List { .. }
        | Command::Size { .. }
        | Command::Old { .. }
        | Command::DraftGet { .. } => None,
    }
}
