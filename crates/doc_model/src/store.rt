//! The plain store: whole trees in a list of versions, one command after another.
//!
//! It keeps the trees that a command can still ask for and no others. That there were more is known
//! to contracts alone: `trees` has a place for each version, and a place takes no room.
ghost use Rattle.std.specs.Prelude.{◌≡◌, ◌≢◌, ◌<◌, ◌≤◌, ◌-◌, ◌+◌, ◌∷◌, ◌++◌, [], ◌↔◌, Err, IfOk};
ghost use Rattle.std.specs.Prelude.{IsTrue, All, OnOk, OnErr, length};
ghost use Rattle.std.specs.Result.{ForOk};
ghost use Rattle.doc_tree.specs.Tree.{count, node};
ghost use Rattle.doc_tree.specs.Edits.{Gives};
ghost use Rattle.doc_model.specs.Answers.{committed, old_shown};
ghost use Rattle.doc_model.specs.History.{Says};
ghost use Rattle.doc_model.specs.LawfulStore.{IsLawfulStore, IsShallow, NotDeep};
ghost use Rattle.doc_model.specs.Store.{IsClient, after, answer_for_in, answer_in, entry_of};
ghost use Rattle.doc_model.specs.Store.{opening, account_of, shown, tree_at};
ghost use Rattle.doc_model.specs.StoreView.{IsNext};
ghost use Rattle.run_limits.specs.declared.TheConstants.{MOST_COMMANDS};

use crate::NoMemory;
use crate::answer::{
    Account, Answer, all_made, attached, count_shown, drafted, full_place, names_shown,
    opening_accounts, refused, taken, text_shown, told,
};
use crate::command::{Command, Entry, Reply};
use doc_tree::{EditFault, Path, Tree};
use std::alloc::Global;
use std::collections::VecDeque;
use std::marker::Model;
use std::snapshot::Snapshot;

/// The documents of several clients, with all their versions.
pub struct PlainStore {
    keep: u32,
    versions: u32,
    // The trees of the latest versions, the newest last.
    recent: VecDeque<Tree>,
    // All versions, for contracts: a snapshot has no bytes.
    trees: Vec<Snapshot<Tree>>,
    accounts: Vec<Account>,
}

impl Drop for PlainStore {
    fn drop(self) {
        let PlainStore {
            keep: _,
            versions: _,
            recent: _recent,
            trees: _trees,
            accounts: _accounts,
        } = self;
    }
}

impl Model for PlainStore {
    ghost use Rattle.std.specs.Prelude.{map};
    ghost use Rattle.doc_model.specs.Store.{Store, store_code};
    ghost use Rattle.doc_model.specs.StoreView.{IsKept};

    ghost Value = { Store };

    ghost coded = { store_code };

    ghost view = { λ s. record {
      limits = record { keep = s.keep; versions = s.versions };
      trees = map (λ t. t.value) s.trees.items;
      accounts = s.accounts.items;
    } };

    ghost invariant = { λ s. IsKept s.keep s.versions
        (map (λ t. t.value) s.trees.items) s.recent.items };
}

impl PlainStore {
    /// A store of version 0 alone, the empty tree. A command can ask for the latest `keep`
    /// versions, and `versions` is the number of the last version that can be made.
    #[tactic(auto, using(crate::proofs::Keeping::lawful_opening))]
    pub fn new(
        alloc: Global,
        clients: u32,
        keep: u32,
        versions: u32,
    ) -> Result<PlainStore, NoMemory>
        requires clients { (1 ≤ clients) × (clients ≤ 64) }
        requires keep { (1 ≤ keep) × (keep ≤ 100) }
        requires versions { (1 ≤ versions) × (versions ≤ 1_000_000) }
        ensures store { IfOk result (λ store. store
            ≡ opening clients (record { keep = keep; versions = versions })) }
        ensures lawful { ForOk result IsLawfulStore }
    {
        let tree = Tree::empty(alloc)?;
        let mut trees = Vec::new(alloc);
        trees.push(Snapshot::of(&tree))?;
        let mut recent = VecDeque::new(alloc);
        recent.push_back(tree)?;
        Ok(PlainStore {
            keep,
            versions,
            recent,
            trees,
            accounts: opening_accounts(alloc, clients)?,
        })
    }

    /// Answers the client's next command, with an entry for its log.
    pub fn answer(
        &mut self,
        alloc: Global,
        client: u32,
        command: &Command,
    ) -> Result<Entry, NoMemory>
        requires client { IsClient self.old client }
        requires more { (account_of self.old client).answered < MOST_COMMANDS }
        ensures entry { IfOk result (λ entry. entry
            ≡ entry_of self.old client command.now (answer_in self.old client command.now)) }
        ensures next { OnOk result (self.new
            ≡ after self.old client (answer_in self.old client command.now)) }
        ensures err { OnErr result (self.new ≡ self.old) }
        ensures lawful { IsLawfulStore self.old → IsLawfulStore self.new }
        ensures shallow { IsLawfulStore self.old
            → IfOk result (λ entry. IsShallow command.now entry.reply) }
    {
        self.answer_owned(alloc, client, command.copy()?)
    }

    /// The same for a command that goes into the entry as it is, without a copy.
    pub fn answer_owned(
        &mut self,
        alloc: Global,
        client: u32,
        command: Command,
    ) -> Result<Entry, NoMemory>
        requires client { IsClient self.old client }
        requires more { (account_of self.old client).answered < MOST_COMMANDS }
        ensures entry { IfOk result (λ entry. entry
            ≡ entry_of self.old client command (answer_in self.old client command)) }
        ensures next { OnOk result (self.new
            ≡ after self.old client (answer_in self.old client command)) }
        ensures err { OnErr result (self.new ≡ self.old) }
        ensures lawful { IsLawfulStore self.old → IsLawfulStore self.new }
        ensures shallow { IsLawfulStore self.old
            → IfOk result (λ entry. IsShallow command entry.reply) }
    {
        let answer = self.reply_to(alloc, client, &command)?;
        let place = answer.place;
        let number = self.account(client).answered + 1;
        let reply = self.enter(client, answer)?;
        Ok(Entry {
            client,
            number,
            command,
            reply,
            place,
        })
    }

    // Takes the entry in, if its reply and place are those that it has to have.
    pub(crate) fn accept(&mut self, alloc: Global, entry: &Entry) -> Result<bool, NoMemory>
        requires { All (λ m. m.answered < MOST_COMMANDS) self.old.accounts }
        ensures says { IfOk result (λ legal. IsTrue legal
            ↔ (IsClient self.old entry.now.client
            × Says (answer_for_in self.old entry.now) entry.now)) }
        ensures next { IfOk result (λ legal. IsTrue legal
            → self.new ≡ after self.old entry.now.client (answer_for_in self.old entry.now)) }
    {
        if entry.client < 1 || entry.client as usize > self.accounts.len() {
            return Ok(false);
        }
        let answer = self.wanted(alloc, entry)?;
        if !answer.says(entry) {
            return Ok(false);
        }
        self.enter(entry.client, answer)?;
        Ok(true)
    }

    // The answer that the entry has to have.
    fn wanted(&self, alloc: Global, entry: &Entry) -> Result<Answer, NoMemory>
        requires { IsClient self.now entry.now.client }
        ensures answer { IfOk result (λ a. a ≡ answer_for_in self.now entry.now) }
        ensures next { IfOk result (λ a. IsNext self.now a.made) }
    {
        if entry.reply.is_full() {
            let account = self.account(entry.client);
            if let Some(shown) = full_place(self.shown(), account, &entry.command) {
                return Ok(told(Reply::Full { shown }, shown));
            }
        }
        self.reply_to(alloc, entry.client, &entry.command)
    }

    #[tactic(auto, using(crate::proofs::Keeping::lawful_latest, crate::proofs::Keeping::lawful_draft))]
    fn reply_to(&self, alloc: Global, client: u32, command: &Command) -> Result<Answer, NoMemory>
        requires { IsClient self.now client }
        ensures answer { IfOk result (λ a. a ≡ answer_in self.now client command.now) }
        ensures next { IfOk result (λ a. IsNext self.now a.made) }
        ensures shallow { IsLawfulStore self.now
            → IfOk result (λ a. IsShallow command.now a.reply) }
    {
        let shown = self.shown();
        let now = self.latest();
        let account = self.account(client);
        match command {
            Command::Put { path, text } => self.committed(now.set_text(alloc, path, text)),
            Command::Del { path } => self.committed(now.delete(alloc, path)),
            Command::Copy { from, to } => self.committed(attached(alloc, to, now, now.node(from))),
            Command::Get { path } => text_shown(shown, shown, now.node(path)),
            Command::List { path } => names_shown(alloc, shown, now.node(path)),
            Command::Size { path } => Ok(count_shown(shown, now.node(path))),
            Command::Old { back, path } => self.old_shown(*back, path),
            Command::DraftPut { path, text } => {
                drafted(account.last, account.draft.set_text(alloc, path, text))
            }
            Command::DraftGet { path } => text_shown(
                account.last,
                account.last,
                account.draft.node(path),
            ),
            Command::Take { path } => taken(shown, now.node(path)),
            Command::Publish { path } => self.committed(now.attach(alloc, path, &account.draft)),
            Command::Batch { edits } => {
                self.committed(all_made(alloc, &account.draft, edits.edits(), now))
            }
        }
    }

    // The edited tree as the next version.
    fn committed(&self, edited: Result<Tree, EditFault>) -> Result<Answer, NoMemory>
        requires { ForOk edited (λ t. count t ≤ 1_000_000_000) }
        ensures answer { (wanted : _) → Gives edited wanted
            → IfOk result (λ a. a ≡ committed self.now.limits (shown self.now) wanted) }
        ensures next { IfOk result (λ a. IsNext self.now a.made) }
        ensures shallow { edited ≢ Err EditFault.Deep → IfOk result (λ a. NotDeep a.reply) }
    {
        let shown = self.shown();
        let tree = match edited {
            Ok(tree) => tree,
            Err(fault) => return refused(fault, shown),
        };
        if shown >= u64::from(self.versions) {
            return Ok(told(Reply::Worn { shown }, shown));
        }
        Ok(Answer {
            reply: Reply::Committed { shown: shown + 1 },
            place: shown + 1,
            made: Some(tree),
            draft: None,
        })
    }

    // The text in the version so many before the latest, while it can be asked for.
    fn old_shown(&self, back: u32, path: &Path) -> Result<Answer, NoMemory>
        ensures answer { IfOk result (λ a. a
            ≡ old_shown self.now.limits (shown self.now) back
            (node path.now (tree_at self.now.trees (shown self.now - back)))) }
        ensures next { IfOk result (λ a. IsNext self.now a.made) }
    {
        let shown = self.shown();
        if u64::from(back) > shown {
            return Ok(told(Reply::Before { shown }, shown));
        }
        let wanted = shown - u64::from(back);
        if back >= self.keep {
            return Ok(told(Reply::Gone { shown, wanted }, shown));
        }
        text_shown(wanted, shown, self.version_back(back).node(path))
    }

    // The number of the latest version.
    fn shown(&self) -> u64
        ensures shown { result ≡ shown self.now }
        ensures small { result ≤ 1_000_000 }
    {
        (self.trees.len() - 1) as u64
    }

    fn latest(&self) -> &Tree
        ensures tree { result.now ≡ tree_at self.now.trees (shown self.now) }
        ensures counted { count result.now ≤ 1_000_000_000 }
    {
        &self.recent[self.recent.len() - 1]
    }

    // The tree of the version so many before the latest.
    fn version_back(&self, back: u32) -> &Tree
        requires there { back ≤ shown self.now }
        requires kept { back < self.now.limits.keep }
        ensures tree { result.now ≡ tree_at self.now.trees (shown self.now - back) }
        ensures counted { count result.now ≤ 1_000_000_000 }
    {
        &self.recent[self.recent.len() - 1 - back as usize]
    }

    fn account(&self, client: u32) -> &Account
        requires { IsClient self.now client }
        ensures { result.now ≡ account_of self.now client }
    {
        &self.accounts[client as usize - 1]
    }

    // Takes the answer in, and gives its reply back.
    fn enter(&mut self, client: u32, answer: Answer) -> Result<Reply, NoMemory>
        requires client { IsClient self.old client }
        requires more { (account_of self.old client).answered < MOST_COMMANDS }
        requires next { IsNext self.old answer.made }
        ensures reply { IfOk result (λ reply. reply ≡ answer.reply) }
        ensures next { OnOk result (self.new ≡ after self.old client answer) }
        ensures err { OnErr result (self.new ≡ self.old) }
    {
        let Answer {
            reply,
            place,
            made,
            draft,
        } = answer;
        if let Some(tree) = made {
            self.add_version(tree)?;
        }
        let account = &mut self.accounts[client as usize - 1];
        if let Some(draft) = draft {
            account.draft = draft;
        }
        account.last = place;
        account.answered += 1;
        Ok(reply)
    }

    fn add_version(&mut self, tree: Tree) -> Result<(), NoMemory>
        requires room { length self.old.trees ≤ self.old.limits.versions }
        requires counted { count tree ≤ 1_000_000_000 }
        ensures ok { OnOk result
            (self.new ≡ record self.old { trees = self.old.trees ++ tree ∷ [] }) }
        ensures err { OnErr result (self.new ≡ self.old) }
    {
        self.trees.push(Snapshot::of(&tree))?;
        if self.recent.push_back(tree).is_err() {
            self.trees.pop();
            return Err(NoMemory);
        }
        if self.recent.len() > self.keep as usize {
            self.recent.pop_front();
        }
        Ok(())
    }
}
