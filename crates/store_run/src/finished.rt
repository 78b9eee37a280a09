use cell_heap::{Image, Passes};
use client_history::Documents;
use doc_model::{Log, Totals};

/// The outcome of a run: what each client was answered, the heap at its close, what all seats had
/// then, and the totals.
#[derive(Drop)]
pub struct Finished {
    pub logs: Vec<Log>,
    pub image: Image,
    pub passes: Passes<Documents>,
    pub totals: Totals,
}
