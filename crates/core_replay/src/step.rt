use core_machine::Event;

/// What a line of a schedule asks for.
#[derive(Clone, Copy, Debug, PartialEq, Eq)]
pub enum Step {
    /// one event
    Take(Event),
    /// the events of the plain collector up to and with its next post
    Plain,
    /// no event: the cell is shown
    Show(u32),
}
