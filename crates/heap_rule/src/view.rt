use crate::known::Known;
use crate::shape::HeapShape;
use cell_words::{Control, Presence};
use core_machine::{CollectorPart, Machine, OwnPart, Taken};
use std::collections::LinkedList;

/// Whose seat it is.
pub enum Role {
    Mutator,
    Collector,
    /// A seat that was joined: it shows nothing.
    Spent,
}

/// What a mutator leaves to the collector's seat when its own is joined.
pub struct Share<P> {
    pub room: u64,
    pub own: OwnPart,
    pub presence: Presence,
    pub known: LinkedList<Known>,
    pub pass: P,
    pub trail: LinkedList<Taken>,
}

/// Where the part of a mutator is: not split off yet, away with its seat, or joined again.
pub enum Place<P> {
    Unsplit,
    Away,
    Joined(Share<P>),
}

/// What a seat knows. It is one type for all seats, so that every event changes it alike; of a
/// mutator's view the collector's parts say nothing, and the other way round.
pub struct View<P> {
    pub shape: HeapShape,
    pub role: Role,

    /// a mutator's: its number and room, the part that no word shows, what it knows of its status
    /// word and of the cells that it holds, and its pass
    pub number: u32,
    pub room: u64,
    pub own: OwnPart,
    pub presence: Presence,
    pub known: LinkedList<Known>,
    pub pass: P,

    /// the collector's: the control as it stored it last, the part that no word shows, and where
    /// the mutators' parts are
    pub control: Control,
    pub part: CollectorPart,
    pub places: LinkedList<Place<P>>,

    /// the collector's: by mutator, whether it was found over; and the core state, once all were,
    /// since from then on no event but the collector's own changes it
    pub over: LinkedList<bool>,
    pub alone: Option<Machine>,

    /// the seat's own events, with what they found
    pub trail: LinkedList<Taken>,
}
