//! The least and the greatest that each number may be.
use cell_words::{GREATEST_CYCLES, GREATEST_POSITION};
use run_limits::MOST_CLIENTS;

/// The ends of a range, which belong to it.
#[derive(Clone, Copy)]
pub(crate) struct Limits {
    pub(crate) least: u32,
    pub(crate) most: u32,
}

pub(crate) const CELLS: Limits = Limits {
    least: 64,
    most: GREATEST_POSITION,
};

pub(crate) const MINOR: Limits = Limits {
    least: 4_096,
    most: 262_144,
};

pub(crate) const KEEP: Limits = Limits {
    least: 1,
    most: 100,
};

pub(crate) const VERSIONS: Limits = Limits {
    least: 1,
    most: 1_000_000,
};

pub(crate) const CYCLES: Limits = Limits {
    least: 0,
    most: GREATEST_CYCLES,
};

pub(crate) const START: Limits = Limits {
    least: 0,
    most: 2_147_483_647,
};

pub(crate) const CLIENTS: Limits = Limits {
    least: 1,
    most: MOST_CLIENTS,
};

pub(crate) const COMMANDS: Limits = Limits {
    least: 1,
    most: 10_000,
};
