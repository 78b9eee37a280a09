//! Numbers that follow from a first one.
ghost use Rattle.script_files.specs.Draws.{drawn_at, opening_of, state_after};
ghost use Rattle.std.specs.Prelude.{◌≡◌, ◌≤◌, ◌<◌, ◌^◌};

const MODULUS: u64 = 2_147_483_648;

/// The state of a generator of numbers below 2^15.
#[derive(Clone, Copy)]
pub(crate) struct Draws {
    pub(crate) state: u32,
}

impl Draws {
    /// The generator of a client.
    pub(crate) fn new(start: u32, client: u32) -> Draws
        ensures { result.state ≡ opening_of start client }
    {
        let state = (u64::from(start) + u64::from(client)) % MODULUS;
        Draws {
            state: state as u32,
        }
    }

    /// The next number.
    pub(crate) fn draw(&mut self) -> u32
        ensures state { self.new.state ≡ state_after self.old.state }
        ensures drawn { result ≡ drawn_at self.new.state }
    {
        let state = (1_103_515_245 * u64::from(self.state) + 12_345) % MODULUS;
        self.state = state as u32;
        self.state / 65_536
    }
}
