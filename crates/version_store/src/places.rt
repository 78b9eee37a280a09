/// Places that each call asks for. A walk back holds one for each version that it passes, of which
/// at most 100 stay, and no call holds many more.
pub const STORE_PLACES: usize = 128;
