// The limit of horizons.

/// The greatest horizon.
pub const LAST_HORIZON: u32 = 255;
