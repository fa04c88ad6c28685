/// The steps of a unit: one per statement, and one per test of a loop.
pub const STEP_LIMIT: u32 = 10000;

/// The frames that may be open at once, those of the units above included.
pub const DEPTH_LIMIT: u16 = 32;

/// The units of its own that a unit may ask for.
pub const UNIT_LIMIT: u32 = 64;

/// The grains that a unit may hold.
pub const GRAIN_LIMIT: usize = 64;
