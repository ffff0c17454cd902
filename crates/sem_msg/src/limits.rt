/// How many selectors a VPE has.
pub const SELECTORS: usize = 256;

/// How many endpoints a VPE has.
pub const ENDPOINTS: usize = 16;

/// The most asks that can wait for a VPE.
pub const ASKS: usize = 128;

/// The most calls of a setup.
pub const CALLS: usize = 20_000;

/// The largest window of a link.
pub const WINDOW: u32 = 32;
