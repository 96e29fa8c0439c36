//! The limits of a level, each stated once.

/// The largest limit, in seats.
pub const MAX_LIMIT: u32 = 10_000;

/// The most requests of a level.
pub const MAX_REQUESTS: u32 = 10_000;

/// The largest width of a request, in seats. No more seats are ever in use at once, since the limit
/// is smaller and a request that is wider than the limit runs alone.
pub const MAX_WIDTH: u32 = 20_000;

/// The largest cost of a request, which its dispatch is charged, in a unit of the caller's.
pub const MAX_COST: u32 = 4_294_967_295;

/// The most Stations of a level.
pub const MAX_STATIONS: u32 = 64;

/// The most queues of a level.
pub const MAX_QUEUES: u32 = 1_024;

/// The largest length limit of a queue, in requests.
pub const MAX_QUEUE_LENGTH: u32 = 10_000;
