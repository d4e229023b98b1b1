//! Every limit of the filter manager, once and by name.

/// The characters of a name, at most.
pub const NAME: usize = 32;

/// The bytes of a path, at most.
pub const PATH: usize = 255;

/// The characters of an altitude, at most.
pub const ALTITUDE: usize = 64;

/// The loads of filters in one run.
pub const FILTERS: usize = 16;

/// The volumes in one run.
pub const VOLUMES: usize = 8;

/// The instances of one volume that aren't detached, at once.
pub const LIVE: usize = 32;

/// The attaches in one run.
pub const INSTANCES: usize = 4_096;

/// The operations that aren't collected, at once.
pub const OPERATIONS: usize = 256;

/// The open handles and the creates under way, at once.
pub const HANDLES: usize = 4_096;

/// The contexts that aren't cleaned up, at once.
pub const CONTEXTS: usize = 65_536;

/// The bytes of a context's body, at most.
pub const BODY: usize = 4_096;

/// The references in one hand, at most.
pub const REFERENCES: usize = 16;

/// The bytes of one read, write or listing, at most.
pub const TRANSFER: u64 = 32_768;

/// The largest end of a file that a request names: offset and length, or a new size.
pub const END: u64 = 1 << 40;

/// The passes that one seat has on one volume, at once.
pub const PASSES: u16 = 1_000;

/// The workers of a server.
pub const SERVER_WORKERS: usize = 16;

/// The connections of a server, at once.
pub const CONNECTIONS: usize = 32;

/// The hands at once: those of a server's workers and of its connections.
pub const WORKERS: usize = 48;

/// The shares of the ledger behind a manager: one for each hand, and its own.
pub const PARTS: u64 = 49;

/// The places of a server's queue: every operation, and a stop for each worker.
pub const JOBS: usize = 272;

/// The entries of an operation: a preoperation and a postoperation (or a drain) of each instance, and the base.
pub const ENTRIES: usize = 65;

/// The turns of an operation, at most: one for each entry, and its end.
pub const TURNS: usize = 66;

/// The workers that a script names.
pub const SCRIPT_WORKERS: u64 = 16;

/// The bytes of a script's line, at most.
pub const LINE: usize = 4_096;

/// The lines of a script, at most.
pub const LINES: u32 = 100_000;

const _: () = prove!(WORKERS == SERVER_WORKERS + CONNECTIONS);

const _: () = prove!(PARTS == WORKERS as u64 + 1);

const _: () = prove!(JOBS == OPERATIONS + SERVER_WORKERS);

const _: () = prove!(ENTRIES == 2 * LIVE + 1);

const _: () = prove!(TURNS == ENTRIES + 1);
