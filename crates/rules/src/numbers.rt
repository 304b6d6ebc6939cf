// Numbers with a meaning, each with its definition in specs/: the phases (Worker), the limits (Limits), the edition (Make).

// The phases of a put; a take's are these and `TAKING`.
pub const IDLE: u32 = 0;

pub const WINDOW: u32 = 1;

pub const READ: u32 = 2;

pub const CHECK: u32 = 3;

pub const COMMIT: u32 = 4;

pub const SHIFT: u32 = 5;

pub const CONFIRM: u32 = 6;

pub const TAKING: u32 = 8;

pub const TAKE_WINDOW: u32 = TAKING + WINDOW;

pub const TAKE_READ: u32 = TAKING + READ;

pub const TAKE_CHECK: u32 = TAKING + CHECK;

pub const TAKE_COMMIT: u32 = TAKING + COMMIT;

pub const TAKE_SHIFT: u32 = TAKING + SHIFT;

pub const TAKE_CONFIRM: u32 = TAKING + CONFIRM;

// The edition of the shipped calls.
pub const SHIPPED: u32 = 2;

// The first edition whose windows have sizes of their own.
pub const WINDOWED: u32 = 2;

// The limits of the settings, and of the step count.
pub const WIDEST: u32 = 16;

pub const DEEPEST: u32 = 64;

pub const MOST_ROWS: u32 = 1024;

pub const MOST_WORKERS: u32 = 32;

pub const MOST_CELLS: u32 = 4096;

pub const MOST_LIVE: u32 = 16;

pub const STEP_LIMIT: u32 = 4000000000;
