//! The numbers of command sets, commands and formats in the DOTNET_IPC_V1 protocol.

/// The command set of EventPipe.
pub const EVENT_PIPE: u8 = 2;

/// A session is to end.
pub const STOP_TRACING: u8 = 1;

/// A session is asked for.
pub const COLLECT_TRACING: u8 = 2;

/// A session is asked for, with or without a rundown.
pub const COLLECT_TRACING2: u8 = 3;

/// A session is asked for, with or without a rundown and stacks.
pub const COLLECT_TRACING3: u8 = 4;

/// The command set of the process.
pub const PROCESS: u8 = 4;

/// The process is to describe itself.
pub const PROCESS_INFO: u8 = 0;

/// The command set of replies.
pub const SERVER: u8 = 255;

/// The request is answered.
pub const OK: u8 = 0;

/// The request is refused, with a code.
pub const ERROR: u8 = 255;

/// The format of a session's stream: NetTrace.
pub const NETTRACE: u32 = 1;
