//! The server of a Unix socket: one session for each connection, over one hub.
//!
//! Contracts see what is written to `out`, and what is reported on `errors`. Only tests show which
//! bytes a socket carried, that each connection has its own session over its own stream, that a
//! fault is reported at once, and when the clock is read.
#![tactic(auto)]

mod clock;
mod fault;
mod host;
mod output;
mod polling;
mod recording;
mod remains;
mod server;
mod server_end;

pub use fault::ServeFault;
pub use output::status_of;
pub use recording::TraceFile;
pub use server::serve;
pub use server_end::ServerEnd;
