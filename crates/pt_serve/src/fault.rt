ghost use Rattle.std.specs.Prelude.{◌≢◌};

use pt_hub::CloseFault;
use thiserror::Error;

/// The reason why a server ends before its sessions are served and closed.  [profile]
#[derive(Clone, Copy, Debug, PartialEq, Eq, Error)]
pub enum ServeFault {
    /// The socket could not be made: its path is empty or exists, or the system refused it.
    #[error("bind failed")]
    Bind,
    /// A connection could not be accepted, for a reason that does not pass.
    #[error("accept failed")]
    Accept,
    /// The thread of the clock could not be started.
    #[error("thread failed")]
    Thread,
    /// A write or a flush of `out` failed, or a write took no byte.
    #[error("write failed")]
    Write,
    /// The hub did not close.
    #[error("close failed")]
    Close(CloseFault),
    /// A growth was refused.
    #[error("out of memory")]
    Memory,
}

/// The reason why no more connections are served.
#[derive(Clone, Copy, PartialEq, Eq)]
pub enum HostFault {
    Accept,
    Thread,
    Memory,
}

/// Returns the fault with which a server ends after this one.
pub fn fault_of(fault: HostFault) -> ServeFault
    ensures { result ≢ ServeFault.Write }
{
    match fault {
        HostFault::Accept => ServeFault::Accept,
        HostFault::Thread => ServeFault::Thread,
        HostFault::Memory => ServeFault::Memory,
    }
}
