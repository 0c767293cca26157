//! How a server ends, with the writer on which its fault is reported.

ghost use Rattle.std.specs.Prelude.{◌≡◌};
ghost use Rattle.pt_session.specs.Outputs.{output_view};
ghost use Rattle.pt_serve.specs.Served.{ReportsFault, fault_in};

use crate::fault::ServeFault;
use crate::output::report;
use pt_io::Sink;

/// How a server, or a part of it, ended. A fault was reported on `errors` as it came.
#[derive(Drop)]
pub struct ServerEnd<T, E> {
    pub end: Result<T, ServeFault>,
    pub errors: E,
}

/// Reports a fault, if there is one.
pub(crate) fn report_end<T: Drop, E: Sink + Drop>(
    end: Result<T, ServeFault>,
    errors: E,
) -> ServerEnd<T, E>
    requires { E.failures errors ≡ 0 }
    ensures end { result.end ≡ end }
    ensures fault { ReportsFault (output_view E.taken E.flushed E.failures E.rejections) errors
        (fault_in end)
        result.errors }
{
    match end {
        Ok(value) => ServerEnd {
            end: Ok(value),
            errors,
        },
        Err(fault) => {
            let mut errors = errors;
            report(&mut errors, fault);
            ServerEnd {
                end: Err(fault),
                errors,
            }
        }
    }
}

/// Puts another value in place of what something ended with, if it had no fault.
pub(crate) fn ended_with<T: Drop, U: Drop, E: Drop>(
    outcome: ServerEnd<T, E>,
    value: U,
) -> ServerEnd<U, E>
    ensures end { fault_in result.end ≡ fault_in outcome.end }
    ensures errors { result.errors ≡ outcome.errors }
{
    let ServerEnd { end, errors } = outcome;
    match end {
        Ok(_) => ServerEnd {
            end: Ok(value),
            errors,
        },
        Err(fault) => ServerEnd {
            end: Err(fault),
            errors,
        },
    }
}
