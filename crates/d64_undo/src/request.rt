//! Requests to a session, and whole runs of them.
ghost use Rattle.std.specs.Prelude.{◌≡◌, length, map, All, IfOk, OnErr};
ghost use Rattle.d64_history.specs.History.{present_image};
ghost use Rattle.d64_undo.specs.Request.{asked_by, IsAskedOf, Step, Run};

use crate::session::{NothingToRedo, NothingToUndo, Session};
use d64_dos::{Command, Refusal, Reply};
use std::alloc::{AllocError, Global};

/// A request to a session.
#[derive(Drop)]
pub enum Request {
    /// To run a command on the present image.
    Apply(Command),
    Undo,
    Redo,
}

/// The outcome of a request to a session.
#[derive(Clone, Copy, Debug, PartialEq, Eq)]
pub enum RequestOutcome {
    Accepted(Reply),
    Refused(Refusal),
    Undone,
    Redone,
    NothingToUndo,
    NothingToRedo,
}

/// Runs one request, and returns its outcome.
fn run_one(session: &mut Session, request: &Request) -> RequestOutcome
    requires { IsAskedOf (present_image session.old) (asked_by request.now) }
    ensures step { Step session.old (asked_by request.now) result session.new }
    ensures kind { length (present_image session.new) ≡ length (present_image session.old) }
{
    match request {
        Request::Apply(command) => match session.run(command) {
            Ok(reply) => RequestOutcome::Accepted(reply),
            Err(refusal) => RequestOutcome::Refused(refusal),
        },
        Request::Undo => match session.undo() {
            Ok(()) => RequestOutcome::Undone,
            Err(NothingToUndo) => RequestOutcome::NothingToUndo,
        },
        Request::Redo => match session.redo() {
            Ok(()) => RequestOutcome::Redone,
            Err(NothingToRedo) => RequestOutcome::NothingToRedo,
        },
    }
}

/// Runs the requests one after another, and returns their outcomes. If there is no memory for the
/// outcomes themselves, no request has run. The image has the block that each block write names.
pub fn run_all(
    alloc: Global,
    session: &mut Session,
    requests: &[Request],
) -> Result<Vec<RequestOutcome>, AllocError>
    requires { All (λ request. IsAskedOf (present_image session.old) (asked_by request)) requests.now }
    ensures ran { IfOk result (λ outcomes. Run session.old (map asked_by requests.now) outcomes.items session.new) }
    ensures unchanged { OnErr result (session.new ≡ session.old) }
{
    let mut outcomes = Vec::with_capacity(alloc, requests.len())?;
    for request in requests {
        outcomes.push(run_one(session, request)).unwrap();
    }
    Ok(outcomes)
}
