// Why the program can fail.
use faults::{LayoutFault, LinkFault};
use std::io;
use thiserror::Error;

/// An order that was refused, a board that refused a call, or output that could not be written.
// An enum: standard error then names the kind of failure, as `Output(..)`.
#[derive(Debug, Drop, Error)]
pub enum Failure {
    #[error(transparent)]
    Layout(#[from] LayoutFault),
    #[error(transparent)]
    Link(#[from] LinkFault),
    #[error(transparent)]
    Output(#[from] io::Error),
}
