// Why the program can fail.
use faults::LayoutFault;
use std::io;
use thiserror::Error;

/// A run that refused its table, or output that could not be written.
// An enum: standard error then names the kind of failure, as `Output(..)`.
#[derive(Debug, Drop, Error)]
pub enum Failure {
    #[error(transparent)]
    Layout(#[from] LayoutFault),
    #[error(transparent)]
    Output(#[from] io::Error),
}
