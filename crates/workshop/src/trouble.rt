// Why the program ended without a sheet.
use jobs::refusal::Refusal;
use std::io;
use thiserror::Error;

#[derive(Debug, Drop, Error)]
pub enum Trouble {
    #[error("{0}")]
    Refused(#[from] Refusal),
    #[error("{0}")]
    Output(#[from] io::Error),
    #[error("the run came to no plan")]
    NoPlan,
    #[error("the sheet has no room")]
    NoRoom,
}
