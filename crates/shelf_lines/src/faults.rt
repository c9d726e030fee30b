// Why a line has no answer of a command.
use std::io;

#[derive(Debug, Drop)]
pub enum Fault {
    // The words are no command; nothing is changed and nothing written.
    Unknown,
    // Standard output cannot be written.
    Output(io::Error),
}

impl From<io::Error> for Fault {
    fn from(error: io::Error) -> Fault {
        Fault::Output(error)
    }
}
