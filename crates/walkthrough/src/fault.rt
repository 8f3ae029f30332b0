// Why a chapter could not be written.
use std::alloc::AllocError;
use std::{fmt, io};

#[derive(Clone, Copy, Debug)]
pub enum Fault {
    // There is no memory for the text.
    Memory,
    // A step did not give what it is here to show.
    Step,
    // The text could not be printed.
    Output,
}

impl From<AllocError> for Fault {
    fn from(_: AllocError) -> Fault {
        Fault::Memory
    }
}

// A `String` refuses text only for want of memory.
impl From<fmt::Error> for Fault {
    fn from(_: fmt::Error) -> Fault {
        Fault::Memory
    }
}

impl From<io::Error> for Fault {
    fn from(_: io::Error) -> Fault {
        Fault::Output
    }
}
