use thiserror::Error;

/// Why the words mean no job.
#[derive(Debug, Drop, Error)]
pub enum WordsFault {
    #[error("out of memory")]
    Memory,
    #[error("words that ask for nothing")]
    Usage,
}
