//! Why a call of the outside gave no answer.
ghost use Rattle.std.specs.Prelude.{◌≡◌, if◌then◌else◌};
ghost use Rattle.fb_files.specs.IoError.{is_refused_memory};
ghost use Rattle.fb_files.specs.declared.error.LoadError.TheVariants as load;
ghost use Rattle.fb_files.specs.declared.error.WriteError.TheVariants as write;

use std::alloc::AllocError;
use std::io::{self, ErrorKind};
use thiserror::Error;

/// Why a file was not loaded.
#[derive(Clone, Copy, Debug, PartialEq, Eq, Error)]
pub enum LoadError {
    /// The system answered with an error, or there is no such file.
    #[error("the file can't be read")]
    Failed,
    /// The file has more bytes than the caller's limit.
    #[error("the file is too long")]
    TooLong,
    /// Memory was refused.
    #[error("out of memory")]
    Memory,
}

impl From<AllocError> for LoadError {
    ghost from_gives = { λ _ e. e ≡ load.Memory };

    fn from(_: AllocError) -> Self {
        LoadError::Memory
    }
}

impl From<io::Error> for LoadError {
    ghost from_gives = { λ error e. e ≡ (if is_refused_memory error then load.Memory else load.Failed) };

    fn from(error: io::Error) -> Self {
        if is_refused_memory(&error) {
            LoadError::Memory
        } else {
            LoadError::Failed
        }
    }
}

/// Why bytes were not written.
#[derive(Clone, Copy, Debug, PartialEq, Eq, Error)]
pub enum WriteError {
    /// The system answered with an error, or took nothing.
    #[error("the bytes can't be written")]
    Failed,
    /// Memory was refused.
    #[error("out of memory")]
    Memory,
}

impl From<AllocError> for WriteError {
    ghost from_gives = { λ _ e. e ≡ write.Memory };

    fn from(_: AllocError) -> Self {
        WriteError::Memory
    }
}

impl From<io::Error> for WriteError {
    ghost from_gives = { λ error e. e ≡ (if is_refused_memory error then write.Memory else write.Failed) };

    fn from(error: io::Error) -> Self {
        if is_refused_memory(&error) {
            WriteError::Memory
        } else {
            WriteError::Failed
        }
    }
}

// An allocation was refused before the system was asked.
fn is_refused_memory(error: &io::Error) -> bool
    ensures { result ≡ is_refused_memory error.now }
{
    matches!(error.kind(), ErrorKind::OutOfMemory) && error.raw_os_error().is_none()
}
