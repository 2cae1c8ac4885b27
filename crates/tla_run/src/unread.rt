//! Why a file is not read.
ghost use Rattle.std.specs.Prelude.{◌≡◌};
ghost use Rattle.tla_run.specs.Unread.{cause_text};

use crate::input::ReadFault;
use std::io::ErrorKind;

/// A file that is not read.
#[derive(Clone, Copy)]
pub struct UnreadFile<'a> {
    pub name: &'a str,
    pub cause: Unread,
    /// The extension of files of its kind.
    pub ending: &'static str,
}

/// Why a file is not read.
#[derive(Clone, Copy, Debug, PartialEq, Eq)]
pub enum Unread {
    /// No file has this name.
    Missing,
    /// A component of its path is no folder.
    Path,
    Folder,
    NotPermitted,
    /// The end isn't reached within 1,000,000 reads.
    Endless,
    Memory,
    /// It can't be opened, or a read fails, for another reason.
    Failed,
}

impl Unread {
    /// Why a file can't be opened.
    pub(crate) fn by_kind(kind: ErrorKind) -> Unread {
        match kind {
            ErrorKind::NotFound => Unread::Missing,
            ErrorKind::NotADirectory => Unread::Path,
            ErrorKind::IsADirectory => Unread::Folder,
            ErrorKind::PermissionDenied => Unread::NotPermitted,
            ErrorKind::OutOfMemory => Unread::Memory,
            _ => Unread::Failed,
        }
    }

    /// Why an open file isn't read to its end.
    pub(crate) fn by_fault(fault: ReadFault) -> Unread {
        match fault {
            ReadFault::Endless => Unread::Endless,
            ReadFault::Memory => Unread::Memory,
            ReadFault::Failed => Unread::Failed,
        }
    }

    /// The line for the user.
    pub fn text(self) -> &'static str
        ensures { result.now ≡ cause_text self }
    {
        match self {
            Unread::Missing => "cause: there is no such file\n",
            Unread::Path => "cause: a part of its path is no folder\n",
            Unread::Folder => "cause: it is a folder\n",
            Unread::NotPermitted => "cause: no permission to read it\n",
            Unread::Endless => "cause: no end within 1000000 reads\n",
            Unread::Memory => "cause: out of memory\n",
            Unread::Failed => "cause: it can't be opened, or a read failed\n",
        }
    }
}
