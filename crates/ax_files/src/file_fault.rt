//! Why a store's files could not be used, in words for people.
ghost use Rattle.std.specs.Prelude.{◌≡◌, chars};
ghost use Rattle.std.specs.Char.{is_control};
ghost use Rattle.std.specs.List.{list_any};
ghost use Rattle.ax_files.specs.Lines.{ending_text, call_text, defect_text};

use ax_disk::Extent;
use std::fmt::{self, Display, Formatter};
use std::io;

/// A call on the system.
#[derive(Clone, Copy, Debug, PartialEq, Eq)]
pub enum FileCall {
    Open,
    Lock,
    Length,
    Read,
    Write,
    Cut,
    Sync,
}

/// What is at the place of a store's root.
#[derive(Clone, Copy, Debug, PartialEq, Eq)]
pub enum RootState {
    /// There is no such file.
    Absent,
    /// A file of fewer bytes than a whole root has.
    Short,
    /// A file that is long enough, and has no open slot.
    NoSlot,
    /// A root with an open slot, whatever that names.
    HasSlot,
}

/// Why a call on a store's files failed.
#[derive(Clone, Copy, Debug)]
pub enum FileFault {
    /// The system failed this call on this file.
    Call {
        extent: Extent,
        call: FileCall,
        error: io::Error,
    },
    /// The system failed to open or to sync the folder of the files.
    Folder {
        error: io::Error,
    },
    /// Another program has locked this file.
    Locked {
        extent: Extent,
    },
    /// The root would stand for a fresh store, and forming it would cut this area, which holds more.
    Rootless {
        root: RootState,
        area: Extent,
    },
    /// What is at the place of the root is none of a store.
    Foreign,
    /// The root has an open slot, and this area is missing.
    Arealess {
        area: Extent,
    },
    /// A file is longer than 2^62 bytes, or a write would make it so.
    Bound {
        extent: Extent,
    },
    /// No store is attached.
    Detached,
    /// A write, a cut or a sync had failed before.
    Stopped,
}

/// A fault of the store of this name, as one line without its newline.
#[derive(Clone, Copy)]
pub struct Explained<'a> {
    pub store: &'a str,
    pub fault: FileFault,
}

/// The name of a store within a line: quoted where it has control characters, as a newline.
#[derive(Clone, Copy)]
struct Named<'a> {
    store: &'a str,
}

/// Whether a text has a control character.
fn has_control(text: &str) -> bool
    ensures { result ≡ list_any is_control (chars text.now) }
{
    text.chars().any(|character| character.is_control())
}

impl<'a> Display for Named<'a> {
    ghost use Rattle.ax_files.specs.Lines.{name_text};

    ghost output = { λ name. name_text name.store.now };

    fn fmt<W: fmt::Write>(&self, f: &mut Formatter<W>) -> fmt::Result {
        if has_control(self.store) {
            write!(f, "{:?}", self.store)
        } else {
            f.write_str(self.store)
        }
    }
}

impl FileCall {
    fn word(self) -> &'static str
        ensures { result.now ≡ call_text self }
    {
        match self {
            FileCall::Open => "open",
            FileCall::Lock => "lock",
            FileCall::Length => "length",
            FileCall::Read => "read",
            FileCall::Write => "write",
            FileCall::Cut => "cut",
            FileCall::Sync => "sync",
        }
    }
}

/// What the name of a store's file ends with, behind the name of the store and a dot.
pub(crate) fn ending(extent: Extent) -> &'static str
    ensures { result.now ≡ ending_text extent }
{
    match extent {
        Extent::Root => "root",
        Extent::A => "a",
        Extent::B => "b",
    }
}

/// What is wrong with a root that stands for a fresh store.
fn defect(root: RootState) -> &'static str
    ensures { result.now ≡ defect_text root }
{
    match root {
        RootState::Absent => "is missing",
        RootState::Short => "is too short for a root",
        RootState::NoSlot | RootState::HasSlot => "is no root of a store",
    }
}

impl<'a> Explained<'a> {
    ghost use Rattle.std.specs.Fmt.{DisplaysOnOk};
    ghost use Rattle.ax_files.specs.Lines.{words_text, system_error};

    /// The error of the system at the end of the line.
    fn system_error(&self) -> Option<io::Error>
        ensures { result ≡ system_error self.now.fault }
    {
        match self.fault {
            FileFault::Call { error, .. } | FileFault::Folder { error } => Some(error),
            _ => None,
        }
    }

    /// Writes the line but for an error of the system at its end.
    fn write_words<W: fmt::Write>(&self, f: &mut Formatter<W>) -> fmt::Result
        ensures { DisplaysOnOk W.write_str_gives f.old result
            (words_text self.now.store.now self.now.fault) f.new }
    {
        let store = Named { store: self.store };
        match self.fault {
            FileFault::Call { extent, call, .. } => {
                write!(f, "{store}.{}: {}: ", ending(extent), call.word())
            }
            FileFault::Folder { .. } => write!(f, "the folder of {store}.root: sync: "),
            FileFault::Locked { extent } => {
                write!(
                    f,
                    "{store}.{}: another program holds the store",
                    ending(extent)
                )
            }
            FileFault::Rootless { root, area } => write!(
                f,
                "{store}.root {}, and {store}.{} is not empty: put back the {store}.root that belongs to it; to begin anew, move the three files away",
                defect(root),
                ending(area)
            ),
            FileFault::Foreign => write!(
                f,
                "{store}.root is no root of a store: put back the {store}.root of the store, or take another name"
            ),
            FileFault::Arealess { area } => write!(
                f,
                "{store}.{} is missing, and {store}.root needs it: put it back; to begin anew, move the three files away",
                ending(area)
            ),
            FileFault::Bound { extent } => {
                write!(f, "{store}.{}: longer than 2^62 bytes", ending(extent))
            }
            FileFault::Detached => write!(f, "{store}: no store is attached"),
            FileFault::Stopped => write!(f, "{store}: an earlier call had failed"),
        }
    }
}

impl<'a> Display for Explained<'a> {
    ghost use Rattle.std.specs.Fmt.{DisplaysOnOk, DisplaysStyledOnOk};
    ghost use Rattle.std.specs.Prelude.{None};
    ghost use Rattle.ax_files.specs.Lines.{line_text, words_text, BeginsOnOk};

    ghost output = { λ line. line_text line.store.now line.fault };

    fn fmt<W: fmt::Write>(&self, f: &mut Formatter<W>) -> fmt::Result
        ensures writes { DisplaysOnOk W.write_str_gives f.old result
            (line_text self.now.store.now self.now.fault) f.new }
        ensures styled { DisplaysStyledOnOk W.write_str_gives f.old result
            None f.new }
        ensures begins { BeginsOnOk W.write_str_gives f.old result
            (words_text self.now.store.now self.now.fault) }
    {
        self.write_words(f)?;
        match self.system_error() {
            Some(error) => write!(f, "{error}"),
            None => Ok(()),
        }
    }
}
