//! The file of an area.

ghost use Rattle.std.specs.Prelude.{◌≡◌, ◌≤◌, ◌+◌, max, length, OnOk};

use rec_bytes::Failed;
use std::fs::OpenFile;
use std::io::{self, ErrorKind};
use std::os::unix::fs::FileExt;

/// The file of an area and its length. One that isn't there has no bytes, and can't be written; one that couldn't be opened
/// has none either, and each call on it fails.
#[derive(Drop)]
pub(crate) struct AreaFile<F: FileExt + OpenFile + Drop> {
    pub(crate) file: Option<F>,
    pub(crate) len: u64,
    // Whether its name is settled in its folder.
    pub(crate) is_named: bool,
    // Whether there is no such file, and so nothing of it to read or to settle.
    is_absent: bool,
}

impl<F: FileExt + OpenFile + Drop> AreaFile<F> {
    pub(crate) fn new(file: Option<F>, is_named: bool) -> AreaFile<F> {
        let len = match &file {
            Some(file) => file.metadata().map(|found| found.len()),
            None => Ok(0),
        };
        match len {
            Ok(len) => AreaFile {
                file,
                len,
                is_named,
                is_absent: false,
            },
            Err(_) => AreaFile {
                file: None,
                len: 0,
                is_named,
                is_absent: false,
            },
        }
    }

    // A file that was opened, or why it wasn't.
    pub(crate) fn opened(found: io::Result<F>, is_named: bool) -> AreaFile<F> {
        match found {
            Ok(file) => AreaFile::new(Some(file), is_named),
            Err(fault) => AreaFile {
                file: None,
                len: 0,
                is_named,
                is_absent: fault.kind() == ErrorKind::NotFound,
            },
        }
    }

    // Reads to the end of `out`, in as many pieces as it takes.
    pub(crate) fn read(&self, at: u64, out: &mut [u8]) -> Result<(), Failed> {
        if self.is_absent && out.is_empty() {
            return Ok(());
        }
        let Some(file) = &self.file else {
            return Err(Failed);
        };
        file.read_exact_at(out, at).map_err(|_| Failed)
    }

    // Writes all bytes, in as many pieces as it takes.
    pub(crate) fn write(&mut self, at: u64, bytes: &[u8]) -> Result<(), Failed>
        ensures least { self.old.len ≤ self.new.len }
        ensures most { self.new.len ≤ max self.old.len (at + length bytes.now) }
        ensures whole { OnOk result (self.new.len ≡ max self.old.len (at + length bytes.now)) }
    {
        let end = at.checked_add(bytes.len() as u64);
        let (Some(file), Some(end)) = (&self.file, end) else {
            return Err(Failed);
        };
        if file.write_all_at(bytes, at).is_err() {
            return Err(Failed);
        }
        self.len = self.len.max(end);
        Ok(())
    }

    pub(crate) fn cut(&mut self, len: u64) -> Result<(), Failed>
        requires inside { len ≤ self.old.len }
        ensures least { len ≤ self.new.len }
        ensures most { self.new.len ≤ self.old.len }
        ensures whole { OnOk result (self.new.len ≡ len) }
    {
        let Some(file) = &self.file else {
            return Err(Failed);
        };
        if file.set_len(len).is_err() {
            return Err(Failed);
        }
        self.len = len;
        Ok(())
    }

    // Settles the file's bytes, and the first time its name in the folder.
    pub(crate) fn sync(&mut self, folder: &Option<F>) -> Result<(), Failed>
        ensures same { self.new.len ≡ self.old.len }
    {
        if self.is_absent {
            return Ok(());
        }
        if !sync_file(&self.file) {
            return Err(Failed);
        }
        if !self.is_named {
            if !sync_folder(folder) {
                return Err(Failed);
            }
            self.is_named = true;
        }
        Ok(())
    }
}

// Settles a file's bytes, and says whether that was done.
pub(crate) fn sync_file<F: OpenFile>(file: &Option<F>) -> bool {
    match file {
        Some(file) => file.sync_data().is_ok(),
        None => false,
    }
}

// Settles the names of a folder, and says whether that was done.
fn sync_folder<F: OpenFile>(folder: &Option<F>) -> bool {
    match folder {
        Some(folder) => folder.sync_all().is_ok(),
        None => false,
    }
}
