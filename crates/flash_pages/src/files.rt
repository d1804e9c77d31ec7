//! A board on two files, standard input and standard output. It tells nothing of what they hold.
ghost use Rattle.std.specs.Prelude.{◌≡◌, ◌≤◌, length};
ghost use Rattle.flash_pages.specs.Board.{Rose};

use crate::{Board, Failed, raised};
use std::fs::{Files, OpenFile, OpenOptions};
use std::io;
use std::io::{Read, Seek, SeekFrom, Write};

/// A board on two files, standard input and standard output. Page p of a flash stands at byte 256 * p of its file.
///
/// The first call on a flash opens both files for reading and writing, and makes them where they are missing. Each program
/// returns once its bytes are on the disk (`sync_data`), so that a page that was programmed outlives a power cut.
/// A failed or a short read, write, seek or sync is `Failed`, and so is a write of nothing.
#[derive(Drop)]
pub struct FileBoard<'a, R: Files + Input + Print> {
    rt: &'a R,
    prog: &'a str,
    ext: &'a str,
    files: Option<(R::File, R::File)>,
    flash_faults: u64,
    line_faults: u64,
}

// Reads the page at its place in the file.
fn read_page<F: Read + Seek>(file: &mut F, page: u16, into: &mut [u8; 256]) -> io::Result<()>
    ensures { length into.new ≡ 256 }
{
    file.seek(SeekFrom::Start(256 * page as u64))?;
    file.read_exact(into.as_mut_slice())
}

// Writes the page at its place in the file, and waits until it is on the disk.
fn write_page<F: Write + Seek + OpenFile>(
    file: &mut F,
    page: u16,
    from: &[u8; 256],
) -> io::Result<()> {
    file.seek(SeekFrom::Start(256 * page as u64))?;
    file.write_all(from.as_slice())?;
    file.sync_data()
}

// Opens a file for reading and writing, and makes it where it is missing.
fn open_flash<R: Files>(rt: &R, path: &str) -> io::Result<R::File> {
    OpenOptions::new()
        .read(true)
        .write(true)
        .create(true)
        .open(rt, path)
}

impl<'a, R: Files + Input + Print> FileBoard<'a, R> {
    ghost use Rattle.flash_pages.specs.Files.{file_view};

    /// A board on the files at these two paths, of program flash and of external flash. It opens nothing yet.
    pub fn new(rt: &'a R, prog: &'a str, ext: &'a str) -> FileBoard<'a, R>
        ensures flash { (file_view result).flash_faults ≡ 0 }
        ensures line { (file_view result).line_faults ≡ 0 }
    {
        FileBoard {
            rt,
            prog,
            ext,
            files: None,
            flash_faults: 0,
            line_faults: 0,
        }
    }

    // Both files, opened where they aren't yet.
    fn open_both(&mut self) -> io::Result<()>
        ensures flash { self.new.flash_faults ≡ self.old.flash_faults }
        ensures line { self.new.line_faults ≡ self.old.line_faults }
    {
        if self.files.is_none() {
            let prog = open_flash(self.rt, self.prog)?;
            let ext = open_flash(self.rt, self.ext)?;
            self.files = Some((prog, ext));
        }
        Ok(())
    }

    // Reads a page of program flash.
    fn read_prog(&mut self, page: u16, into: &mut [u8; 256]) -> io::Result<()>
        ensures flash { self.new.flash_faults ≡ self.old.flash_faults }
        ensures line { self.new.line_faults ≡ self.old.line_faults }
        ensures size { length into.new ≡ 256 }
    {
        self.open_both()?;
        match &mut self.files {
            Some(files) => read_page(&mut files.0, page, into),
            None => Err(io::Error::from(io::ErrorKind::NotFound)),
        }
    }

    // Writes a page of program flash.
    fn write_prog(&mut self, page: u16, from: &[u8; 256]) -> io::Result<()>
        ensures flash { self.new.flash_faults ≡ self.old.flash_faults }
        ensures line { self.new.line_faults ≡ self.old.line_faults }
    {
        self.open_both()?;
        match &mut self.files {
            Some(files) => write_page(&mut files.0, page, from),
            None => Err(io::Error::from(io::ErrorKind::NotFound)),
        }
    }

    // Reads a page of external flash.
    fn read_ext(&mut self, page: u16, into: &mut [u8; 256]) -> io::Result<()>
        ensures flash { self.new.flash_faults ≡ self.old.flash_faults }
        ensures line { self.new.line_faults ≡ self.old.line_faults }
        ensures size { length into.new ≡ 256 }
    {
        self.open_both()?;
        match &mut self.files {
            Some(files) => read_page(&mut files.1, page, into),
            None => Err(io::Error::from(io::ErrorKind::NotFound)),
        }
    }

    // Writes a page of external flash.
    fn write_ext(&mut self, page: u16, from: &[u8; 256]) -> io::Result<()>
        ensures flash { self.new.flash_faults ≡ self.old.flash_faults }
        ensures line { self.new.line_faults ≡ self.old.line_faults }
    {
        self.open_both()?;
        match &mut self.files {
            Some(files) => write_page(&mut files.1, page, from),
            None => Err(io::Error::from(io::ErrorKind::NotFound)),
        }
    }

    // A call on a flash that failed.
    fn flash_fault(&mut self) -> Failed
        ensures rose { Rose self.old.flash_faults self.new.flash_faults }
        ensures later { self.old.flash_faults ≤ self.new.flash_faults }
        ensures line { self.new.line_faults ≡ self.old.line_faults }
    {
        self.flash_faults = raised(self.flash_faults);
        Failed
    }

    // A call on the line that failed.
    fn line_fault(&mut self) -> Failed
        ensures rose { Rose self.old.line_faults self.new.line_faults }
        ensures later { self.old.line_faults ≤ self.new.line_faults }
        ensures flash { self.new.flash_faults ≡ self.old.flash_faults }
    {
        self.line_faults = raised(self.line_faults);
        Failed
    }
}

impl<'a, R: Files + Input + Print> Board for FileBoard<'a, R> {
    ghost use Rattle.flash_pages.specs.Files.{file_view};

    ghost view = { file_view };

    fn ext_read(&mut self, page: u16, into: &mut [u8; 256]) -> Result<(), Failed> {
        match self.read_ext(page, into) {
            Ok(()) => Ok(()),
            Err(_) => Err(self.flash_fault()),
        }
    }

    fn ext_program(&mut self, page: u16, from: &[u8; 256]) -> Result<(), Failed> {
        match self.write_ext(page, from) {
            Ok(()) => Ok(()),
            Err(_) => Err(self.flash_fault()),
        }
    }

    fn prog_read(&mut self, page: u16, into: &mut [u8; 256]) -> Result<(), Failed> {
        match self.read_prog(page, into) {
            Ok(()) => Ok(()),
            Err(_) => Err(self.flash_fault()),
        }
    }

    fn prog_program(&mut self, page: u16, from: &[u8; 256]) -> Result<(), Failed> {
        match self.write_prog(page, from) {
            Ok(()) => Ok(()),
            Err(_) => Err(self.flash_fault()),
        }
    }

    fn receive(&mut self, into: &mut [u8]) -> Result<usize, Failed> {
        match self.rt.reader().read(into) {
            Ok(count) => Ok(count),
            Err(_) => Err(self.line_fault()),
        }
    }

    fn send(&mut self, from: &[u8]) -> Result<usize, Failed> {
        if from.is_empty() {
            return Ok(0);
        }
        match self.rt.write_some(from) {
            Ok(0) => Err(self.line_fault()),
            Ok(count) => Ok(count),
            Err(_) => Err(self.line_fault()),
        }
    }
}
