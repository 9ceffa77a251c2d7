//! Cases, and the lines that they are written in.
//!
//! A file of cases is read line by line. A line is empty, or `#` and a remark, or one of these:
//!
//!     case NAME              begins a case
//!     words TEXT ..          the next words of the run, one blank between them
//!     word TEXT              the next word, which is the whole rest of the line
//!     file PATH              a file of the folder, whose bytes follow
//!     files NUMBER           so many files 00000.php, 00001.php and on, each of the bytes that follow
//!     tree-fails NUMBER      a call of the folder that fails: 0 is the listing, 1 the first read
//!     sink-room NUMBER       how many bytes the sink takes in all
//!     sink-piece NUMBER      how many it takes in a call, at least one
//!     sink-fails NUMBER      a call of the sink that fails, counted from 0
//!     status NUMBER          what the run is to come to
//!     tally FILES REUSED ANALYSED
//!     about TEXT             the line about the run
//!     tree-faults NUMBER     how many calls of the folder are to have failed
//!     sink-faults NUMBER
//!     output                 what the sink is to hold, whose bytes follow
//!
//! Bytes are given by lines `|TEXT`, a text with a line feed behind it, `+TEXT`, a text alone, `hex DIGITS`, and
//! `fill NUMBER DIGITS`, so many times the bytes of the digits. What a case leaves out of the sink is ample.

ghost use Rattle.std.specs.Prelude.{◌≡◌, ◌<◌, IfOk, string_bytes};

use hex::FromHexError;
use std::alloc::{AllocError, AllocFailed, Global};
use std::fmt;

// Room for each report but one that is meant to find none.
const AMPLE: usize = 65_536;

/// A folder, the words of a run over it, what fails, and what is wanted.
#[derive(Drop)]
pub struct Case {
    pub name: String,
    pub words: Vec<String>,
    pub files: Vec<Files>,
    /// The numbers of the calls of the folder that fail, from 0.
    pub tree_fails: Vec<u64>,
    pub sink: SinkForm,
    pub wanted: Wanted,
    // whether lines of bytes are those of the wanted output
    is_at_output: bool,
}

/// A file, or files of the same bytes.
#[derive(Drop)]
pub struct Files {
    pub place: Place,
    pub bytes: Vec<u8>,
}

#[derive(Drop)]
pub enum Place {
    At(String),
    /// So many files, whose names are numbers of five digits from 0 on.
    Numbered(u64),
}

#[derive(Drop)]
pub struct SinkForm {
    /// How many bytes it takes in all.
    pub room: usize,
    /// How many it takes in a call.
    pub piece: usize,
    /// The numbers of its calls that fail, from 0.
    pub fails: Vec<u64>,
    ghost some: { 0 < piece },
}

/// What a run is to come to, as text.
#[derive(Drop)]
pub struct Wanted {
    pub status: String,
    /// Three numbers: files, reused and analysed.
    pub tally: String,
    pub about: String,
    pub output: Vec<u8>,
    /// Where the case says nothing of it, each number is right.
    pub tree_faults: Option<String>,
    pub sink_faults: Option<String>,
}

/// Where cases could not be read, and why.
#[derive(Clone, Copy, Debug, PartialEq, Eq)]
pub struct Unread {
    /// The number of the line, from 1.
    pub line: usize,
    pub why: Why,
}

#[derive(Clone, Copy, Debug, PartialEq, Eq)]
pub enum Why {
    /// The line is none of a case.
    Form,
    OutOfMemory,
}

impl fmt::Display for Unread {
    ghost use Rattle.std.specs.Prelude.{Some};
    ghost use Rattle.stan_case_text.specs.Unread.{unread_text};

    ghost output = { λ unread. Some (unread_text unread) };

    fn fmt<W: fmt::Write>(&self, f: &mut fmt::Formatter<W>) -> fmt::Result {
        let line = self.line;
        match self.why {
            Why::Form => write!(f, "line {line} is none of a case"),
            Why::OutOfMemory => write!(f, "out of memory at line {line}"),
        }
    }
}

impl From<AllocError> for Why {
    fn from(_: AllocError) -> Self {
        Why::OutOfMemory
    }
}

impl<T: Drop> From<AllocFailed<T>> for Why {
    fn from(_: AllocFailed<T>) -> Self {
        Why::OutOfMemory
    }
}

impl From<FromHexError> for Why {
    fn from(error: FromHexError) -> Self {
        match error {
            FromHexError::OutOfMemory => Why::OutOfMemory,
            _ => Why::Form,
        }
    }
}

impl Case {
    pub fn new(alloc: Global, name: &str) -> Result<Case, AllocError>
        ensures { IfOk result (λ case. string_bytes case.name ≡ name.now) }
    {
        Ok(Case {
            name: String::from_str(alloc, name)?,
            words: Vec::new(alloc),
            files: Vec::new(alloc),
            tree_fails: Vec::new(alloc),
            sink: SinkForm {
                room: AMPLE,
                piece: AMPLE,
                fails: Vec::new(alloc),
            },
            wanted: Wanted {
                status: String::new(alloc),
                tally: String::new(alloc),
                about: String::new(alloc),
                output: Vec::new(alloc),
                tree_faults: None,
                sink_faults: None,
            },
            is_at_output: false,
        })
    }

    /// Takes a line behind the one that begins the case.
    pub fn take_line(&mut self, alloc: Global, line: &str) -> Result<(), Why>
        ensures { self.new.name ≡ self.old.name }
    {
        if let Some(text) = line.strip_prefix('|') {
            self.push_bytes(text.as_bytes())?;
            return self.push_bytes(b"\n");
        }
        if let Some(text) = line.strip_prefix('+') {
            return self.push_bytes(text.as_bytes());
        }
        let (key, rest) = line.split_once(' ').unwrap_or((line, ""));
        self.take_given(alloc, key, rest)
    }

    // What is given to a run.
    fn take_given(&mut self, alloc: Global, key: &str, rest: &str) -> Result<(), Why>
        ensures { self.new.name ≡ self.old.name }
    {
        match key {
            "words" => self.push_words(alloc, rest)?,
            "word" => self.words.push(String::from_str(alloc, rest)?)?,
            "file" => self.push_files(alloc, Place::At(String::from_str(alloc, rest)?))?,
            "files" => self.push_files(alloc, Place::Numbered(number_of(rest)?))?,
            "hex" => self.push_bytes(hex::decode(alloc, rest)?.as_slice())?,
            "fill" => self.push_fill(alloc, rest)?,
            "tree-fails" => self.tree_fails.push(number_of(rest)?)?,
            "sink-room" => self.sink.room = number_of(rest)? as usize,
            "sink-piece" => self.sink.take_piece(number_of(rest)?)?,
            "sink-fails" => self.sink.fails.push(number_of(rest)?)?,
            "output" => self.is_at_output = true,
            _ => self.wanted.take(alloc, key, rest)?,
        }
        Ok(())
    }

    fn push_words(&mut self, alloc: Global, rest: &str) -> Result<(), Why>
        ensures { self.new.name ≡ self.old.name }
    {
        for word in rest.split(' ') {
            self.words.push(String::from_str(alloc, word)?)?;
        }
        Ok(())
    }

    fn push_bytes(&mut self, bytes: &[u8]) -> Result<(), Why>
        ensures { self.new.name ≡ self.old.name }
    {
        if self.is_at_output {
            self.wanted.output.extend_from_slice(bytes)?;
            return Ok(());
        }
        match self.files.last_mut() {
            Some(files) => files.bytes.extend_from_slice(bytes)?,
            None => return Err(Why::Form),
        }
        Ok(())
    }

    fn push_files(&mut self, alloc: Global, place: Place) -> Result<(), Why>
        ensures { self.new.name ≡ self.old.name }
    {
        let bytes = Vec::new(alloc);
        self.files.push(Files { place, bytes })?;
        self.is_at_output = false;
        Ok(())
    }

    fn push_fill(&mut self, alloc: Global, text: &str) -> Result<(), Why>
        ensures { self.new.name ≡ self.old.name }
    {
        let (number, digits) = text.split_once(' ').unwrap_or((text, ""));
        let bytes = hex::decode(alloc, digits)?;
        for _ in 0..number_of(number)? {
            self.push_bytes(bytes.as_slice())?;
        }
        Ok(())
    }
}

impl SinkForm {
    fn take_piece(&mut self, piece: u64) -> Result<(), Why> {
        if piece == 0 {
            return Err(Why::Form);
        }
        self.piece = piece as usize;
        Ok(())
    }
}

impl Wanted {
    fn take(&mut self, alloc: Global, key: &str, rest: &str) -> Result<(), Why> {
        let text = String::from_str(alloc, rest)?;
        match key {
            "status" => self.status = text,
            "tally" => self.tally = text,
            "about" => self.about = text,
            "tree-faults" => self.tree_faults = Some(text),
            "sink-faults" => self.sink_faults = Some(text),
            _ => return Err(Why::Form),
        }
        Ok(())
    }
}

fn number_of(text: &str) -> Result<u64, Why> {
    text.parse::<u64>().map_err(|_| Why::Form)
}
