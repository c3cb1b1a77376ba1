//! What a row asks for, and how it is to end.
use std::alloc::{AllocError, Global};
use std::mem::drop;
use std::{fs, io};

/// How a file is refused of which only so many bytes are there, from `first` to `last`.
#[derive(Drop)]
struct Refused {
    first: u32,
    last: u32,
    text: String,
}

/// A run for each number from `first` to `last`. It is the number of the call of the environment that
/// fails, where 0 is none, or where `cut` names a file the count of its bytes that are there.
#[derive(Drop)]
pub struct Row {
    pub words: Vec<String>,
    pub requests: Vec<String>,
    pub cut: String,
    refused: Vec<Refused>,
    pub first: u32,
    pub last: u32,
    pub room: u32,
    pub status: u8,
    pub serial: Vec<u8>,
    pub is_serial_begun: bool,
    pub wave: Vec<u8>,
    pub is_wave_begun: bool,
    pub opened: String,
    pub report: Vec<u8>,
    pub is_report_begun: bool,
    pub complaint: Vec<u8>,
    is_run: bool,
    is_listed: bool,
}

impl Row {
    fn new(alloc: Global) -> Row {
        Row {
            words: Vec::new(alloc),
            requests: Vec::new(alloc),
            cut: String::new(alloc),
            refused: Vec::new(alloc),
            first: 0,
            last: 0,
            room: 100_000,
            status: 0,
            serial: Vec::new(alloc),
            is_serial_begun: false,
            wave: Vec::new(alloc),
            is_wave_begun: false,
            opened: String::new(alloc),
            report: Vec::new(alloc),
            is_report_begun: false,
            complaint: Vec::new(alloc),
            is_run: false,
            is_listed: false,
        }
    }

    /// Whether there is anything to run.
    pub fn is_run(&self) -> bool {
        self.is_run
    }

    /// Whether the call of a page is made too.
    pub fn is_listed(&self) -> bool {
        self.is_listed
    }

    /// The line of the refusal with which the run of this number is to end, if it is to end with one.
    pub fn refusal(&self, alloc: Global, number: u32) -> Result<Option<String>, AllocError> {
        for refused in &self.refused {
            if refused.first <= number && number <= refused.last {
                let text = refused.text.as_str();
                return Ok(Some(refusal_line(alloc, self.cut.as_str(), text, number)?));
            }
        }
        Ok(None)
    }

    fn span(&mut self, first: &str, last: &str) {
        self.first = number(first);
        self.last = number(last);
    }

    fn read_span(&mut self, words: &[&str]) -> bool {
        match words {
            [n] => self.span(n, n),
            [n, m] => self.span(n, m),
            _ => return false,
        }
        true
    }

    fn read_cut(&mut self, words: &[&str]) -> Result<bool, AllocError> {
        let [name, n, m] = words else {
            return Ok(false);
        };
        self.cut.push_str(name)?;
        self.span(n, m);
        Ok(true)
    }

    fn read_number(&mut self, key: &str, words: &[&str]) -> bool {
        let [n] = words else {
            return false;
        };
        match key {
            "room" => self.room = number(n),
            _ => self.status = n.parse::<u8>().unwrap_or(255),
        }
        true
    }

    fn read_refused(&mut self, alloc: Global, words: &[&str]) -> Result<bool, AllocError> {
        let [first, last, rest @ ..] = words else {
            return Ok(false);
        };
        let text = text_of(alloc, rest)?;
        let (first, last) = (number(first), number(last));
        self.refused.push(Refused { first, last, text })?;
        Ok(true)
    }

    fn add_words(&mut self, alloc: Global, words: &[&str]) -> Result<(), AllocError> {
        self.is_run = true;
        for word in words {
            self.words.push(String::from_str(alloc, word)?)?;
        }
        Ok(())
    }

    /// - `run WORDS`, `word WORD`: the words of the command line; `word` has the rest of its line as one
    /// - `asks REQUEST`: one more request, the rest of the line
    /// - `fails N`, `fails N M`: the call of the environment that fails, in a run for each
    /// - `cut NAME N M`: only so many bytes of the file are there, in a run for each
    /// - `refused N M TEXT`: in these runs the file that is cut is refused with this text, at whose end ` k` is the
    ///   number of the run, and no port but that of complaints changes
    /// - `room N`: so many bytes have room in the wave
    /// - `ends N`: the status
    /// - `listed`: the call that web pages make is to end the same
    fn read_ask(&mut self, alloc: Global, line: &str, words: &[&str]) -> Result<bool, AllocError> {
        let [key, rest @ ..] = words else {
            return Ok(false);
        };
        match *key {
            "run" => self.add_words(alloc, rest)?,
            "word" => self.add_words(alloc, &[behind(line, "word ")])?,
            "asks" => {
                let request = String::from_str(alloc, behind(line, "asks "))?;
                self.requests.push(request)?;
            }
            "fails" => return Ok(self.read_span(rest)),
            "cut" => return self.read_cut(rest),
            "refused" => return self.read_refused(alloc, rest),
            "room" | "ends" => return Ok(self.read_number(key, rest)),
            "listed" if rest.is_empty() => self.is_listed = true,
            _ => return Ok(false),
        }
        Ok(true)
    }

    /// - `complains TEXT`, `reports TEXT`: a line
    /// - `report begins`: any first part of these lines
    /// - `says TEXT`: a line of Serial; `serial begins`: any first part of these lines
    /// - `wave DATA`, `wave DATA N`: the bytes of `data/DATA`, or so many of them
    /// - `begins DATA`: any first part of these bytes
    /// - `serial DATA`: these bytes
    /// - `opens NAME`: the name under which the wave was opened
    fn read_end(&mut self, rt: &HostRuntime, line: &str, words: &[&str]) -> io::Result<bool> {
        let [key, rest @ ..] = words else {
            return Ok(false);
        };
        match *key {
            "complains" => add_line(&mut self.complaint, behind(line, "complains "))?,
            "reports" => add_line(&mut self.report, behind(line, "reports "))?,
            "says" => add_line(&mut self.serial, behind(line, "says "))?,
            "report" => return Ok(self.read_report(rest)),
            "wave" => return self.read_wave(rt, rest),
            _ => return self.read_one(rt, key, rest),
        }
        Ok(true)
    }

    fn read_report(&mut self, words: &[&str]) -> bool {
        let ["begins"] = words else {
            return false;
        };
        self.is_report_begun = true;
        true
    }

    fn read_wave(&mut self, rt: &HostRuntime, words: &[&str]) -> io::Result<bool> {
        match words {
            [data] => self.wave = fs::read(rt, *data)?,
            [data, count] => {
                self.wave = fs::read(rt, *data)?;
                self.wave.truncate(number(count) as usize);
            }
            _ => return Ok(false),
        }
        Ok(true)
    }

    fn read_one(&mut self, rt: &HostRuntime, key: &str, words: &[&str]) -> io::Result<bool> {
        let [word] = words else {
            return Ok(false);
        };
        match key {
            "begins" => {
                self.wave = fs::read(rt, *word)?;
                self.is_wave_begun = true;
            }
            "serial" if *word == "begins" => self.is_serial_begun = true,
            "serial" => self.serial = fs::read(rt, *word)?,
            "opens" => self.opened.push_str(word)?,
            _ => return Ok(false),
        }
        Ok(true)
    }

    fn read_words(&mut self, rt: &HostRuntime, line: &str, words: &[&str]) -> io::Result<()> {
        if self.read_ask(rt.alloc(), line, words)?
            || self.read_end(rt, line, words)?
            || is_passed(words)
        {
            return Ok(());
        }
        println!(rt; "not understood: {line}")
    }

    fn read_line(&mut self, rt: &HostRuntime, line: &str) -> io::Result<()> {
        let words: Vec<&str> = line.split_whitespace().collect(rt.alloc())?;
        let read = self.read_words(rt, line, words.as_slice());
        drop(words);
        read
    }

    fn read_lines(&mut self, rt: &HostRuntime, part: &str) -> io::Result<()> {
        for line in part.lines() {
            self.read_line(rt, line)?;
        }
        Ok(())
    }
}

/// Words with a space before each.
fn text_of(alloc: Global, words: &[&str]) -> Result<String, AllocError> {
    let mut text = String::new(alloc);
    for word in words {
        text.push(' ')?;
        text.push_str(word)?;
    }
    Ok(text)
}

/// Whether words are for the files that the program finds, or a comment.
fn is_passed(words: &[&str]) -> bool {
    let [key, rest @ ..] = words else {
        return true;
    };
    match *key {
        "no" => matches!(rest, ["files"]),
        "empty" => rest.len() == 1,
        "file" | "fill" => rest.len() == 2,
        "text" => !rest.is_empty(),
        "lines" => rest.len() >= 2,
        _ => key.starts_with('#'),
    }
}

/// The row that lines are.
pub fn read_row(rt: &HostRuntime, part: &str) -> io::Result<Row> {
    let mut row = Row::new(rt.alloc());
    match row.read_lines(rt, part) {
        Ok(()) => Ok(row),
        Err(error) => {
            drop(row);
            Err(error)
        }
    }
}

pub fn number(word: &str) -> u32 {
    word.parse::<u32>().unwrap_or(0)
}

fn refusal_line(alloc: Global, name: &str, text: &str, number: u32) -> Result<String, AllocError> {
    match text.strip_suffix(" k") {
        Some(text) => format!(in alloc; "{name}: refused{text} {number}\n"),
        None => format!(in alloc; "{name}: refused{text}\n"),
    }
}

/// What stands behind a word that a line begins with.
pub fn behind<'a>(line: &'a str, key: &str) -> &'a str {
    line.strip_prefix(key).unwrap_or("")
}

/// Adds a line to a text.
pub fn add_line(text: &mut Vec<u8>, line: &str) -> Result<(), AllocError> {
    text.extend_from_slice(line.as_bytes())?;
    text.push(b'\n')?;
    Ok(())
}
