//! The files that the program finds.
use crate::row::{add_line, behind, number};
use std::alloc::{AllocError, Global};
use std::mem::drop;
use std::{fs, io};

#[derive(Drop)]
pub struct StagedFile {
    pub name: String,
    pub bytes: Vec<u8>,
}

/// Files, of which a later one of the same name counts.
#[derive(Drop)]
pub struct Stage {
    alloc: Global,
    files: Vec<StagedFile>,
}

/// A line, so many times.
fn repeated(alloc: Global, count: u32, text: &str) -> Result<Vec<u8>, AllocError> {
    let mut bytes = Vec::new(alloc);
    for _ in 0..count {
        add_line(&mut bytes, text)?;
    }
    Ok(bytes)
}

impl Stage {
    pub fn new(alloc: Global) -> Stage {
        Stage {
            alloc,
            files: Vec::new(alloc),
        }
    }

    pub fn files(&self) -> &[StagedFile] {
        self.files.as_slice()
    }

    fn add(&mut self, name: &str, bytes: Vec<u8>) -> Result<(), AllocError> {
        let name = String::from_str(self.alloc, name)?;
        self.files.push(StagedFile { name, bytes })?;
        Ok(())
    }

    fn add_lines(&mut self, name: &str, count: u32, text: &str) -> Result<(), AllocError> {
        let bytes = repeated(self.alloc, count, text.trim())?;
        self.add(name, bytes)
    }

    fn fill(&mut self, name: &str, count: u32) -> Result<(), AllocError> {
        for file in &mut self.files {
            if file.name.as_str() == name {
                file.bytes.resize(count as usize, b'\n')?;
            }
        }
        Ok(())
    }

    /// From this row on:
    /// - `file NAME DATA`: the file has the bytes of `data/DATA`
    /// - `text NAME TEXT`: the file is that one line
    /// - `lines NAME N TEXT`: the file is that line, so many times
    /// - `empty NAME`: the file has no bytes
    /// - `fill NAME N`: line feeds end the file, which then has so many bytes
    /// - `no files`: there is none
    pub fn read_line(&mut self, rt: &HostRuntime, line: &str) -> io::Result<()> {
        let words: Vec<&str> = line.split_whitespace().collect(self.alloc)?;
        let read = self.read_words(rt, line, words.as_slice());
        drop(words);
        read
    }

    fn read_words(&mut self, rt: &HostRuntime, line: &str, words: &[&str]) -> io::Result<()> {
        let [key, rest @ ..] = words else {
            return Ok(());
        };
        match *key {
            "file" => {
                if let [name, data] = rest {
                    let bytes = fs::read(rt, *data)?;
                    self.add(name, bytes)?;
                }
            }
            "text" => {
                if let [name, ..] = rest {
                    self.add_lines(name, 1, behind(behind(line, "text "), name))?;
                }
            }
            "lines" => {
                if let [name, count, ..] = rest {
                    let text = behind(behind(line, "lines "), name).trim();
                    self.add_lines(name, number(count), behind(text, count))?;
                }
            }
            "fill" => {
                if let [name, count] = rest {
                    self.fill(name, number(count))?;
                }
            }
            "empty" => {
                if let [name] = rest {
                    self.add(name, Vec::new(self.alloc))?;
                }
            }
            "no" => {
                if let ["files"] = rest {
                    self.files.clear();
                }
            }
            _ => {}
        }
        Ok(())
    }
}
