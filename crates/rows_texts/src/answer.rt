//! The answer to a row.
use sim_base::OutOfMemory;
use std::alloc::{AllocError, Global};

/// A text that is made piece by piece. If memory runs out for one of them, the whole is none.
#[derive(Drop)]
pub struct Answer {
    alloc: Global,
    text: String,
    has_run_out: bool,
}

impl Answer {
    pub fn new(alloc: Global) -> Answer {
        Answer {
            alloc,
            text: String::new(alloc),
            has_run_out: false,
        }
    }

    /// The whole text.
    pub fn whole(&self) -> Result<&str, OutOfMemory> {
        if self.has_run_out {
            Err(OutOfMemory)
        } else {
            Ok(self.text.as_str())
        }
    }

    /// Notes that memory ran out.
    pub fn run_out(&mut self) {
        self.has_run_out = true;
    }

    pub fn is_empty(&self) -> bool {
        self.text.is_empty()
    }

    /// Adds a text.
    pub fn tell(&mut self, text: &str) {
        if self.text.push_str(text).is_err() {
            self.run_out();
        }
    }

    /// Adds one text after another.
    pub fn tell_all(&mut self, texts: &[&str]) {
        for text in texts {
            self.tell(text);
        }
    }

    /// Adds a text that was made for it, for which memory may have run out.
    pub fn tell_made(&mut self, text: Result<String, AllocError>) {
        match text {
            Ok(text) => self.tell(text.as_str()),
            Err(AllocError) => self.run_out(),
        }
    }

    /// Adds a number after a text.
    pub fn tell_number(&mut self, text: &str, number: u64) {
        self.tell(text);
        let number = format!(in self.alloc; "{number}");
        self.tell_made(number);
    }

    /// Adds a separator, if anything is there to be separated.
    pub fn separate(&mut self, separator: &str) {
        if !self.is_empty() {
            self.tell(separator);
        }
    }
}
