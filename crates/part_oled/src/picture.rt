//! The picture, and the commands that change it.
ghost use Rattle.std.specs.Prelude.{◌≡◌, ◌<◌, ◌≤◌, Some};
ghost use Rattle.part_oled.specs.Picture.{dark, next_in, advanced, with_data, parameters, switched, commanded, addressing_of, with_columns, with_pages, completed, with_waiting, with_command, cell, page_cells};

use std::marker::Model;

/// How bytes of data follow one another.
#[derive(Clone, Copy)]
pub enum Addressing {
    Horizontal,
    Vertical,
    Page,
}

/// The first and the last column or page that data reach.
#[derive(Clone, Copy)]
pub struct Window {
    pub first: u8,
    pub last: u8,
}

/// A command, how many of its parameters are still to come, and the one that came last.
#[derive(Clone, Copy)]
pub struct Waiting {
    pub command: u8,
    pub left: u8,
    pub before: u8,
}

/// The cells, and what commands have set.
#[derive(Drop)]
pub struct Picture {
    cells: [u8; 1024],
    addressing: Addressing,
    columns: Window,
    pages: Window,
    column: u8,
    page: u8,
    on: bool,
    lit: bool,
    inverted: bool,
    waiting: Option<Waiting>,
}

impl Model for Picture {
    ghost use Rattle.std.specs.Prelude.{◌<◌};
    ghost use Rattle.part_oled.specs.Picture.{Picture as State};
    ghost use Rattle.part_oled.specs.Places.{AreIn, IsWaiting};

    ghost Value = { State };

    ghost view = { λ p. record {
      cells = p.cells;
      addressing = p.addressing;
      columns = p.columns;
      pages = p.pages;
      column = p.column;
      page = p.page;
      on = p.on;
      lit = p.lit;
      inverted = p.inverted;
      waiting = p.waiting;
    } };

    ghost invariant = { λ p. record { columns : AreIn 128 p.columns p.column; pages : AreIn 8 p.pages p.page; waiting : IsWaiting p.waiting } };
}

fn next_in(window: Window, count: u8, n: u8) -> u8
    requires some { 0 < count }
    requires few { count ≤ 128 }
    requires first { window.first < count }
    requires here { n < count }
    ensures place { result ≡ next_in window count n }
    ensures below { result < count }
{
    if n == window.last {
        window.first
    } else {
        (n + 1) % count
    }
}

fn parameters(command: u8) -> u8
    ensures { result ≡ parameters command }
{
    match command {
        0x20 | 0x81 | 0x8D | 0xA8 | 0xD3 | 0xD5 | 0xD9 | 0xDA | 0xDB => 1,
        0x21 | 0x22 | 0xA3 => 2,
        0x29 | 0x2A => 5,
        0x26 | 0x27 => 6,
        _ => 0,
    }
}

fn addressing_of(number: u8) -> Addressing
    ensures { result ≡ addressing_of number }
{
    match number {
        0 => Addressing::Horizontal,
        1 => Addressing::Vertical,
        _ => Addressing::Page,
    }
}

impl Picture {
    /// Off and dark, with page addressing.
    pub(crate) fn dark() -> Picture
        ensures { result ≡ dark }
    {
        Picture {
            cells: [0; 1024],
            addressing: Addressing::Page,
            columns: Window {
                first: 0,
                last: 127,
            },
            pages: Window { first: 0, last: 7 },
            column: 0,
            page: 0,
            on: false,
            lit: false,
            inverted: false,
            waiting: None,
        }
    }

    /// Whether the display is on.
    pub(crate) fn on(&self) -> bool
        ensures { result ≡ self.now.on }
    {
        self.on
    }

    /// What is shown of a cell.
    pub(crate) fn cell(&self, page: u8, column: u8) -> u8
        requires page { page < 8 }
        requires column { column < 128 }
        ensures { result ≡ cell self.now page column }
    {
        let kept = self.cells[128 * usize::from(page) + usize::from(column)];
        if !self.on {
            0
        } else if self.lit {
            0xFF
        } else if self.inverted {
            255 - kept
        } else {
            kept
        }
    }

    /// What is shown of a page.
    pub(crate) fn page(&self, page: u8) -> [u8; 128]
        requires { page < 8 }
        ensures { result ≡ page_cells self.now page }
    {
        let mut cells = [0; 128];
        for column in 0..128_u8 {
            cells[usize::from(column)] = self.cell(page, column);
        }
        cells
    }

    fn advance(&mut self)
        ensures { self.new ≡ advanced self.old.addressing self.old }
    {
        match self.addressing {
            Addressing::Horizontal => {
                if self.column == self.columns.last {
                    self.page = next_in(self.pages, 8, self.page);
                }
                self.column = next_in(self.columns, 128, self.column);
            }
            Addressing::Vertical => {
                if self.page == self.pages.last {
                    self.column = next_in(self.columns, 128, self.column);
                }
                self.page = next_in(self.pages, 8, self.page);
            }
            Addressing::Page => self.column = (self.column + 1) % 128,
        }
    }

    /// Takes a byte of data.
    pub(crate) fn write(&mut self, byte: u8)
        ensures { self.new ≡ with_data self.old byte }
    {
        self.cells[128 * usize::from(self.page) + usize::from(self.column)] = byte;
        self.advance();
    }

    fn switch(&mut self, command: u8)
        ensures { self.new ≡ switched self.old command }
    {
        match command {
            0xA4 => self.lit = false,
            0xA5 => self.lit = true,
            0xA6 => self.inverted = false,
            0xA7 => self.inverted = true,
            0xAE => self.on = false,
            0xAF => self.on = true,
            _ => {}
        }
    }

    fn act(&mut self, command: u8)
        ensures { self.new ≡ commanded self.old command }
    {
        match command {
            0x00..=0x0F => self.column = self.column / 16 * 16 + command,
            0x10..=0x1F => self.column = command % 8 * 16 + self.column % 16,
            0xB0..=0xB7 => self.page = command - 0xB0,
            _ => self.switch(command),
        }
    }

    fn set_columns(&mut self, first: u8, last: u8)
        requires first { first < 128 }
        requires last { last < 128 }
        ensures { self.new ≡ with_columns self.old first last }
    {
        if first <= last {
            self.columns = Window { first, last };
            self.column = first;
        }
    }

    fn set_pages(&mut self, first: u8, last: u8)
        requires first { first < 8 }
        requires last { last < 8 }
        ensures { self.new ≡ with_pages self.old first last }
    {
        if first <= last {
            self.pages = Window { first, last };
            self.page = first;
        }
    }

    fn complete(&mut self, command: u8, before: u8, last: u8)
        ensures { self.new ≡ completed self.old command before last }
    {
        match command {
            0x20 => self.addressing = addressing_of(last % 4),
            0x21 => self.set_columns(before % 128, last % 128),
            0x22 => self.set_pages(before % 8, last % 8),
            _ => {}
        }
    }

    /// Takes a byte of commands.
    pub(crate) fn command(&mut self, byte: u8)
        ensures { self.new ≡ with_command self.old byte }
    {
        match self.waiting {
            None => {
                let left = parameters(byte);
                if left == 0 {
                    self.act(byte);
                } else {
                    self.waiting = Some(Waiting {
                        command: byte,
                        left,
                        before: 0,
                    });
                }
            }
            Some(waiting) => {
                if waiting.left == 1 {
                    self.waiting = None;
                    self.complete(waiting.command, waiting.before, byte);
                } else {
                    self.waiting = Some(Waiting {
                        command: waiting.command,
                        left: waiting.left - 1,
                        before: byte,
                    });
                }
            }
        }
    }
}
