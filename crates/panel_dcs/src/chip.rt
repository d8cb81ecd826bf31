//! A controller in memory.
ghost use Rattle.std.specs.Prelude.{◌≡◌, if◌then◌else◌};
ghost use Rattle.std.specs.Prelude.{◌*◌, ◌<◌, ◌≤◌, [], slice_index_or, replicate};
ghost use Rattle.panel_dcs.specs.Controller.{take_command, take_data, fed, data_bytes};
ghost use Rattle.panel_dcs.specs.Controller.{cell, unwritten, opened, deviceless};
ghost use Rattle.panel_dcs.specs.Controller.{written, moved, take_color, take_end, columns_set, pages_set};

use arrayvec::ArrayVec;
use gui_base::Rgb565;
use std::marker::Model;

/// The columns and the pages that are written to, both ends included.
#[derive(Clone, Copy, Debug, PartialEq, Eq)]
pub struct Window {
    pub first_column: u16,
    pub last_column: u16,
    pub first_page: u16,
    pub last_page: u16,
}

/// A byte as a bus sends it: a command, or data.
#[derive(Clone, Copy, Debug, PartialEq, Eq)]
pub struct Sent {
    pub is_command: bool,
    pub byte: u8,
}

const SET_COLUMNS: u8 = 0x2A;

const SET_PAGES: u8 = 0x2B;

const WRITE_MEMORY: u8 = 0x2C;

/// A controller with its memory, page by page.
#[derive(Drop)]
pub(crate) struct Chip {
    columns: u16,
    pages: u16,
    memory: Vec<Rgb565>,
    window: Window,
    command: Option<u8>,
    kept: ArrayVec<u8, 4>,
    column: u32,
    page: u32,
}

impl Model for Chip {
    ghost use Rattle.std.specs.Prelude.{◌≡◌, ◌*◌, ◌≤◌, length};
    ghost use Rattle.panel_dcs.specs.Controller.{Chip};

    ghost Value = { Chip };

    ghost view = { λ c. record {
      columns = c.columns;
      pages = c.pages;
      memory = c.memory.items;
      window = c.window;
      command = c.command;
      kept = c.kept.items;
      column = c.column;
      page = c.page;
    } };

    ghost invariant = { λ c. (length c.memory.items ≡ c.columns * c.pages) × (length c.kept.items ≤ 4) };
}

/// The colour of a pixel that nothing was sent to.
pub(crate) const UNWRITTEN: Rgb565 = Rgb565(0xA5A5);

impl Chip {
    /// A controller of no device, with an empty memory.
    pub(crate) fn new(memory: Vec<Rgb565>) -> Chip
        requires { memory.items ≡ [] }
        ensures { result ≡ deviceless }
    {
        Chip {
            columns: 0,
            pages: 0,
            memory,
            window: Window {
                first_column: 0,
                last_column: 0,
                first_page: 0,
                last_page: 0,
            },
            command: None,
            kept: ArrayVec::new(),
            column: 0,
            page: 0,
        }
    }

    /// Is the controller of a device whose memory was not written to.
    pub(crate) fn open(&mut self, memory: Vec<Rgb565>, columns: u16, pages: u16)
        requires columns { 1 ≤ columns }
        requires pages { 1 ≤ pages }
        requires memory { memory.items ≡ replicate (columns * pages) UNWRITTEN }
        ensures { self.new ≡ opened columns pages }
    {
        self.columns = columns;
        self.pages = pages;
        self.memory = memory;
        self.window = Window {
            first_column: 0,
            last_column: columns - 1,
            first_page: 0,
            last_page: pages - 1,
        };
        self.command = None;
        self.kept.clear();
        self.column = 0;
        self.page = 0;
    }

    /// Is the controller of no device.
    pub(crate) fn close(&mut self)
        ensures { self.new ≡ deviceless }
    {
        self.columns = 0;
        self.pages = 0;
        self.memory.clear();
        self.window = Window {
            first_column: 0,
            last_column: 0,
            first_page: 0,
            last_page: 0,
        };
        self.command = None;
        self.kept.clear();
        self.column = 0;
        self.page = 0;
    }

    /// The colour at a column and a page.
    pub(crate) fn color(&self, column: u16, page: u16) -> Rgb565
        requires column { column < self.now.columns }
        requires page { page < self.now.pages }
        ensures { result ≡ slice_index_or self.now.memory (cell self.now column page) unwritten }
    {
        self.memory[usize::from(page) * usize::from(self.columns) + usize::from(column)]
    }

    /// Takes bytes of data.
    #[tactic(auto, using(crate::proofs::Buses::fed_none, crate::proofs::Buses::fed_next))]
    pub(crate) fn take_all(&mut self, bytes: &[u8])
        ensures { self.new ≡ fed self.old (data_bytes bytes.now) }
    {
        for byte in bytes {
            self.take_data(*byte);
        }
    }

    /// Takes a command.
    pub(crate) fn take_command(&mut self, byte: u8)
        ensures { self.new ≡ take_command byte self.old }
    {
        self.command = Some(byte);
        self.kept.clear();
        if byte == WRITE_MEMORY {
            self.column = u32::from(self.window.first_column);
            self.page = u32::from(self.window.first_page);
        }
    }

    /// Takes a byte of data.
    pub(crate) fn take_data(&mut self, byte: u8)
        ensures { self.new ≡ take_data byte self.old }
    {
        match self.command {
            Some(SET_COLUMNS) => self.take_end(byte, false),
            Some(SET_PAGES) => self.take_end(byte, true),
            Some(WRITE_MEMORY) => self.take_color(byte),
            _ => {}
        }
    }

    /// Takes a byte of the ends of the columns, or of the pages.
    fn take_end(&mut self, byte: u8, pages: bool)
        ensures { self.new
            ≡ (if pages then take_end pages_set byte self.old self.old.kept
            else take_end columns_set byte self.old self.old.kept) }
    {
        if self.kept.is_full() {
            return;
        }
        self.kept.push(byte);
        if let [a, b, c, d] = self.kept.as_slice() {
            let first = u16::from_be_bytes([*a, *b]);
            let last = u16::from_be_bytes([*c, *d]);
            if pages {
                self.window.first_page = first;
                self.window.last_page = last;
            } else {
                self.window.first_column = first;
                self.window.last_column = last;
            }
        }
    }

    /// Takes a byte of a colour: the first of two is kept.
    fn take_color(&mut self, byte: u8)
        ensures { self.new ≡ take_color byte self.old self.old.kept }
    {
        match self.kept.first() {
            None => self.kept.push(byte),
            Some(high) => {
                let color = Rgb565(u16::from_be_bytes([*high, byte]));
                self.kept.clear();
                self.write(color);
                self.move_on();
            }
        }
    }

    /// Writes a colour at the cursor, if that lies in the window and in the device.
    fn write(&mut self, color: Rgb565)
        ensures { self.new ≡ written color self.old }
    {
        let window = self.window;
        let in_columns = u32::from(window.first_column) <= self.column
            && self.column <= u32::from(window.last_column);
        let in_pages = u32::from(window.first_page) <= self.page
            && self.page <= u32::from(window.last_page);
        if in_columns
            && in_pages
            && self.column < u32::from(self.columns)
            && self.page < u32::from(self.pages)
        {
            let at = self.page as usize * usize::from(self.columns) + self.column as usize;
            self.memory[at] = color;
        }
    }

    /// Moves the cursor to the next pixel of the window.
    fn move_on(&mut self)
        ensures { self.new ≡ moved self.old }
    {
        if self.page > u32::from(self.window.last_page) {
            return;
        }
        if self.column >= u32::from(self.window.last_column) {
            self.column = u32::from(self.window.first_column);
            self.page += 1;
        } else {
            self.column += 1;
        }
    }
}
