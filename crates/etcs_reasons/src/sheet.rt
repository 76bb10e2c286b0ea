//! Where the lines of a table are written: as text, or as a part of a page.

use crate::page::COLUMNS;
use crate::text::Text;
use etcs_vars::Var;
use std::alloc::{AllocError, Global};

/// The form of an account.
#[derive(Clone, Copy, Debug, PartialEq, Eq)]
pub enum Layout {
    /// Lines of text.
    Text,
    /// A page of HTML.
    Html,
}

/// Takes the lines of tables. A line's value and meaning are written first, and then the line.
#[derive(Drop)]
pub struct Sheet {
    layout: Layout,
    /// How many items began.
    items: u64,
    /// What was written.
    pub out: Text,
    bits: Text,
    pub(crate) value: Text,
    /// The text of the next line or title.
    pub meaning: Text,
}

impl Sheet {
    /// Nothing is written yet.
    pub fn new(alloc: Global, layout: Layout) -> Sheet {
        Sheet {
            layout,
            items: 0,
            out: Text::new(alloc),
            bits: Text::new(alloc),
            value: Text::new(alloc),
            meaning: Text::new(alloc),
        }
    }

    /// Begins the next line.
    pub fn clear(&mut self) {
        self.value.clear();
        self.meaning.clear();
    }

    /// What was written.
    ///
    /// # Errors
    ///
    /// If memory ran out for a part of it.
    pub fn whole(&self) -> Result<&str, AllocError> {
        self.bits.whole()?;
        self.value.whole()?;
        self.meaning.whole()?;
        self.out.whole()
    }

    /// Appends the one of these that the form has.
    pub fn put(&mut self, text: &str, page: &str) {
        self.out.push(match self.layout {
            Layout::Text => text,
            Layout::Html => page,
        })
    }

    /// Appends the meaning, in which no character means anything to HTML.
    fn put_meaning(&mut self) {
        for character in self.meaning.as_str().chars() {
            match (self.layout, character) {
                (Layout::Html, '&') => self.out.push("&amp;"),
                (Layout::Html, '<') => self.out.push("&lt;"),
                (Layout::Html, '>') => self.out.push("&gt;"),
                _ => write!(self.out, "{character}"),
            }
        }
    }

    /// Begins the table of an item: the rest of its title, which is the meaning, and what is above the first line. In a page
    /// it is the target of a link.
    pub fn open_item(&mut self) {
        self.put_meaning();
        self.items = self.items.saturating_add(1);
        let item = self.items;
        match self.layout {
            Layout::Text => self
                .out
                .push("\n  bits        variable              number  meaning\n"),
            Layout::Html => {
                write!(self.out, " <a id=item{item} href=#item{item}>");
                self.out.push("#</a></h2></summary><noscript>\n");
            }
        }
    }

    /// Begins the lines before or after the packets, which have a title in pages alone.
    pub(crate) fn open_header(&mut self, title: &'static str) {
        if self.layout == Layout::Html {
            self.meaning.push(title);
            self.open_part();
        }
    }

    /// Begins a run of lines, whose title is the meaning.
    pub(crate) fn open_part(&mut self) {
        self.put("  ", "<details class=part open><summary><h3>");
        self.put_meaning();
        self.put("\n", "</h3></summary><table>");
        self.put("", COLUMNS);
    }

    /// Ends a run of lines.
    pub(crate) fn close_part(&mut self) {
        self.put("", "</table></details>\n");
    }

    /// Begins a line that has no columns, at this depth.
    fn open_wide(&mut self, depth: usize) {
        self.put("  ", "<tr><th colspan=4 scope=rowgroup>");
        if self.layout == Layout::Text {
            write!(self.out, "{:1$}", "", depth.saturating_mul(2));
        }
    }

    /// Writes the line of an entry, at this depth.
    pub(crate) fn entry(&mut self, depth: usize, entry: u64, count: u64) {
        self.open_wide(depth);
        writeln!(self.out, "entry {entry} of {count}");
    }

    /// Writes the line of a text, which is the meaning, at this depth.
    pub(crate) fn text(&mut self, depth: usize) {
        self.open_wide(depth);
        self.heading();
    }

    /// Writes the line of a variable of these bits, at this depth, with the value and the meaning.
    pub(crate) fn line(&mut self, depth: usize, bits: (usize, usize), var: Var, refused: bool) {
        let (first, last) = bits;
        self.bits.clear();
        write!(self.bits, "{first}");
        if last != first {
            write!(self.bits, "..{last}");
        }
        let (bits, name) = (self.bits.as_str(), var.name());
        let value = self.value.as_str();
        if self.layout == Layout::Text {
            let indent = depth.saturating_mul(2).saturating_add(2);
            let room = 27usize.saturating_sub(name.len());
            write!(self.out, "{:indent$}{bits:<12}{name} {value:>room$}", "");
            if !self.meaning.as_str().is_empty() {
                self.out.push("  ");
            }
        } else {
            let class = if refused { " class=no" } else { "" };
            write!(self.out, "<tr{class}><td>{bits}<td class=d{depth}>{name}");
            write!(self.out, "<td>{value}<td>");
        }
        self.heading();
    }

    /// Ends the table of an item, with the reason that the meaning has, if it has one, and what it often comes from.
    pub fn close_item(&mut self, often: Option<&'static str>) {
        self.put("", "</div></div></noscript>");
        if !self.meaning.as_str().is_empty() {
            self.put("  Why: ", "<p class=no>Why: ");
            self.put_meaning();
            self.out.push(".\n");
        }
        if let Some(often) = often {
            self.put("  Often: ", "<p>Often: ");
            self.out.push(often);
            self.out.push(".\n");
        }
        self.put("", "</details>\n");
    }

    /// Writes the meaning as the rest of the line of what is no item.
    pub fn heading(&mut self) {
        self.put_meaning();
        self.out.push("\n");
    }
}
