//! All that the lines speak to.
use crate::books::answer_book;
use crate::buffers::answer_buffers;
use crate::devices::Devices;
use crate::events::{answer_memory, answer_reader};
use crate::fault::ProbeFault;
use crate::images::answer_image;
use crate::isdus::answer_isdus;
use crate::messages::answer_messages;
use crate::octets::answer_octets;
use crate::pages::answer_pages;
use crate::ports::answer_port;
use crate::reading::{Line, is};
use crate::segments::Segments;
use iol_book::Book;
use iol_event::{EventMemory, EventReader};
use iol_mseq::{Layout, Message};
use iol_page::Page;
use iol_port::PortCore;
use iol_script::{TextLines, Words};
use std::alloc::{AllocError, Global};

/// One value of each kind that keeps a state from line to line.
#[derive(Drop)]
pub(crate) struct Probe {
    alloc: Global,
    layout: Layout,
    buffer: Message,
    page: Page,
    segments: Segments,
    memory: EventMemory,
    reader: EventReader,
    book: Option<Book>,
    devices: Devices,
    port: Option<PortCore>,
}

impl Probe {
    pub fn new(alloc: Global) -> Probe {
        Probe {
            alloc,
            layout: Layout::startup(),
            buffer: Message::new(),
            page: Page::from_octets(&[0; 10]),
            segments: Segments::new(),
            memory: EventMemory::new(),
            reader: EventReader::new(),
            book: None,
            devices: Devices::new(alloc),
            port: None,
        }
    }

    /// Answers each line of a text, up to the first that is bad.
    pub fn answer_all(&mut self, output: &mut String, input: &[u8]) -> Result<(), ProbeFault> {
        for (number, text) in TextLines::of(input) {
            if !self.answer_line(output, text)? {
                return Err(ProbeFault::Line(number));
            }
        }
        Ok(())
    }

    /// Answers a line. Whether it is a good one.
    fn answer_line(&mut self, output: &mut String, text: &[u8]) -> Result<bool, AllocError> {
        let Some(mut words) = Words::of(text) else {
            return Ok(false);
        };
        let Some(name) = words.next() else {
            return Ok(true);
        };
        let mut line = Line::of(words);
        if !self.answer_value(output, name, &mut line)? {
            self.answer_part(output, name, &mut line)?;
        }
        Ok(line.is_good())
    }

    /// Answers a line of octets, messages, pages and texts. Whether it is one.
    fn answer_value(
        &mut self,
        output: &mut String,
        name: &[u8],
        line: &mut Line<'_>,
    ) -> Result<bool, AllocError> {
        Ok(
            answer_octets(output, name, line)?
                || answer_messages(output, &mut self.layout, name, line)?
                || answer_buffers(output, &mut self.buffer, name, line)?
                || answer_pages(output, &mut self.page, name, line)?
                || answer_isdus(output, name, line)?,
        )
    }

    /// Answers a line of a part that keeps a state.
    fn answer_part(
        &mut self,
        output: &mut String,
        name: &[u8],
        line: &mut Line<'_>,
    ) -> Result<(), AllocError> {
        if is(name, b"cut") {
            self.segments.answer_cut(output, line)
        } else if is(name, b"join") {
            self.segments.answer_join(output, line)
        } else if is(name, b"memory") {
            answer_memory(output, &mut self.memory, line)
        } else if is(name, b"reader") {
            answer_reader(output, &mut self.reader, line)
        } else if is(name, b"image") {
            answer_image(output, line.octets().as_slice())
        } else if is(name, b"book") {
            answer_book(output, self.alloc, &mut self.book, line)
        } else if is(name, b"device") {
            self.devices.answer(output, line)
        } else if is(name, b"port") {
            answer_port(output, self.alloc, &mut self.port, line)
        } else {
            line.refuse();
            Ok(())
        }
    }
}
