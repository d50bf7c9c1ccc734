//! What the lines say that were kept of earlier processes.
use anyhow::{Context, Result, bail};
use std::alloc::Global;
use std::str::SplitWhitespace;

/// Where an open ticket stands.
#[derive(Drop)]
pub enum Stand {
    /// It was never taken, so never sent.
    Waits,
    /// It was taken: the device may have carried it out.
    Taken,
    /// It has this outcome, which may not have been told.
    Ended(String),
}

/// A ticket that was neither collected nor abandoned.
#[derive(Drop)]
pub struct OpenTicket {
    pub ticket: u64,
    pub stand: Stand,
}

/// What was written by earlier processes.
#[derive(Drop)]
pub struct Past {
    alloc: Global,
    /// The last ticket that was given.
    pub given: u64,
    /// The tickets that are open, the oldest first.
    pub open: Vec<OpenTicket>,
}

impl Past {
    /// Nothing was written.
    pub fn new(alloc: Global) -> Past {
        Past {
            alloc,
            given: 0,
            open: Vec::new(alloc),
        }
    }

    /// One more line, as `taken 7`.
    pub fn read(&mut self, line: &str) -> Result<()> {
        let mut words = line.split_whitespace();
        let kind = words.next().context("an entry is empty")?;
        let ticket = words.next().context("an entry has no ticket")?;
        let ticket = ticket.parse::<u64>().context("that is no ticket")?;
        match kind {
            "submitted" | "urgent" => self.enter(ticket),
            "taken" => self.put(ticket, Stand::Taken),
            "withdrawn" => self.put(ticket, Stand::Ended(String::from_str(self.alloc, kind)?)),
            "answered" => self.put(ticket, Stand::Ended(outcome_of(self.alloc, words)?)),
            "collected" | "abandoned" => self.close(ticket),
            _ => bail!("that is no entry"),
        }
    }

    fn enter(&mut self, ticket: u64) -> Result<()> {
        self.given = self.given.max(ticket);
        self.open.push(OpenTicket {
            ticket,
            stand: Stand::Waits,
        })?;
        Ok(())
    }

    fn put(&mut self, ticket: u64, stand: Stand) -> Result<()> {
        if let Some(own) = self.open.iter_mut().find(|own| own.ticket == ticket) {
            own.stand = stand;
        } else if ticket > self.given {
            bail!("a ticket was never given");
        }
        // one that is given, and not open, was abandoned: nobody is told
        Ok(())
    }

    fn close(&mut self, ticket: u64) -> Result<()> {
        self.open.retain(|own| own.ticket != ticket);
        Ok(())
    }
}

/// The words of an outcome, as they stood.
fn outcome_of(alloc: Global, words: SplitWhitespace<'_>) -> Result<String> {
    let mut outcome = String::new(alloc);
    for word in words {
        if !outcome.is_empty() {
            outcome.push_str(" ")?;
        }
        outcome.push_str(word)?;
    }
    Ok(outcome)
}
