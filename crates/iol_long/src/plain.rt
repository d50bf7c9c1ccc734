//! The plain list of what clients asked, the device did, and the drained journals say.
use crate::counts::{Counts, Reported};
use crate::did::{Did, did_of, ticket_in};
use crate::fault::{LongFault, Wrong};
use crate::row::{Chances, Row, Stand, Urgency, answer_to, chances_after, ticket_of};
use iol_book::{Entry, Journal, Outcome};
use iol_isdu::{Answer, Request};
use std::alloc::Global;
use std::collections::VecDeque;

/// The plain list: a row for each ticket of which something can still come.
#[derive(Drop)]
pub(crate) struct PlainList {
    /// The ticket of the first row.
    first: u64,
    rows: VecDeque<Row>,
    /// The calls since the last drain, which have an entry each.
    did: VecDeque<Did>,
    /// The ticket that is taken, by the drained journals, and the one that was taken last.
    taken: Option<u64>,
    last_taken: Option<u64>,
    /// How many the device had carried out with the one before that.
    last_order: u64,
    /// Whether the device may still carry out the one that was taken last, though it has ended.
    doubt: Chances,
    /// What the next drain has to restate.
    head: Vec<Entry>,
    pub(crate) counts: Counts,
}

impl PlainList {
    /// No row, and room for what journals of so many entries say, of which so many are restated.
    pub(crate) fn new(
        alloc: Global,
        entries: usize,
        restated: usize,
    ) -> Result<PlainList, LongFault> {
        Ok(PlainList {
            first: 1,
            rows: VecDeque::with_capacity(alloc, entries)?,
            did: VecDeque::with_capacity(alloc, entries)?,
            taken: None,
            last_taken: None,
            last_order: 0,
            doubt: Chances::Over,
            head: Vec::with_capacity(alloc, restated)?,
            counts: Counts::default(),
        })
    }

    /// The ticket that is given next.
    pub(crate) fn next_ticket(&self) -> u64 {
        self.first.wrapping_add(self.rows.len() as u64)
    }

    /// The next ticket was given for this request.
    pub(crate) fn submitted(
        &mut self,
        request: Request,
        urgency: Urgency,
    ) -> Result<(), LongFault> {
        let ticket = self.next_ticket();
        self.rows.push_back(Row::new(request, urgency))?;
        self.did.push_back(match urgency {
            Urgency::Urgent => Did::Urgent(ticket),
            Urgency::Other => Did::Submitted(ticket),
        })?;
        Ok(())
    }

    /// A request was withdrawn.
    pub(crate) fn withdrawn(&mut self, ticket: u64) -> Result<(), LongFault> {
        let row = self.row(ticket)?;
        row.chances = Chances::Over;
        if row.carried.is_some() {
            return Err(Wrong::CarriedAndDenied.of(ticket));
        }
        self.did.push_back(Did::Withdrawn(ticket))?;
        Ok(())
    }

    /// A client was told this outcome.
    pub(crate) fn reported(&mut self, ticket: u64, outcome: &Outcome) -> Result<(), LongFault> {
        let row = self.row(ticket)?;
        if row.reported.is_some() || !row.can_end(outcome) {
            return Err(Wrong::OtherAnswer.of(ticket));
        }
        row.reported = Some(outcome.clone()?);
        if chances_after(outcome) == Chances::Over {
            row.chances = Chances::Over;
        }
        self.counts.reported(outcome);
        self.did.push_back(Did::Collected(ticket))?;
        Ok(())
    }

    /// The device carries a request out: what it answers.
    pub(crate) fn carry_out(&mut self, request: &Request) -> Result<Answer, LongFault> {
        let ticket = ticket_of(request);
        let order = self.counts.carried.wrapping_add(1);
        let row = self.row(ticket)?;
        if row.request != *request {
            return Err(Wrong::CarriedOther.of(ticket));
        }
        if row.carried.is_some() {
            return Err(Wrong::CarriedTwice.of(ticket));
        }
        if row.chances == Chances::Over {
            return Err(Wrong::CarriedLate.of(ticket));
        }
        let answer = answer_to(request, order, ticket);
        row.carried = Some((order, answer.clone()?));
        let reported = match row.reported {
            Some(_) => Reported::Before,
            None => Reported::NotYet,
        };
        self.counts.carried(reported);
        Ok(answer)
    }

    /// The request that was taken last has ended, and the device may still carry it out.
    pub(crate) fn left_in_doubt(&mut self) {
        self.doubt = Chances::Left;
    }

    /// The device was reset: it carries out no request more that has ended.
    pub(crate) fn reset(&mut self) {
        self.doubt = Chances::Over;
        for row in self.rows.iter_mut() {
            if row.reported.is_some() {
                row.chances = Chances::Over;
            }
        }
    }

    /// No journal says more of the requests whose outcome was told.
    pub(crate) fn close_reported(&mut self) {
        self.did.clear();
        let mut ended: u64 = 0;
        for row in self.rows.iter_mut() {
            if row.reported.is_some() && row.stand != Stand::Collected {
                row.stand = Stand::Collected;
                ended = ended.saturating_add(1);
            }
        }
        self.counts.ended(ended);
        self.drop_done();
    }

    /// A journal was drained, whose first entries, so many, are restated.
    pub(crate) fn drained(&mut self, journal: &Journal, restated: usize) -> Result<(), LongFault> {
        if !begins_with(journal, self.head.as_slice()) || restated != self.head.len() {
            return Err(Wrong::Restated.of(self.first));
        }
        for entry in journal.iter().skip(restated) {
            self.read(&entry)?;
        }
        if let Some(did) = self.did.pop_front() {
            return Err(Wrong::NoEntry.of(did.ticket()));
        }
        self.keep_open(journal)?;
        self.drop_done();
        self.counts
            .drained(journal.len(), restated, self.head.len());
        Ok(())
    }

    /// Keeps what the next drain has to restate: the entries of tickets that are open.
    fn keep_open(&mut self, journal: &Journal) -> Result<(), LongFault> {
        self.head.clear();
        for entry in journal.iter() {
            if self.is_open(ticket_in(&entry)) {
                self.head.push(entry)?;
            }
        }
        Ok(())
    }

    /// Whether no client was told its outcome, or the device may still carry it out.
    fn is_open(&self, ticket: u64) -> bool {
        let is_reported = match self.place(ticket) {
            Some(place) => self
                .rows
                .get(place)
                .is_none_or(|row| row.reported.is_some()),
            None => true,
        };
        !is_reported || self.doubt == Chances::Left && self.last_taken == Some(ticket)
    }

    /// Drops the first rows of which nothing can come any more. That of the request that was taken
    /// last stays, for the order of the next one.
    fn drop_done(&mut self) {
        for _ in 0..self.rows.len() {
            let is_done = self.rows.front().is_some_and(|row| row.is_done());
            if !is_done || self.last_taken == Some(self.first) {
                return;
            }
            let _ = self.rows.pop_front();
            self.first = self.first.wrapping_add(1);
        }
    }

    /// Reads an entry that wasn't drained before.
    fn read(&mut self, entry: &Entry) -> Result<(), LongFault> {
        if let Some(did) = did_of(entry) {
            if self.did.pop_front() != Some(did) {
                return Err(Wrong::OtherCall.of(did.ticket()));
            }
        }
        match entry {
            Entry::Submitted(ticket, request) => self.enter(ticket.0, request, Urgency::Other),
            Entry::Urgent(ticket, request) => self.enter(ticket.0, request, Urgency::Urgent),
            Entry::Taken(ticket) => self.take(ticket.0),
            Entry::Answered(ticket, outcome) => self.answer(ticket.0, outcome),
            Entry::Withdrawn(ticket) => { self.end(ticket.0, Stand::Waiting, &Outcome::Withdrawn) }
            Entry::Collected(ticket) => self.collect(ticket.0),
            Entry::Abandoned(ticket) => Err(Wrong::OtherCall.of(ticket.0)),
        }
    }

    /// A request entered, by a journal.
    fn enter(&mut self, ticket: u64, request: &Request, urgency: Urgency) -> Result<(), LongFault> {
        let row = self.row_that_stands(ticket, Stand::Unrecorded)?;
        if row.request != *request || row.urgency != urgency {
            return Err(Wrong::OtherCall.of(ticket));
        }
        row.stand = Stand::Waiting;
        Ok(())
    }

    /// A request was taken, by a journal: the next one, behind which no earlier one can come.
    fn take(&mut self, ticket: u64) -> Result<(), LongFault> {
        if self.taken.is_some() || self.next_to_take() != Some(ticket) {
            return Err(Wrong::Misplaced.of(ticket));
        }
        self.close_last()?;
        self.row(ticket)?.stand = Stand::Taken;
        self.taken = Some(ticket);
        self.last_taken = Some(ticket);
        Ok(())
    }

    /// The ticket that is taken next: the first of the urgent ones, else the first of the others.
    fn next_to_take(&self) -> Option<u64> {
        let urgent = self.rows.iter().position(|row| row.waits(Urgency::Urgent));
        let place = match urgent {
            Some(place) => place,
            None => self.rows.iter().position(|row| row.waits(Urgency::Other))?,
        };
        Some(self.first.wrapping_add(place as u64))
    }

    /// The device can carry out no more the one that was taken last. It had its turn.
    fn close_last(&mut self) -> Result<(), LongFault> {
        let Some(last) = self.last_taken else {
            return Ok(());
        };
        let before = self.last_order;
        let row = self.row(last)?;
        row.chances = Chances::Over;
        if let Some((order, _)) = &row.carried {
            let order = *order;
            if order <= before {
                return Err(Wrong::CarriedInDisorder.of(last));
            }
            self.last_order = order;
        }
        Ok(())
    }

    /// A request that was taken has an outcome, by a journal.
    fn answer(&mut self, ticket: u64, outcome: &Outcome) -> Result<(), LongFault> {
        if self.taken.take() != Some(ticket) || matches!(outcome, Outcome::Withdrawn) {
            return Err(Wrong::Misplaced.of(ticket));
        }
        self.end(ticket, Stand::Taken, outcome)
    }

    /// A request that stood so has an outcome, by a journal.
    fn end(&mut self, ticket: u64, stood: Stand, outcome: &Outcome) -> Result<(), LongFault> {
        let row = self.row_that_stands(ticket, stood)?;
        if !row.can_end(outcome) {
            return Err(Wrong::OtherAnswer.of(ticket));
        }
        row.ended = Some(outcome.clone()?);
        row.stand = Stand::Ended;
        if chances_after(outcome) == Chances::Over {
            row.chances = Chances::Over;
        }
        Ok(())
    }

    /// An outcome was handed out, by a journal: the one that was told.
    fn collect(&mut self, ticket: u64) -> Result<(), LongFault> {
        let row = self.row_that_stands(ticket, Stand::Ended)?;
        if row.reported.is_none() || row.ended != row.reported {
            return Err(Wrong::OtherAnswer.of(ticket));
        }
        row.stand = Stand::Collected;
        self.counts.ended(1);
        Ok(())
    }

    /// Whether each of so many tickets was given and has its end, behind the last drain.
    pub(crate) fn close(&self, count: u64) -> Result<(), LongFault> {
        let has_ended = self.rows.iter().all(|row| row.stand == Stand::Collected);
        if has_ended && self.next_ticket() > count {
            Ok(())
        } else {
            Err(Wrong::NeverEnded.of(self.first))
        }
    }

    /// The row of a ticket that stands so.
    fn row_that_stands(&mut self, ticket: u64, stand: Stand) -> Result<&mut Row, LongFault> {
        let row = self.row(ticket)?;
        if row.stand == stand {
            Ok(row)
        } else {
            Err(Wrong::Misplaced.of(ticket))
        }
    }

    fn row(&mut self, ticket: u64) -> Result<&mut Row, LongFault> {
        match self.place(ticket) {
            Some(place) => self.rows.get_mut(place).ok_or(Wrong::Gone.of(ticket)),
            None => Err(Wrong::Gone.of(ticket)),
        }
    }

    /// Where a ticket's row is, if it isn't gone.
    fn place(&self, ticket: u64) -> Option<usize> {
        let behind = ticket.checked_sub(self.first)?;
        usize::try_from(behind).ok()
    }
}

/// Whether these are the first entries of a journal.
fn begins_with(journal: &Journal, entries: &[Entry]) -> bool {
    let mut is_same = true;
    for (place, entry) in entries.iter().enumerate() {
        is_same &= journal.get(place).is_some_and(|own| own == *entry);
    }
    is_same
}
