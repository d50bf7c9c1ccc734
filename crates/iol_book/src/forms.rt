//! Entries without their octets, as the lines of a journal have them.
ghost use Rattle.std.specs.Prelude.{◌≡◌, ◌≤◌, length};
ghost use Rattle.iol_isdu.specs.declared.values.Request.{Request};
ghost use Rattle.iol_book.specs.declared.forms.EntryForm.TheVariants.{Submitted, Answered};
ghost use Rattle.iol_book.specs.Limits.{most_data};
ghost use Rattle.iol_book.specs.Forms.{most_octets, form_of_request, request_form_in, octets_of_request, request_from, form_of_outcome, octets_of_outcome, outcome_from, form_of_entry, octets_of_entry, entry_from};

use crate::entries::{Entry, Outcome, Ticket};
use iol_isdu::{Answer, Cause, Place, Request};

// A request without its octets.
#[derive(Clone, Copy, Debug, PartialEq, Eq)]
pub(crate) enum RequestForm {
    Read(Place),
    Write(Place),
}

impl RequestForm {
    pub(crate) fn of(request: &Request) -> RequestForm
        ensures { result ≡ form_of_request request.now }
    {
        match request {
            Request::Read(place) => RequestForm::Read(*place),
            Request::Write(place, _) => RequestForm::Write(*place),
        }
    }

    // The request with these octets, in place of another.
    pub(crate) fn put(self, octets: &[u8], into: &mut Request)
        requires { length octets.now ≤ 232 }
        ensures { into.new ≡ request_from self octets.now }
    {
        match self {
            RequestForm::Read(place) => *into = Request::read(place),
            RequestForm::Write(place) => into.set_write(place, octets),
        }
    }

    fn with(self, octets: &[u8]) -> Request
        requires { length octets.now ≤ 232 }
        ensures { result ≡ request_from self octets.now }
    {
        let mut request = Request::read(Place { index: 0, sub: 0 });
        self.put(octets, &mut request);
        request
    }
}

// An outcome without its octets.
#[derive(Clone, Copy, Debug, PartialEq, Eq)]
pub(crate) enum OutcomeForm {
    Read,
    Written,
    Refused(u8, u8),
    Unknown(Cause),
    Withdrawn,
    NoIsdu,
}

impl OutcomeForm {
    pub(crate) fn of(outcome: &Outcome) -> OutcomeForm
        ensures { result ≡ form_of_outcome outcome.now }
    {
        match outcome {
            Outcome::Done(Answer::Read(_)) => OutcomeForm::Read,
            Outcome::Done(Answer::Written) => OutcomeForm::Written,
            Outcome::Done(Answer::Refused(error, more)) => OutcomeForm::Refused(*error, *more),
            Outcome::Unknown(cause) => OutcomeForm::Unknown(*cause),
            Outcome::Withdrawn => OutcomeForm::Withdrawn,
            Outcome::NoIsdu => OutcomeForm::NoIsdu,
        }
    }

    // The outcome with these octets, in place of another.
    pub(crate) fn put(self, octets: &[u8], into: &mut Outcome)
        requires { length octets.now ≤ 232 }
        ensures { into.new ≡ outcome_from self octets.now }
    {
        match self {
            OutcomeForm::Read => into.set_read(octets),
            OutcomeForm::Written => *into = Outcome::Done(Answer::Written),
            OutcomeForm::Refused(error, more) => {
                *into = Outcome::Done(Answer::Refused(error, more));
            }
            OutcomeForm::Unknown(cause) => *into = Outcome::Unknown(cause),
            OutcomeForm::Withdrawn => *into = Outcome::Withdrawn,
            OutcomeForm::NoIsdu => *into = Outcome::NoIsdu,
        }
    }

    fn with(self, octets: &[u8]) -> Outcome
        requires { length octets.now ≤ 232 }
        ensures { result ≡ outcome_from self octets.now }
    {
        let mut outcome = Outcome::Withdrawn;
        self.put(octets, &mut outcome);
        outcome
    }
}

// An entry without its ticket and its octets.
#[derive(Clone, Copy, Debug, PartialEq, Eq)]
pub(crate) enum EntryForm {
    Submitted(RequestForm),
    Urgent(RequestForm),
    Taken,
    Answered(OutcomeForm),
    Withdrawn,
    Collected,
    Abandoned,
}

impl EntryForm {
    pub(crate) fn of(entry: &Entry) -> EntryForm
        ensures { result ≡ form_of_entry entry.now }
    {
        match entry {
            Entry::Submitted(_, request) => EntryForm::Submitted(RequestForm::of(request)),
            Entry::Urgent(_, request) => EntryForm::Urgent(RequestForm::of(request)),
            Entry::Taken(_) => EntryForm::Taken,
            Entry::Answered(_, outcome) => EntryForm::Answered(OutcomeForm::of(outcome)),
            Entry::Withdrawn(_) => EntryForm::Withdrawn,
            Entry::Collected(_) => EntryForm::Collected,
            Entry::Abandoned(_) => EntryForm::Abandoned,
        }
    }

    // The request that it has.
    pub(crate) fn request(self) -> Option<RequestForm>
        ensures { result ≡ request_form_in self }
    {
        match self {
            EntryForm::Submitted(form) | EntryForm::Urgent(form) => Some(form),
            _ => None,
        }
    }

    // The entry of a ticket with these octets.
    pub(crate) fn with(self, ticket: Ticket, octets: &[u8]) -> Entry
        requires { length octets.now ≤ 232 }
        ensures { result ≡ entry_from self ticket octets.now }
    {
        match self {
            EntryForm::Submitted(form) => Entry::Submitted(ticket, form.with(octets)),
            EntryForm::Urgent(form) => Entry::Urgent(ticket, form.with(octets)),
            EntryForm::Taken => Entry::Taken(ticket),
            EntryForm::Answered(form) => Entry::Answered(ticket, form.with(octets)),
            EntryForm::Withdrawn => Entry::Withdrawn(ticket),
            EntryForm::Collected => Entry::Collected(ticket),
            EntryForm::Abandoned => Entry::Abandoned(ticket),
        }
    }
}

// The octets of an entry: of a write those that are written, of a read those that were read.
pub(crate) fn octets_of(entry: &Entry) -> &[u8]
    ensures value { result.now ≡ octets_of_entry entry.now }
    ensures most { length result.now ≤ most_octets (form_of_entry entry.now) }
{
    match entry {
        Entry::Submitted(_, request) | Entry::Urgent(_, request) => octets_of_request(request),
        Entry::Answered(_, outcome) => octets_of_outcome(outcome),
        _ => &[],
    }
}

pub(crate) fn octets_of_request(request: &Request) -> &[u8]
    ensures value { result.now ≡ octets_of_request request.now }
    ensures most { length result.now ≤ most_octets (Submitted (form_of_request request.now)) }
    ensures data { length result.now ≤ most_data }
{
    match request {
        Request::Write(_, octets) => octets.as_slice(),
        Request::Read(_) => &[],
    }
}

pub(crate) fn octets_of_outcome(outcome: &Outcome) -> &[u8]
    ensures value { result.now ≡ octets_of_outcome outcome.now }
    ensures most { length result.now ≤ most_octets (Answered (form_of_outcome outcome.now)) }
    ensures data { length result.now ≤ most_data }
{
    match outcome {
        Outcome::Done(Answer::Read(octets)) => octets.as_slice(),
        _ => &[],
    }
}
