//! Tests of segments: texts of each length, cut and joined by each size, and laws.
ghost use Rattle.std.specs.Prelude.{◌≤◌, IfOk};
ghost use Rattle.iol_isdu.specs.Answers.{AnswersKind, is_read};

use iol_isdu::{
    Answer, IsduFault, Octets, Place, Request, encode_answer, encode_request, read_answer,
    read_request,
};
use iol_octets::{Flow, OdLength, segment_number};
use iol_segment::{
    Cutter, JoinFault, Joiner, Reaction, Source, cut_is_whole, segments_join, sources_are_texts,
    texts_join,
};
use std::test::Fail;

const SIZES: [usize; 4] = [1, 2, 8, 32];

/// As many as a segment is filled up with at most.
static ZEROS: [u8; 32] = [0; 32];

fn at(index: u16, sub: u8) -> Place {
    Place { index, sub }
}

/// The reaction to a read that brought these octets.
fn read_reaction(octets: &[u8]) -> Result<Reaction, Fail>
    ensures { IfOk result (λ r. AnswersKind (is_read r.request) r.answer) }
{
    Ok(Reaction {
        request: Request::read(at(16, 0)),
        answer: Answer::Read(Octets::try_from(octets)?),
    })
}

/// Gives a joiner a text, cut by this size.
fn take_all(joiner: &mut Joiner, text: &[u8], size: usize) -> Result<(), JoinFault>
    requires { 1 ≤ size }
{
    for (number, chunk) in text.chunks(size).enumerate() {
        let flow = match number {
            0 => Flow::Start,
            _ => Flow::Count(segment_number(number)),
        };
        joiner.take(flow, chunk)?;
    }
    Ok(())
}

/// Whether a cutter by this size gives the text, filled up with 0.
fn cuts<S: Source + Drop>(source: S, text: &[u8], size: usize) -> bool {
    let length = OdLength::new(size.clamp(1, 32) as u8).unwrap();
    let size = length.get() as usize;
    let mut cutter = Cutter::new(source, length);
    for chunk in text.chunks(size) {
        let Some((_, segment)) = cutter.next() else {
            return false;
        };
        if segment.len() != size || !is_filled_up(&segment, chunk) {
            return false;
        }
    }
    cutter.next().is_none()
}

/// Whether a segment is these octets, and 0 behind them.
fn is_filled_up(segment: &[u8], octets: &[u8]) -> bool {
    match segment.strip_prefix(octets) {
        Some(rest) => ZEROS.starts_with(rest),
        None => false,
    }
}

/// The request that a text joins to, or the number of its refusal.
fn joined_request(text: &[u8], size: usize) -> Result<Request, u8> {
    let mut joiner = Joiner::new();
    take_all(&mut joiner, text, size.max(1)).map_err(|fault| fault.code())?;
    if joiner.is_whole() {
        joiner.into_request().map_err(|fault| fault.code())
    } else {
        Err(IsduFault::Truncated.code())
    }
}

/// The answer that a text joins to, or the number of its refusal.
fn joined_answer(request: &Request, text: &[u8], size: usize) -> Result<Answer, u8> {
    let mut joiner = Joiner::new();
    take_all(&mut joiner, text, size.max(1)).map_err(|fault| fault.code())?;
    if joiner.is_whole() {
        joiner.into_answer(request).map_err(|fault| fault.code())
    } else {
        Err(IsduFault::Truncated.code())
    }
}

/// Whether a joiner says of a text, by each size, what its readers say.
fn both_ways(text: &[u8]) -> bool {
    let request = read_request(text).map_err(|fault| fault.code());
    let read = Request::read(at(16, 0));
    let answer = read_answer(&read, text).map_err(|fault| fault.code());
    SIZES.iter().all(|size| {
        joined_request(text, *size) == request && joined_answer(&read, text, *size) == answer
    })
}

/// No row has them all: 233 lengths, each cut and joined by four sizes.
#[test]
fn all_lengths(rt: HostRuntime) -> Result<(), Fail> {
    let octets: [u8; 232] = std::array::from_fn(|i| i as u8);
    let places = [at(16, 0), at(16, 7), at(0x1234, 5)];
    for count in 0..=232 {
        let request = Request::write(places[count % 3], &octets[..count])?;
        let text = encode_request(&request);
        assert!(rt; both_ways(&text));
        let reaction = read_reaction(&octets[..count])?;
        let answer = encode_answer(&reaction.request, &reaction.answer);
        assert!(rt; both_ways(&answer));
        for size in SIZES {
            assert!(rt;
                cuts(request.clone()?, &text, size) && cuts(reaction.clone()?, &answer, size)
            );
        }
    }
    Ok(())
}

#[test]
fn laws_speak_of_each_text() {
    sources_are_texts();
    cut_is_whole();
    texts_join();
    segments_join();
}
