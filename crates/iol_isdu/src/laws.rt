//! Laws of texts, without code.
ghost use Rattle.iol_isdu.specs.Laws.{OneRequestInFront, OneAnswerInFront, OneShortText, OneAnswerText, RequestHoldsLength, AnswerHoldsLength, EachTextIsFound, NoAnswerIsRefused};

/// A text, whatever octets follow it, is the only text that they begin with.
///
/// A law of the definitions; it does nothing when it runs.
///
/// Rule ISDU-10.
///
/// Needed by `iol_app::laws::text_names_its_answer` and the promises of assurance.md.
pub fn one_text_in_front()
    ensures request { OneRequestInFront }
    ensures answer { OneAnswerInFront }
{}

/// The text that is sent for a request, and the text of an answer, as functions.
///
/// Each is the one text there is, holds its own length, and is found again in front of any octets;
/// an answer's is refused by nothing. A law of the definitions; it does nothing when it runs.
///
/// Needed by `iol_app::laws::answers_are_taken_up`, `iol_app::laws::text_names_its_answer`,
/// `iol_port::laws::clean_laws` and 2 more.
pub fn one_text_each()
    ensures request { OneShortText }
    ensures answer { OneAnswerText }
    ensures request_length { RequestHoldsLength }
    ensures answer_length { AnswerHoldsLength }
    ensures found { EachTextIsFound }
    ensures accepted { NoAnswerIsRefused }
{}
