//! Where the rows and the stored answers of a fork come from.
ghost use Rattle.fork_model.specs.Sources.{AddsNoRow, NewRowsAreContacts, EventsStoreAnswers, StoredAnswersCame, StoredAnswersPass, BecameIsExact};

/// Only contacts add targets: an event without any adds no row, and a row that an event adds has the key, the q and
/// the place of one of its contacts (RFC 3261 section 16.7 step 4).
///
/// A law over the definitions, with nothing to run.
pub fn new_rows_are_contacts()
    ensures none { AddsNoRow }
    ensures each { NewRowsAreContacts }
{}

/// What is stored came: a stored answer that was received is that of the event at its arrival, for its own row, with
/// that answer's status and challenges, and with contacts of it alone; one that was not received is the 408 of a timeout
/// or the 503 of a transport error, and has neither contacts nor challenges (RFC 3261 sections 16.7 step 6, 16.8, 16.9).
///
/// A law over the definitions, with nothing to run. It holds of one event and over every history; and so what every
/// contact and challenge passes that came is passed by all that are stored.
pub fn stored_answers_came()
    ensures by_event { EventsStoreAnswers }
    ensures always { StoredAnswersCame }
    ensures tested { StoredAnswersPass }
{}

/// The numbers that a reply lists are those of the rows that pass its test after the event and did not before: no row
/// is left out.
///
/// A law over the definitions, with nothing to run.
pub fn replies_list_all_that_became()
    ensures { BecameIsExact }
{}
