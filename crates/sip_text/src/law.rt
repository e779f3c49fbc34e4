//! Laws of reading and writing.

ghost use Rattle.std.specs.Prelude.{◌≡◌, ◌++◌, List, Ok, Err, true, ℕ};
ghost use Rattle.std.specs.List.{list_all};
ghost use Rattle.sip_lex.specs.Bytes.{trim};
ghost use Rattle.sip_text.specs.Grammar.{IsText};
ghost use Rattle.sip_text.specs.Message.{IsMessage, is_value, read_at};
ghost use Rattle.sip_text.specs.Name.{values_of};
ghost use Rattle.sip_text.specs.Reading.{Fault};
ghost use Rattle.sip_text.specs.Refusal.{IsRefused};
ghost use Rattle.sip_text.specs.Text.{MessageText, spelling};

/// What a message is written as is a text of that message.
pub fn spelling_is_text()
    ensures { (m : MessageText) → IsMessage m → IsText (spelling m) m }
{}

/// What a text spells is a message, so it may be made of parts.
pub fn text_is_message()
    ensures { (text : List ℕ) (m : MessageText) → IsText text m → IsMessage m }
{}

/// A message that is written and read again is the same, whether it was read or made of parts.
pub fn round_trip()
    ensures { (m : MessageText) → IsMessage m → read_at (spelling m) ≡ Ok m }
{}

/// A text that is refused has the fault that is named, and a text that has it is refused so: of the
/// line at its front, its header lines, the fields that each message has, or its body.
pub fn faults_are_of_the_text()
    ensures found { (text : List ℕ) (f : Fault) → read_at text ≡ Err f → IsRefused text f }
    ensures only { (text : List ℕ) (f : Fault) → IsRefused text f → read_at text ≡ Err f }
{}

/// The values of a message's headers, of each name, are such as a header may have.
pub fn header_values_are_values()
    ensures { (m : MessageText) (name : List ℕ) → IsMessage m → list_all is_value (values_of name m.headers) ≡ true }
{}

/// A part of a value that a header may have is such a value, too, without the space at its ends.
pub fn trimmed_part_is_a_value()
    ensures { (front part back : List ℕ) → is_value (front ++ (part ++ back)) ≡ true → is_value (trim part) ≡ true }
{}
