//! The forms of lines.
ghost use Rattle.std.specs.Prelude.{◌≡◌, ◌<◌, ◌++◌, ◌∷◌, ℕ, List, length, suc};
ghost use Rattle.sip_lex.specs.Cut.{Lacks};
ghost use Rattle.proxy_config.specs.Form.{form_at, form_of_line, form_of_word};
ghost use Rattle.proxy_config.specs.TextLine.{AreLines, written};

use crate::text_lines::line_at;
use sip_lex::cut_at;
use thiserror::Error;

/// What a line should be, with the words that a program prints. Each sentence names all that a line with this word has to
/// meet, its place among the lines too, since which of it a malformed line does not meet is not known here.
#[derive(Clone, Copy, Debug, PartialEq, Eq, Error)]
pub enum Form {
    /// The address and the port that the proxy receives at.
    #[error("the first line, and no other, is exactly `own ADDRESS PORT`: an IPv4 address, not 0.0.0.0, and a port from 1 to 65535, without leading zeros; no carriage return stands behind them")]
    Own,
    /// The number that tells a run of the proxy from its others.
    #[error("the second line, and no other, is exactly `instance NUMBER`: from 0 to 4294967295, without leading zeros")]
    Instance,
    /// The domain that the proxy answers for.
    #[error("the third line, and no other, is exactly `domain HOST`: a name or an IPv4 address of letters, digits, `-` and `.`, or an IPv6 address in square brackets")]
    Domain,
    /// The preferred statuses.
    #[error("`prefer LIST` stands once at most, right behind domain: `-`, or at most 16 rising statuses from 400 to 499 with nothing but commas between")]
    Prefer,
    /// How many redirections in a row are followed.
    #[error("`depth STEPS` stands once at most, right behind domain or prefer: from 0 to 256, without leading zeros")]
    Depth,
    /// Where a user may be reached.
    #[error("`location USER Q URI` stands behind all others: USER of printed ASCII; Q from 0 to 1000, without leading zeros; URI a sip URI of an IPv4 address, without headers or maddr and with no transport but udp; a user has 256 targets at most, and none twice")]
    Location,
    /// No line begins with this word.
    #[error("each line begins with own, instance, domain, prefer, depth or location, in lower case, and one space; no line is empty or a comment")]
    Unknown,
    /// There is no such line.
    #[error("the text ends before this line or within it: each line is ended by a line feed, and own, instance and domain have to be there")]
    Missing,
}

fn form_of_word(word: &[u8]) -> Form
    ensures { result ≡ form_of_word word.now }
{
    if word == b"own".as_slice() {
        Form::Own
    } else if word == b"instance".as_slice() {
        Form::Instance
    } else if word == b"domain".as_slice() {
        Form::Domain
    } else if word == b"prefer".as_slice() {
        Form::Prefer
    } else if word == b"depth".as_slice() {
        Form::Depth
    } else if word == b"location".as_slice() {
        Form::Location
    } else {
        Form::Unknown
    }
}

/// The form by what stands before the first space, or by all of a line without one.
fn form_of_line(line: &[u8]) -> Form
    ensures { result ≡ form_of_line line.now }
{
    form_of_word(cut_at(line, b' ').0)
}

fn form_by_number(text: &[u8], number: usize) -> Form
    ensures { result ≡ form_at text.now number }
{
    match line_at(text, number) {
        None => Form::Missing,
        Some(line) => form_of_line(line),
    }
}

/// What the line of a text with this number, counted from 1, should be: by its first word, and by nothing behind that.
/// `Missing` where the text has no such line that a line feed ends.
pub fn form_at(text: &[u8], number: usize) -> Form
    ensures value { result ≡ form_at text.now number }
    // Behind lines that are each ended by LF it is the form of the next one; where no LF ends that, there is none.
    ensures found { (lines : List (List ℕ)) (line rest : List ℕ) → AreLines lines → Lacks 10 line
        → text.now ≡ written lines (line ++ 10 ∷ rest) → number ≡ suc (length lines) → result ≡ form_of_line line }
    ensures missing { (lines : List (List ℕ)) (rest : List ℕ) → AreLines lines → Lacks 10 rest
        → text.now ≡ written lines rest → length lines < number → result ≡ Form.Missing }
{
    form_by_number(text, number)
}

/// A malformed line of a configuration, counted from 1, and what it should be, on a line of its own.
#[derive(Clone, Copy, Debug, PartialEq, Eq, Error)]
#[error("line {number}: malformed\n{form}")]
pub struct Malformed {
    pub number: usize,
    pub form: Form,
}

impl Malformed {
    /// The line of this number of a text.
    pub fn of(text: &[u8], number: usize) -> Malformed
        ensures { result ≡ record { number = number; form = form_at text.now number } }
    {
        Malformed {
            number,
            form: form_at(text, number),
        }
    }
}
