//! The forms of the lines of a service's configuration.
ghost use Rattle.std.specs.Prelude.{◌≡◌, ◌<◌, ◌++◌, ◌∷◌, ℕ, List, length, suc};
ghost use Rattle.sip_lex.specs.Cut.{Lacks};
ghost use Rattle.proxy_config.specs.TextLine.{AreLines, written};
ghost use Rattle.service_config.specs.ServiceForm.{form_of_service_word, service_form_at, service_form_of_line, service_form_of_word};

use proxy_config::line_at;
use sip_lex::cut_at;
use thiserror::Error;

/// What a line of a service's configuration should be, with the words that a program prints. Each sentence names all that a line
/// with this word has to meet, its place among the lines too, since which of it a malformed line does not meet is not known here.
#[derive(Clone, Copy, Debug, PartialEq, Eq, Error)]
pub enum ServiceForm {
    /// The address and the port that the proxy receives at.
    #[error("the first line, and no other, is exactly `own ADDRESS PORT`: an IPv4 address, not 0.0.0.0, and a port from 1 to 65535, without leading zeros; no carriage return stands behind them")]
    Own,
    /// The number that tells a run of the proxy from its others.
    #[error("`instance NUMBER` stands once at most, right behind own: from 0 to 4294967295, without leading zeros")]
    Instance,
    /// The domain that the proxy answers for.
    #[error("`domain HOST` stands once, right behind own or instance: a name or an IPv4 address of letters, digits, `-` and `.`, or an IPv6 address in square brackets")]
    Domain,
    /// The preferred statuses.
    #[error("`prefer LIST` stands once at most, right behind domain: `-`, or at most 16 rising statuses from 400 to 499 with nothing but commas between")]
    Prefer,
    /// How many redirections in a row are followed.
    #[error("`depth STEPS` stands once at most, behind domain and prefer, before ring: from 0 to 256, without leading zeros")]
    Depth,
    /// How long a branch rings.
    #[error("`ring SECONDS` stands once at most, behind depth, before large: from 1 to 181, without leading zeros")]
    Ring,
    /// Whether large requests go over TCP.
    #[error("`large tcp` stands once at most, exactly so, behind ring, before realm")]
    Large,
    /// In which realm passwords are known.
    #[error("`realm TEXT` or `realm TEXT ALGORITHMS` stands once at most, behind large, before expires: TEXT 1 to 64 printed ASCII characters without quote and backslash; ALGORITHMS one of MD5, SHA-256, SHA-256,MD5 and MD5,SHA-256")]
    Realm,
    /// For how long telephones register.
    #[error("`expires LEAST USUAL MOST` stands once at most, behind realm, before strangers: seconds, 1 <= LEAST <= USUAL <= MOST <= 604800, without leading zeros")]
    Expires,
    /// Whether those whom nobody knows may call.
    #[error("`strangers` stands once at most, alone on its line, behind expires, before trust")]
    Strangers,
    /// A net whose senders are trusted.
    #[error("`trust A.B.C.D/N` stands behind strangers, before gateway: N from 0 to 32, without leading zeros as each number of the address, and all bits behind the first N are 0")]
    Trust,
    /// Where requests for users that the domain has not got are sent.
    #[error("`gateway Q URI` stands behind trust, before location, 16 times at most: Q from 0 to 1000, without leading zeros; URI a sip URI of an IPv4 address, without user, headers or maddr and with no transport but udp or, unless --no-tcp is given, tcp; and no other gateway has its address and port")]
    Gateway,
    /// Where a user may be reached.
    #[error("`location USER Q URI` or `location USER Q URI SECONDS` stands behind all others: USER of printed ASCII; Q from 0 to 1000; URI a sip URI of an IPv4 address, without headers or maddr and with no transport but udp or, unless --no-tcp is given, tcp; SECONDS from 1 to 181; numbers without leading zeros; a user has 256 targets at most, and none twice")]
    Location,
    /// No line begins with this word.
    #[error("each line is empty, begins with `#`, or begins with own, instance, domain, prefer, depth, ring, large, realm, expires, strangers, trust, gateway or location, in lower case, and one space behind all but strangers")]
    Unknown,
    /// There is no such line.
    #[error("the text ends before this line or within it: each line is ended by a line feed, and own and domain have to be there")]
    Missing,
}

/// The form by one of the words that a setup has not.
fn form_of_service_word(word: &[u8]) -> ServiceForm
    ensures { result ≡ form_of_service_word word.now }
{
    if word == b"ring".as_slice() {
        ServiceForm::Ring
    } else if word == b"large".as_slice() {
        ServiceForm::Large
    } else if word == b"realm".as_slice() {
        ServiceForm::Realm
    } else if word == b"expires".as_slice() {
        ServiceForm::Expires
    } else if word == b"strangers".as_slice() {
        ServiceForm::Strangers
    } else if word == b"trust".as_slice() {
        ServiceForm::Trust
    } else if word == b"gateway".as_slice() {
        ServiceForm::Gateway
    } else {
        ServiceForm::Unknown
    }
}

fn service_form_of_word(word: &[u8]) -> ServiceForm
    ensures { result ≡ service_form_of_word word.now }
{
    if word == b"own".as_slice() {
        ServiceForm::Own
    } else if word == b"instance".as_slice() {
        ServiceForm::Instance
    } else if word == b"domain".as_slice() {
        ServiceForm::Domain
    } else if word == b"prefer".as_slice() {
        ServiceForm::Prefer
    } else if word == b"depth".as_slice() {
        ServiceForm::Depth
    } else if word == b"location".as_slice() {
        ServiceForm::Location
    } else {
        form_of_service_word(word)
    }
}

/// The form by what stands before the first space, or by all of a line without one.
fn service_form_of_line(line: &[u8]) -> ServiceForm
    ensures { result ≡ service_form_of_line line.now }
{
    service_form_of_word(cut_at(line, b' ').0)
}

fn service_form_by_number(text: &[u8], number: usize) -> ServiceForm
    ensures { result ≡ service_form_at text.now number }
{
    match line_at(text, number) {
        None => ServiceForm::Missing,
        Some(line) => service_form_of_line(line),
    }
}

/// What the line of a service's text with this number, counted from 1, should be: by its first word, and by nothing behind that.
/// `Missing` where the text has no such line that a line feed ends.
pub fn service_form_at(text: &[u8], number: usize) -> ServiceForm
    ensures value { result ≡ service_form_at text.now number }
    // Behind lines that are each ended by LF it is the form of the next one; where no LF ends that, there is none.
    ensures found { (lines : List (List ℕ)) (line rest : List ℕ) → AreLines lines → Lacks 10 line
        → text.now ≡ written lines (line ++ 10 ∷ rest) → number ≡ suc (length lines) → result ≡ service_form_of_line line }
    ensures missing { (lines : List (List ℕ)) (rest : List ℕ) → AreLines lines → Lacks 10 rest
        → text.now ≡ written lines rest → length lines < number → result ≡ ServiceForm.Missing }
{
    service_form_by_number(text, number)
}

/// A malformed line of a service's configuration, counted from 1, and what it should be, on a line of its own.
#[derive(Clone, Copy, Debug, PartialEq, Eq, Error)]
#[error("line {number}: malformed\n{form}")]
pub struct ServiceMalformed {
    pub number: usize,
    pub form: ServiceForm,
}

impl ServiceMalformed {
    /// The line of this number of a text.
    pub fn of(text: &[u8], number: usize) -> ServiceMalformed
        ensures { result ≡ record { number = number; form = service_form_at text.now number } }
    {
        ServiceMalformed {
            number,
            form: service_form_at(text, number),
        }
    }
}
