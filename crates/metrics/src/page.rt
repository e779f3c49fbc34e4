//! What a scraper is answered.
ghost use Rattle.std.specs.Prelude.{◌≡◌, OnOk};
ghost use Rattle.http_server.specs.Response.{IsBlank};
ghost use Rattle.metrics.specs.Page.{IsPage, kind_of, page_kind};

use bytes::{BufMut, Bytes};
use http::{HeaderValue, Request, StatusCode, header};
use http_server::{Response, Service};
use std::alloc::AllocError;

/// What a request gets.
#[derive(Clone, Copy, PartialEq, Eq, Debug)]
pub enum PageKind {
    /// The counters.
    Counters,
    /// 404: there is nothing at this path.
    NoSuchPath,
    /// 405: the counters are got by GET alone.
    NoSuchMethod,
}

/// What a request with this path and this method gets.
pub fn page_kind(path: &[u8], method: &[u8]) -> PageKind
    ensures { result ≡ page_kind path.now method.now }
{
    if path != b"/metrics".as_slice() {
        PageKind::NoSuchPath
    } else if method != b"GET".as_slice() {
        PageKind::NoSuchMethod
    } else {
        PageKind::Counters
    }
}

/// What a request gets.
#[tactic(auto, unfolding(crate::specs::Page::kind_of))]
fn kind_of(request: &Request<Bytes>) -> PageKind
    ensures { result ≡ kind_of request.now }
{
    let path = request.uri().path().as_bytes();
    let method = request.method().as_str().as_bytes();
    page_kind(path, method)
}

/// Fills a blank response.
fn fill(response: &mut Response, kind: PageKind, text: &[u8]) -> Result<(), AllocError>
    requires { IsBlank response.old }
    ensures { OnOk result (IsPage kind text.now response.new) }
{
    match kind {
        PageKind::Counters => {
            let form = HeaderValue::from_static("text/plain; version=0.0.4");
            response.add_header(header::CONTENT_TYPE, form)?;
            response.body.put_slice(text)?;
        }
        PageKind::NoSuchPath => response.status = StatusCode::NOT_FOUND,
        PageKind::NoSuchMethod => {
            response.status = StatusCode::METHOD_NOT_ALLOWED;
            response.add_header(header::ALLOW, HeaderValue::from_static("GET"))?;
        }
    }
    response.add_header(header::CONNECTION, HeaderValue::from_static("close"))
}

/// The counters as they are answered to one scraper: a GET of `/metrics` gets them with status 200, another method 405, another path
/// 404. The connection is closed behind the answer.
#[derive(Drop)]
pub struct Page<'a> {
    pub text: &'a [u8],
}

impl<'a> Service for Page<'a> {
    ghost use Rattle.std.specs.Prelude.{◌≡◌};
    ghost use Rattle.metrics.specs.Page.{IsPage, kind_of};

    ghost answers = { λ old request response new. IsPage (kind_of request) old.text.now response × (new ≡ old) };

    fn call(
        &mut self,
        request: &Request<Bytes>,
        response: &mut Response,
    ) -> Result<(), AllocError> {
        fill(response, kind_of(request), self.text)
    }
}
