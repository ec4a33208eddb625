//! Which page the head of a request asks for.
ghost use Rattle.status_page.specs.Asking.{TellsHead, IsPage, IsMethod};

use httparse::Status;
use httparse::spans::{EMPTY_HEADER_SPAN, parse_request};

/// How many header fields a request may have.
const FIELDS: usize = 64;

/// A page.
#[derive(Clone, Copy)]
pub enum Page {
    /// Whether the process lives.
    Live,
    /// Whether the replica serves clients.
    Ready,
    /// The replica's figures.
    Metrics,
    /// There is none for this method and path.
    None,
}

/// How a page is asked for.
#[derive(Clone, Copy)]
pub enum Method {
    /// Its head alone is wanted (RFC 9110 9.3.2).
    Head,
    /// The page is wanted whole.
    Get,
}

/// What the octets are that have come of a request.
#[derive(Clone, Copy)]
pub enum Head {
    /// A whole head, which asks for this page in this way.
    Asks(Method, Page),
    /// No whole head yet.
    Part,
    /// No head that is understood here.
    Bad,
}

/// The page of a method and a path.
fn page_of(method: &[u8], path: &[u8]) -> Page
    ensures { IsPage method.now path.now result }
{
    if method != b"GET".as_slice() && method != b"HEAD".as_slice() {
        return Page::None;
    }
    if path == b"/live".as_slice() {
        Page::Live
    } else if path == b"/ready".as_slice() {
        Page::Ready
    } else if path == b"/metrics".as_slice() {
        Page::Metrics
    } else {
        Page::None
    }
}

/// How a method asks.
fn method_of(method: &[u8]) -> Method
    ensures { IsMethod method.now result }
{
    if method == b"HEAD".as_slice() {
        Method::Head
    } else {
        Method::Get
    }
}

/// What the octets are that have come of a request.
pub fn head_of(octets: &[u8]) -> Head
    ensures { TellsHead octets.now result }
{
    let mut fields = [EMPTY_HEADER_SPAN; FIELDS];
    match parse_request(octets, &mut fields) {
        Ok(Status::Complete(head)) => {
            let method = head.method.of(octets);
            Head::Asks(method_of(method), page_of(method, head.path.of(octets)))
        }
        Ok(Status::Partial) => Head::Part,
        Err(_) => Head::Bad,
    }
}
