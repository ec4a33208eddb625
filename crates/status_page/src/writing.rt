//! The octets of a response.
ghost use Rattle.std.specs.Prelude.{◌≡◌, IfOk, string_bytes};
ghost use Rattle.status_page.specs.Pages.{bad_request_octets, head, live_octets, page_octets, ready_octets};
ghost use Rattle.status_page.specs.Pages.{ready_since, response, resuming_text};
ghost use Rattle.status_page.specs.Pages.{unavailable};
ghost use Rattle.status_page.specs.declared.figures.Start.TheVariants as start;

use crate::asking::{Method, Page};
use crate::figures::{Counts, Figures, Role, Start, Trouble};
use crate::metrics::push_all;
use std::alloc::{AllocError, Global};

/// What a response of this status begins with, before a text of this length.
fn head(alloc: Global, status: &str, length: usize) -> Result<String, AllocError>
    ensures { IfOk result (λ s. string_bytes s ≡ head status.now length) }
{
    format!(in alloc;
        "HTTP/1.1 {status}\r\nContent-Type: text/plain; version=0.0.4; charset=utf-8\r\nContent-Length: {length}\r\nConnection: close\r\n\r\n"
    )
}

/// A response of this status, with this text, or without it where its head alone is wanted.
fn response(alloc: Global, method: Method, status: &str, text: &str) -> Result<String, AllocError>
    ensures { IfOk result (λ s. string_bytes s ≡ response method status.now text.now) }
{
    let mut octets = head(alloc, status, text.len())?;
    match method {
        Method::Get => octets.push_str(text)?,
        Method::Head => {}
    }
    Ok(octets)
}

/// The response to a request for this page, by a program of this version. Its only error is want of memory.
pub fn page(
    alloc: Global,
    method: Method,
    page: Page,
    version: &str,
    figures: &Figures,
    counts: &Counts,
) -> Result<String, AllocError>
    ensures { IfOk result (λ s. string_bytes s ≡ page_octets method page version.now figures.now counts.now) }
{
    match page {
        Page::Live => live(alloc, method, figures.trouble),
        Page::Ready => ready(alloc, method, figures),
        Page::Metrics => {
            let mut text = String::new(alloc);
            push_all(&mut text, version, figures, counts)?;
            response(alloc, method, "200 OK", &text)
        }
        Page::None => response(
            alloc,
            method,
            "404 Not Found",
            "GET /live, /ready or /metrics\n",
        ),
    }
}

/// A response of a replica that doesn't serve.
fn unavailable(alloc: Global, method: Method, text: &str) -> Result<String, AllocError>
    ensures { IfOk result (λ s. string_bytes s ≡ unavailable method text.now) }
{
    response(alloc, method, "503 Service Unavailable", text)
}

/// Whether the process lives.
fn live(alloc: Global, method: Method, trouble: Trouble) -> Result<String, AllocError>
    ensures { IfOk result (λ s. string_bytes s ≡ live_octets method trouble) }
{
    match trouble {
        Trouble::None | Trouble::Stuck | Trouble::NoMajority => {
            response(alloc, method, "200 OK", "live\n")
        }
        Trouble::Hung => unavailable(alloc, method, "stuck\n"),
    }
}

/// Whether the replica serves clients: its role, or what keeps it from serving.
fn ready(alloc: Global, method: Method, figures: &Figures) -> Result<String, AllocError>
    ensures { IfOk result (λ s. string_bytes s ≡ ready_octets method figures.now) }
{
    match figures.trouble {
        Trouble::None => ready_since(alloc, method, figures.start, figures.role),
        Trouble::Stuck | Trouble::Hung => unavailable(alloc, method, "stuck\n"),
        Trouble::NoMajority => unavailable(alloc, method, "no majority\n"),
    }
}

/// Whether the replica serves clients, by how far its start is.
fn ready_since(
    alloc: Global,
    method: Method,
    start: Start,
    role: Role,
) -> Result<String, AllocError>
    ensures { IfOk result (λ s. string_bytes s ≡ ready_since method start role) }
{
    match start {
        Start::Over => ready_as(alloc, method, role),
        Start::Reading { octets, whole } => resuming(alloc, method, octets, whole, "octets"),
        Start::Resuming { records, whole } => resuming(alloc, method, records, whole, "records"),
    }
}

/// How much of its journal a replica has gone over, of how much.
fn resuming(
    alloc: Global,
    method: Method,
    done: u64,
    whole: u64,
    what: &str,
) -> Result<String, AllocError>
    ensures { IfOk result (λ s. string_bytes s ≡ unavailable method (resuming_text done whole what.now)) }
{
    let text = format!(in alloc; "resuming, {done} of {whole} {what}\n")?;
    unavailable(alloc, method, &text)
}

/// Whether the replica serves clients, and its role.
fn ready_as(alloc: Global, method: Method, role: Role) -> Result<String, AllocError>
    ensures { IfOk result (λ s. string_bytes s ≡ ready_since method start.Over role) }
{
    let name = role.name();
    let text = format!(in alloc; "{name}\n")?;
    let status = if role.serves() {
        "200 OK"
    } else {
        "503 Service Unavailable"
    };
    response(alloc, method, status, &text)
}

/// The response to what is no request. Its only error is want of memory.
pub fn bad_request(alloc: Global) -> Result<String, AllocError>
    ensures { IfOk result (λ s. string_bytes s ≡ bad_request_octets) }
{
    response(
        alloc,
        Method::Get,
        "400 Bad Request",
        "no request that is understood here\n",
    )
}
