//! Answers monitors over HTTP/1.1 (RFC 9112): whether the replica lives, whether it serves clients,
//! and its figures in the text form of Prometheus. Octets of a request become octets of a response;
//! sockets are above.
//!
//! What monitors get over HTTP/1.1: `asking` reads a request's head (by `httparse`), `writing` writes the pages of
//! `figures`, by `metrics` and `samples`.
//!
//! Proved: only a whole head that names a page asks for it; a head is bad only where no whole one can come, or past 64
//! fields (`head_of`). A page's octets are a definition: status, length, each figure once, in order (`page`,
//! `bad_request`).
#![tactic(auto)]

mod asking;
mod figures;
mod metrics;
mod samples;
mod writing;

pub use asking::{Head, Method, Page, head_of};
pub use figures::{
    Bucket, BucketBound, Build, ClientCounts, Counts, Figures, Histogram, Histograms, Labelled,
    PeerCounts, ProcessCounts, Role, Start, Trouble,
};
pub use writing::{bad_request, page};
