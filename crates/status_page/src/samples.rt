//! Metrics with their samples, in the text form that Prometheus reads: what one means, its kind, and a line a sample.
ghost use Rattle.std.specs.Prelude.{◌≡◌, ◌++◌, OnOk, codes, flat_map, string_bytes};
ghost use Rattle.status_page.specs.Samples.{bucket_sample, figure, histogram_samples, labelled_sample, sample};
ghost use Rattle.status_page.specs.Samples.{scaled_sample};
ghost use Rattle.status_page.specs.Metrics.{request_samples};
ghost use Rattle.status_page.specs.Pages.{build_sample, has, role_sample, role_samples};
ghost use Rattle.status_page.specs.private.Rows.{kind_word, metric_text, samples_text};

use crate::figures::{Bucket, Build, Histogram, Histograms, Labelled, Role};
use std::alloc::AllocError;
use std::fmt::Write;

/// What the numbers of a metric are.
#[derive(Clone, Copy)]
enum Kind {
    Gauge,
    Counter,
    Histogram,
}

/// What a metric has samples of.
#[derive(Clone, Copy)]
pub enum Samples<'a> {
    /// A number.
    Number(u64),
    /// A number; there is no sample where it isn't known.
    Known(Option<u64>),
    /// A number of hundredths, likewise.
    Hundredths(Option<u64>),
    /// A number for each result code.
    ByCode(&'a Vec<Labelled>),
    /// A number for each other replica.
    ByPeer(&'a Vec<Labelled>),
    /// The role that a replica has, and those that it hasn't.
    Roles(Role),
    /// The program's version, and how it was built.
    Build { version: &'a str, build: Build },
    /// How long requests took, by their kind.
    Requests(&'a Histograms),
    /// How long something took.
    Times(&'a Histogram),
}

/// A metric: what it means, its kind and its samples.
#[derive(Clone, Copy)]
pub struct Metric<'a> {
    name: &'static str,
    help: &'static str,
    kind: Kind,
    samples: Samples<'a>,
}

impl Kind {
    /// Its name.
    fn word(self) -> &'static str
        ensures { result.now ≡ kind_word self }
    {
        match self {
            Kind::Gauge => "gauge",
            Kind::Counter => "counter",
            Kind::Histogram => "histogram",
        }
    }
}

/// A metric that goes up and down.
pub fn gauge<'a>(name: &'static str, help: &'static str, samples: Samples<'a>) -> Metric<'a>
    ensures { metric_text result ≡ figure name.now help.now (codes "gauge") (samples_text name.now samples.entry) }
{
    Metric {
        name,
        help,
        kind: Kind::Gauge,
        samples,
    }
}

/// A metric that only goes up.
pub fn counter<'a>(name: &'static str, help: &'static str, samples: Samples<'a>) -> Metric<'a>
    ensures { metric_text result ≡ figure name.now help.now (codes "counter") (samples_text name.now samples.entry) }
{
    Metric {
        name,
        help,
        kind: Kind::Counter,
        samples,
    }
}

/// A metric of how long something took, each time.
pub fn histogram<'a>(name: &'static str, help: &'static str, samples: Samples<'a>) -> Metric<'a>
    ensures { metric_text result ≡ figure name.now help.now (codes "histogram") (samples_text name.now samples.entry) }
{
    Metric {
        name,
        help,
        kind: Kind::Histogram,
        samples,
    }
}

/// Adds a sample.
fn push_number(text: &mut String, name: &str, number: u64) -> Result<(), AllocError>
    ensures { OnOk result (string_bytes text.new ≡ string_bytes text.old ++ sample name.now number) }
{
    writeln!(text, "{name} {number}")
}

/// Adds a sample of so many hundredths.
fn push_hundredths(text: &mut String, name: &str, number: u64) -> Result<(), AllocError>
    ensures { OnOk result (string_bytes text.new ≡ string_bytes text.old ++ scaled_sample name.now number
        (codes "e-2")) }
{
    writeln!(text, "{name} {number}e-2")
}

/// Adds a sample with a label, whose key this is.
fn push_labelled(
    text: &mut String,
    name: &str,
    key: &str,
    sample: Labelled,
) -> Result<(), AllocError>
    ensures { OnOk result (string_bytes text.new ≡ string_bytes text.old ++ labelled_sample name.now key.now sample) }
{
    let (label, number) = (sample.label, sample.number);
    writeln!(text, "{name}{{{key}=\"{label}\"}} {number}")
}

/// Adds samples with labels, a line each.
fn push_all_labelled(
    text: &mut String,
    name: &str,
    key: &str,
    samples: &[Labelled],
) -> Result<(), AllocError>
    ensures { OnOk result (string_bytes text.new ≡ string_bytes text.old ++ flat_map
        (labelled_sample name.now key.now) samples.now) }
{
    for sample in samples {
        push_labelled(text, name, key, *sample)?;
    }
    Ok(())
}

/// 1 for the role that the replica has, and 0 for another.
fn has(own: Role, role: Role) -> u64
    ensures { result ≡ has own role }
{
    u64::from(own == role)
}

/// Adds a sample of a role.
fn push_role(text: &mut String, own: Role, role: Role) -> Result<(), AllocError>
    ensures { OnOk result (string_bytes text.new ≡ string_bytes text.old ++ role_sample own role) }
{
    let (name, number) = (role.name(), has(own, role));
    writeln!(text, "dird_role{{role=\"{name}\"}} {number}")
}

/// Adds a sample of each role.
fn push_roles(text: &mut String, own: Role) -> Result<(), AllocError>
    ensures { OnOk result (string_bytes text.new ≡ string_bytes text.old ++ role_samples own) }
{
    push_role(text, own, Role::Primary)?;
    push_role(text, own, Role::Backup)?;
    push_role(text, own, Role::Changing)?;
    push_role(text, own, Role::Recovering)
}

/// Adds a sample whose labels say the version, and whether the program's proofs were checked.
fn push_build(text: &mut String, version: &str, build: Build) -> Result<(), AllocError>
    ensures { OnOk result (string_bytes text.new ≡ string_bytes text.old ++ build_sample version.now build) }
{
    let (proved, number) = (build.proved_word(), 1_u64);
    writeln!(
        text,
        "dird_build_info{{version=\"{version}\",proved=\"{proved}\"}} {number}"
    )
}

/// Adds a bucket of a histogram.
fn push_bucket(text: &mut String, name: &str, front: &str, bucket: Bucket) -> Result<(), AllocError>
    ensures { OnOk result (string_bytes text.new ≡ string_bytes text.old ++ bucket_sample name.now front.now bucket) }
{
    let (bound, number) = (bucket.bound.word(), bucket.number);
    writeln!(text, "{name}_bucket{{{front}le=\"{bound}\"}} {number}")
}

/// Adds the buckets of a histogram, a line each.
fn push_buckets(
    text: &mut String,
    name: &str,
    front: &str,
    buckets: &[Bucket],
) -> Result<(), AllocError>
    ensures { OnOk result (string_bytes text.new ≡ string_bytes text.old ++ flat_map
        (bucket_sample name.now front.now) buckets.now) }
{
    for bucket in buckets {
        push_bucket(text, name, front, *bucket)?;
    }
    Ok(())
}

/// Adds the samples of a histogram: its buckets, the sum of the seconds, and how often.
fn push_times(
    text: &mut String,
    name: &str,
    front: &str,
    labels: &str,
    times: &Histogram,
) -> Result<(), AllocError>
    ensures { OnOk result (string_bytes text.new ≡ string_bytes text.old ++ histogram_samples name.now front.now
        labels.now times.now) }
{
    push_buckets(text, name, front, times.buckets.as_slice())?;
    let (micros, count) = (times.micros, times.count);
    writeln!(
        text,
        "{name}_sum{labels} {micros}e-6\n{name}_count{labels} {count}"
    )
}

/// Adds the samples of requests.
fn push_requests(text: &mut String, times: &Histograms) -> Result<(), AllocError>
    ensures { OnOk result (string_bytes text.new ≡ string_bytes text.old ++ request_samples times.now) }
{
    let name = "dird_request_seconds";
    push_times(
        text,
        name,
        "kind=\"search\",",
        "{kind=\"search\"}",
        &times.searches,
    )?;
    push_times(
        text,
        name,
        "kind=\"compare\",",
        "{kind=\"compare\"}",
        &times.compares,
    )?;
    push_times(
        text,
        name,
        "kind=\"update\",",
        "{kind=\"update\"}",
        &times.updates,
    )
}

/// Adds the samples of a metric of this name.
fn push_samples(text: &mut String, name: &str, samples: Samples<'_>) -> Result<(), AllocError>
    ensures { OnOk result (string_bytes text.new ≡ string_bytes text.old ++ samples_text name.now samples.entry) }
{
    match samples {
        Samples::Number(number) | Samples::Known(Some(number)) => push_number(text, name, number),
        Samples::Hundredths(Some(number)) => push_hundredths(text, name, number),
        Samples::Known(None) | Samples::Hundredths(None) => Ok(()),
        Samples::ByCode(numbers) => push_all_labelled(text, name, "code", numbers),
        Samples::ByPeer(numbers) => push_all_labelled(text, name, "peer", numbers),
        Samples::Roles(own) => push_roles(text, own),
        Samples::Build { version, build } => push_build(text, version, build),
        Samples::Requests(times) => push_requests(text, times),
        Samples::Times(times) => push_times(text, name, "", "", times),
    }
}

/// Adds a metric: what it means and its kind, and then its samples.
fn push_metric(text: &mut String, metric: Metric<'_>) -> Result<(), AllocError>
    ensures { OnOk result (string_bytes text.new ≡ string_bytes text.old ++ metric_text metric.entry) }
{
    let (name, help, kind) = (metric.name, metric.help, metric.kind.word());
    writeln!(text, "# HELP {name} {help}\n# TYPE {name} {kind}")?;
    push_samples(text, name, metric.samples)
}

/// Adds metrics, one behind the other.
pub fn push_metrics(text: &mut String, metrics: &[Metric<'_>]) -> Result<(), AllocError>
    ensures { OnOk result (string_bytes text.new ≡ string_bytes text.old ++ flat_map metric_text metrics.now) }
{
    for metric in metrics {
        push_metric(text, *metric)?;
    }
    Ok(())
}
