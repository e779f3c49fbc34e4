//! Values that stand alone: counters and gauges.
ghost use Rattle.std.specs.Prelude.{◌≡◌, ◌++◌, OnOk};
ghost use Rattle.metrics.specs.Metrics.{head_text, help_line, kind_text, metric_text, metrics_text, number_end, type_line, value_line};

use sip_lex::append_decimal;
use std::alloc::{AllocError, Allocator};

/// What a value is.
#[derive(Clone, Copy, PartialEq, Eq, Debug)]
pub enum MetricKind {
    /// It rises only.
    Counter,
    /// It rises and falls.
    Gauge,
    /// It is counted by classes.
    Histogram,
}

/// A value with its name.
#[derive(Clone, Copy)]
pub struct Metric<'a> {
    pub name: &'a [u8],
    /// What it is, in a line: no backslash and no line feed stand in it.
    pub help: &'a [u8],
    pub kind: MetricKind,
    pub value: u64,
}

/// The word of a kind.
fn kind_text(kind: MetricKind) -> &'static [u8]
    ensures { result.now ≡ kind_text kind }
{
    match kind {
        MetricKind::Counter => b"counter",
        MetricKind::Gauge => b"gauge",
        MetricKind::Histogram => b"histogram",
    }
}

/// Appends the line that says of which kind a name is.
fn append_type<A: Allocator>(
    out: &mut Vec<u8, A>,
    name: &[u8],
    kind: MetricKind,
) -> Result<(), AllocError>
    ensures { OnOk result (out.new.items ≡ out.old.items ++ type_line name.now kind) }
{
    out.extend_from_slice(b"# TYPE ")?;
    out.extend_from_slice(name)?;
    out.push(b' ')?;
    out.extend_from_slice(kind_text(kind))?;
    out.push(b'\n')?;
    Ok(())
}

/// Appends the line that says what a name counts.
fn append_help<A: Allocator>(
    out: &mut Vec<u8, A>,
    name: &[u8],
    help: &[u8],
) -> Result<(), AllocError>
    ensures { OnOk result (out.new.items ≡ out.old.items ++ help_line name.now help.now) }
{
    out.extend_from_slice(b"# HELP ")?;
    out.extend_from_slice(name)?;
    out.push(b' ')?;
    out.extend_from_slice(help)?;
    out.push(b'\n')?;
    Ok(())
}

/// Appends what stands before the values of a name: what it counts, and of which kind it is.
pub(crate) fn append_head<A: Allocator>(
    out: &mut Vec<u8, A>,
    name: &[u8],
    help: &[u8],
    kind: MetricKind,
) -> Result<(), AllocError>
    ensures { OnOk result (out.new.items ≡ out.old.items ++ head_text name.now help.now kind) }
{
    append_help(out, name, help)?;
    append_type(out, name, kind)
}

/// Appends a space, a number and the end of the line.
pub(crate) fn append_number<A: Allocator>(out: &mut Vec<u8, A>, n: u64) -> Result<(), AllocError>
    ensures { OnOk result (out.new.items ≡ out.old.items ++ number_end n) }
{
    out.push(b' ')?;
    append_decimal(out, n)?;
    out.push(b'\n')?;
    Ok(())
}

/// Appends a value with what stands before it.
pub(crate) fn append_value<A: Allocator>(
    out: &mut Vec<u8, A>,
    name: &[u8],
    suffix: &[u8],
    value: u64,
) -> Result<(), AllocError>
    ensures { OnOk result (out.new.items ≡ out.old.items ++ value_line name.now suffix.now value) }
{
    out.extend_from_slice(name)?;
    out.extend_from_slice(suffix)?;
    append_number(out, value)
}

fn append_metric<A: Allocator>(out: &mut Vec<u8, A>, metric: &Metric<'_>) -> Result<(), AllocError>
    ensures { OnOk result (out.new.items ≡ out.old.items ++ metric_text metric.now) }
{
    append_head(out, metric.name, metric.help, metric.kind)?;
    append_value(out, metric.name, b"", metric.value)
}

/// Appends values, each behind the lines that say what it is and of which kind.
///
/// # Errors
///
/// Only where a growth of `out` is refused; a part may stand there then.
pub fn append_metrics<A: Allocator>(
    out: &mut Vec<u8, A>,
    metrics: &[Metric<'_>],
) -> Result<(), AllocError>
    ensures { OnOk result (out.new.items ≡ out.old.items ++ metrics_text metrics.now) }
{
    for metric in metrics {
        append_metric(out, metric)?;
    }
    Ok(())
}
