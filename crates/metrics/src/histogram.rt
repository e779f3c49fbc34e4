//! How long something took, counted by classes.
ghost use Rattle.std.specs.Prelude.{◌≡◌, ◌≤◌, ◌<◌, ◌++◌, ℕ, IfOk, OnOk, length, slice_index};
ghost use Rattle.metrics.specs.Metrics.{bucket_line, buckets_text, class_name, ends_text, histogram_text, last_digit, plus, seconds_text, sum_line, total_of};

use crate::metric::{MetricKind, append_head, append_number, append_value};
use sip_lex::append_decimal;
use std::alloc::{AllocError, Allocator};

/// A class of durations: those of at most `bound` microseconds, and longer than the bound before.
#[derive(Clone, Copy)]
pub struct HistogramClass {
    pub bound: u64,
    pub count: u64,
}

/// How often durations of each class came.
#[derive(Clone, Copy)]
pub struct Histogram<'a> {
    pub name: &'a [u8],
    /// What took so long, in a line: no backslash and no line feed stand in it.
    pub help: &'a [u8],
    /// The classes, by bounds that rise.
    pub buckets: &'a [HistogramClass],
    /// How many were longer than the last bound.
    pub beyond: u64,
    /// The sum of all, in microseconds.
    pub sum: u64,
}

/// The class of a value among those with these bounds, from 0 on: the first whose bound is no less; as many as there are where it is
/// greater than each.
pub fn class_of(bounds: &[u64], value: u64) -> usize
    ensures within { result ≤ length bounds.now }
    ensures beyond { (class : ℕ) → class < result → slice_index bounds.now class < value }
    ensures fits { result < length bounds.now → value ≤ slice_index bounds.now result }
{
    for class in 0..bounds.len() {
        if value <= bounds[class] {
            return class;
        }
    }
    bounds.len()
}

/// The last decimal digit of a number.
fn last_digit(n: u64) -> u8
    ensures { result ≡ last_digit n }
{
    b'0' + (n % 10) as u8
}

/// Appends so many microseconds in seconds, with six digits behind the point.
fn append_seconds<A: Allocator>(out: &mut Vec<u8, A>, micros: u64) -> Result<(), AllocError>
    ensures { OnOk result (out.new.items ≡ out.old.items ++ seconds_text micros) }
{
    append_decimal(out, micros / 1_000_000)?;
    out.extend_from_slice(&[
        b'.',
        last_digit(micros / 100_000),
        last_digit(micros / 10_000),
        last_digit(micros / 1_000),
        last_digit(micros / 100),
        last_digit(micros / 10),
        last_digit(micros),
    ])
}

/// Appends the name of a class.
fn append_class<A: Allocator>(
    out: &mut Vec<u8, A>,
    name: &[u8],
    bound: u64,
) -> Result<(), AllocError>
    ensures { OnOk result (out.new.items ≡ out.old.items ++ class_name name.now bound) }
{
    out.extend_from_slice(name)?;
    out.extend_from_slice(b"_bucket{le=\"")?;
    append_seconds(out, bound)?;
    out.extend_from_slice(b"\"}")?;
    Ok(())
}

/// Appends the line of a class: how many values were at most its bound.
fn append_bucket<A: Allocator>(
    out: &mut Vec<u8, A>,
    name: &[u8],
    bound: u64,
    total: u64,
) -> Result<(), AllocError>
    ensures { OnOk result (out.new.items ≡ out.old.items ++ bucket_line name.now bound total) }
{
    append_class(out, name, bound)?;
    append_number(out, total)
}

/// Appends the lines of classes, and answers how many values they have together.
fn append_buckets<A: Allocator>(
    out: &mut Vec<u8, A>,
    name: &[u8],
    buckets: &[HistogramClass],
) -> Result<u64, AllocError>
    ensures text { OnOk result (out.new.items ≡ out.old.items ++ buckets_text name.now 0 buckets.now) }
    ensures total { IfOk result (λ total. total ≡ total_of 0 buckets.now) }
{
    let mut total = 0u64;
    let mut rest = buckets;
    while let [bucket, more @ ..] = rest {
        total = total.saturating_add(bucket.count);
        append_bucket(out, name, bucket.bound, total)?;
        rest = more;
    }
    Ok(total)
}

/// How many values there were: those of the classes, and those beyond.
fn all_of(bounded: u64, beyond: u64) -> u64
    ensures { result ≡ plus bounded beyond }
{
    bounded.saturating_add(beyond)
}

/// Appends the line of the sum.
fn append_sum<A: Allocator>(out: &mut Vec<u8, A>, name: &[u8], sum: u64) -> Result<(), AllocError>
    ensures { OnOk result (out.new.items ≡ out.old.items ++ sum_line name.now sum) }
{
    out.extend_from_slice(name)?;
    out.extend_from_slice(b"_sum ")?;
    append_seconds(out, sum)?;
    out.push(b'\n')?;
    Ok(())
}

/// Appends the lines that end a histogram: how many values there were, with their sum.
fn append_ends<A: Allocator>(
    out: &mut Vec<u8, A>,
    name: &[u8],
    all: u64,
    sum: u64,
) -> Result<(), AllocError>
    ensures { OnOk result (out.new.items ≡ out.old.items ++ ends_text name.now all sum) }
{
    append_value(out, name, b"_bucket{le=\"+Inf\"}", all)?;
    append_sum(out, name, sum)?;
    append_value(out, name, b"_count", all)?;
    Ok(())
}

/// Appends a histogram, in seconds: for each class how many durations were at most its bound, then the sum of all and how many there
/// were. Numbers that 64 bits do not hold are the greatest that they do.
///
/// # Errors
///
/// Only where a growth of `out` is refused; a part may stand there then.
pub fn append_histogram<A: Allocator>(
    out: &mut Vec<u8, A>,
    histogram: &Histogram<'_>,
) -> Result<(), AllocError>
    ensures { OnOk result (out.new.items ≡ out.old.items ++ histogram_text histogram.now) }
{
    append_head(out, histogram.name, histogram.help, MetricKind::Histogram)?;
    let bounded = append_buckets(out, histogram.name, histogram.buckets)?;
    let all = all_of(bounded, histogram.beyond);
    append_ends(out, histogram.name, all, histogram.sum)?;
    Ok(())
}
