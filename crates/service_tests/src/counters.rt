//! Counters and histograms as text.
use crate::holds::holds;
use metrics::{
    Family, Histogram, HistogramClass, Labelled, Metric, MetricKind, append_family,
    append_histogram, append_metrics, class_of,
};
use std::alloc::Global;

const METRICS: [Metric<'static>; 2] = [
    Metric {
        name: b"forkproxy_calls",
        help: b"Calls that are kept now.",
        kind: MetricKind::Gauge,
        value: 7,
    },
    Metric {
        name: b"forkproxy_calls_opened_total",
        help: b"Calls that were opened.",
        kind: MetricKind::Counter,
        value: 18_446_744_073_709_551_615,
    },
];

const METRICS_TEXT: &[u8] =
    b"# HELP forkproxy_calls Calls that are kept now.\n# TYPE forkproxy_calls gauge\nforkproxy_calls 7\n# HELP forkproxy_calls_opened_total Calls that were opened.\n# TYPE forkproxy_calls_opened_total counter\nforkproxy_calls_opened_total 18446744073709551615\n";

const BUCKETS: [HistogramClass; 2] = [
    HistogramClass {
        bound: 100,
        count: 3,
    },
    HistogramClass {
        bound: 500,
        count: 4,
    },
];

const HISTOGRAM_TEXT: &[u8] =
    b"# HELP took How long it took.\n# TYPE took histogram\ntook_bucket{le=\"0.000100\"} 3\ntook_bucket{le=\"0.000500\"} 7\ntook_bucket{le=\"+Inf\"} 9\ntook_sum 1234567.890123\ntook_count 9\n";

const FAMILY: Family<'static> = Family {
    name: b"failed",
    help: b"Calls that failed.",
    kind: MetricKind::Counter,
    label: b"class",
    values: &[
        Labelled {
            says: b"4xx",
            value: 3,
        },
        Labelled {
            says: b"5xx",
            value: 0,
        },
    ],
};

const FAMILY_TEXT: &[u8] =
    b"# HELP failed Calls that failed.\n# TYPE failed counter\nfailed{class=\"4xx\"} 3\nfailed{class=\"5xx\"} 0\n";

/// Whether a family is written as it should be.
fn is_labelled(alloc: Global) -> bool {
    let mut text = Vec::new(alloc);
    append_family(&mut text, &FAMILY).is_ok() && text.as_slice() == FAMILY_TEXT
}

/// Whether the metrics are written as they should be.
fn are_written(alloc: Global) -> bool {
    let mut text = Vec::new(alloc);
    append_metrics(&mut text, &METRICS).is_ok() && text.as_slice() == METRICS_TEXT
}

/// Whether a histogram is written as it should be.
fn is_counted(alloc: Global) -> bool {
    let mut text = Vec::new(alloc);
    let histogram = Histogram {
        name: b"took",
        help: b"How long it took.",
        buckets: &BUCKETS,
        beyond: 2,
        sum: 1_234_567_890_123,
    };
    append_histogram(&mut text, &histogram).is_ok() && text.as_slice() == HISTOGRAM_TEXT
}

#[test]
fn metrics_are_written_with_what_they_are(rt: HostRuntime) {
    holds(&rt, are_written(rt.alloc()), "a gauge and a counter");
    holds(&rt, is_counted(rt.alloc()), "a histogram");
    holds(&rt, is_labelled(rt.alloc()), "values with a label");
}

#[test]
fn a_value_is_of_the_first_class_that_holds_it(rt: HostRuntime) {
    for (value, class) in [(0, 0), (100, 0), (101, 1), (500, 1), (501, 2)] {
        let found = class_of(&[100, 500], value);
        holds(&rt, found == class, "the class of a value");
    }
}
