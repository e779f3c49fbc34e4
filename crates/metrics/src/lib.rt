//! What a service counts, and how it tells that: counters, families with a label and histograms in the text form of Prometheus, and the page of HTTP on
//! which scrapers find them, many at a time, each within its time.
#![tactic(auto)]

mod answering;
mod call_counts;
mod count;
mod counts;
mod datagram_counts;
mod durations;
mod family;
mod histogram;
mod metric;
mod page;
mod page_sockets;
mod scraper;
mod sender_counts;
mod stream_counts;

pub use answering::{MetricsSource, answer_scrapers};
pub use call_counts::{CallCounts, FailedCounts};
pub use count::Count;
pub use counts::{Counts, Gauges};
pub use datagram_counts::{AnsweredCounts, DatagramCounts, SentCounts};
pub use durations::Durations;
pub use family::{Family, Labelled, append_family};
pub use histogram::{Histogram, HistogramClass, append_histogram, class_of};
pub use metric::{Metric, MetricKind, append_metrics};
pub use page::{Page, PageKind, page_kind};
pub use page_sockets::PageSockets;
pub use sender_counts::{RegistrationCounts, SenderCounts};
pub use stream_counts::StreamCounts;
