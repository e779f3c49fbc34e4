//! Answering scrapers, many at a time.
use crate::page_sockets::PageSockets;
use crate::scraper::Scraper;
use sockets::{MOST_CLIENTS, PolledEvents, is_gone, place_of_first, wait_for};
use std::alloc::Global;
use std::net::TcpListener;
use std::time::{Clock, Duration, Instant};
use std::{io, thread};

/// How many milliseconds a scraper has for all of its request and its answer.
const LONGEST: u64 = 1_500;

/// How long the thread rests where the system gives it no connection, in milliseconds.
const REST: u64 = 100;

/// What has counters.
pub trait MetricsSource {
    /// The counters, in the text form of Prometheus.
    ///
    /// # Errors
    ///
    /// Want of memory for the text.
    fn counters(&self) -> io::Result<Vec<u8>>;

    /// Whether it has ended.
    fn has_ended(&self) -> bool;
}

/// What scrapers are answered by.
#[derive(Drop)]
struct ScraperClients<'a, R, C> {
    rt: &'a R,
    alloc: Global,
    counted: &'a C,
    began: Instant,
}

impl<'a, R: Clock + PageSockets, C: MetricsSource> ScraperClients<'a, R, C> {
    /// The time since the beginning, in milliseconds. Where the clock cannot be read, the time of every scraper is over.
    fn now(&self) -> u64 {
        match self.began.elapsed(self.rt) {
            Ok(passed) => u64::try_from(passed.as_millis()).unwrap_or(u64::MAX),
            Err(_) => u64::MAX,
        }
    }

    /// Rests.
    fn rest(&self) {
        thread::sleep(self.rt, Duration::from_millis(REST));
    }

    /// Does what came of a scraper's connection asks for, and says whether it stands. The counters are those of the moment at which its
    /// request begins to come.
    fn advance(&self, scraper: &mut Scraper, came: i16, now: u64) -> bool {
        if came == 0 {
            return !scraper.is_late(now);
        }
        if scraper.needs_text() {
            let Ok(text) = self.counted.counters() else {
                return false;
            };
            scraper.set_text(text);
        }
        scraper.take_turn() && !scraper.is_late(now)
    }

    /// Does what came of each scraper's connection asks for.
    fn advance_all(&self, scrapers: &mut Vec<Scraper>, came: &PolledEvents) {
        let now = self.now();
        for place in (0..scrapers.len()).rev() {
            let stands = match scrapers.get_mut(place) {
                Some(scraper) => self.advance(scraper, came.of_client(place), now),
                None => true,
            };
            if !stands && place < scrapers.len() {
                scrapers.swap_remove(place);
            }
        }
    }

    /// The scraper that comes next.
    ///
    /// # Errors
    ///
    /// What the system says.
    fn accept(&self, listener: &TcpListener) -> io::Result<Scraper> {
        let (stream, _) = listener.accept()?;
        let deadline = self.now().saturating_add(LONGEST);
        Scraper::new(self.alloc, self.rt.keys()?, stream, deadline)
    }

    /// Takes the scraper in that comes next. Where there are as many as may be, the one whose time is over first is closed.
    fn take_in(&self, scrapers: &mut Vec<Scraper>, listener: &TcpListener) {
        let Ok(scraper) = self.accept(listener) else {
            self.rest();
            return;
        };
        if scrapers.len() >= MOST_CLIENTS
            && let Some(place) = place_of_first(scrapers.as_slice())
        {
            scrapers.swap_remove(place);
        }
        let _ = scrapers.push(scraper);
    }
}

/// Answers scrapers by [`Page`](crate::page::Page), as many as 64 at a time, until the end: it returns at once as the listener is shut down, once
/// the end has come. A scraper has a second and a half for all of its request and its answer, whatever others do; where one more comes, the
/// one whose time is over first is closed.
pub fn answer_scrapers<R: Clock + PageSockets, C: MetricsSource>(
    rt: &R,
    alloc: Global,
    counted: &C,
    listener: &TcpListener,
) {
    let Ok(began) = Instant::now(rt) else {
        return;
    };
    let desk = ScraperClients {
        rt,
        alloc,
        counted,
        began,
    };
    let mut scrapers = Vec::new(alloc);
    for _ in 0..u64::MAX {
        let Some(came) = wait_for(listener, scrapers.as_slice(), desk.now()) else {
            desk.rest();
            continue;
        };
        if is_gone(came.of_listener()) && counted.has_ended() {
            return;
        }
        desk.advance_all(&mut scrapers, &came);
        if came.of_listener() != 0 {
            desk.take_in(&mut scrapers, listener);
        }
    }
}
