//! Each source address has its own limit.
use crate::holds::holds;
use service_admission::{SourceLimits, no_address_exceeds_its_rate, no_run_exceeds_its_rate};

const ALICE: [u8; 4] = [192, 0, 2, 1];

const BOB: [u8; 4] = [192, 0, 2, 2];

/// Whether a datagram of this address is admitted at this millisecond, or is not.
fn is_answered(limits: &mut SourceLimits, source: [u8; 4], now: u64, admitted: bool) -> bool {
    match limits.admits(source, now) {
        Ok(answer) => answer == admitted,
        Err(_) => false,
    }
}

/// Whether these datagrams, each with its address and its millisecond, are admitted or not as they say.
fn plays(limits: &mut SourceLimits, history: &[([u8; 4], u64, bool)]) -> bool {
    let mut is_well = true;
    for (source, now, admitted) in history {
        is_well = is_answered(limits, *source, *now, *admitted) && is_well;
    }
    is_well
}

#[test]
fn an_address_has_its_rate(rt: HostRuntime) {
    no_address_exceeds_its_rate();
    no_run_exceeds_its_rate();
    let mut limits = SourceLimits::new(rt.alloc(), 2);
    // half a second brings one of two a second
    let well = plays(
        &mut limits,
        &[
            (ALICE, 0, true),
            (ALICE, 0, true),
            (ALICE, 0, false),
            (BOB, 0, true),
            (ALICE, 499, false),
            (ALICE, 500, true),
            (ALICE, 500, false),
            (ALICE, 1_500, true),
            (ALICE, 1_500, true),
            (ALICE, 1_500, false),
        ],
    );
    holds(&rt, well, "two at once, and two a second");
    holds(
        &rt,
        limits.kept() == 1,
        "who has spent nothing is forgotten",
    );
}

#[test]
fn nothing_comes_back_where_the_time_falls(rt: HostRuntime) {
    let mut limits = SourceLimits::new(rt.alloc(), 1);
    let well = plays(
        &mut limits,
        &[
            (ALICE, 5_000, true),
            (ALICE, 4_000, false),
            (ALICE, 5_999, false),
            (ALICE, 6_000, true),
        ],
    );
    holds(&rt, well, "a second after the last");
}
