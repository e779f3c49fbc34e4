//! What follows for one address.
ghost use Rattle.std.specs.Prelude.{◌+◌, ◌-◌, ◌*◌, ◌≤◌, ℕ, List};
ghost use Rattle.std.specs.List.{AllByRecursion};
ghost use Rattle.service_admission.specs.declared.bucket.TokenBucket.{TokenBucket};
ghost use Rattle.service_admission.specs.Bucket.{admitted_of};
ghost use Rattle.service_admission.specs.Runs.{NoRunExceedsTheRate};

/// Of the datagrams of one address that come within some milliseconds, whatever it had spent before and in whichever order their
/// moments were read, at most `most` are admitted and `most` thousandths of one more for each of these milliseconds.
pub fn no_address_exceeds_its_rate()
    ensures { (most first last : ℕ) (bucket : TokenBucket) (moments : List ℕ) → AllByRecursion (λ now. (first ≤ now) × (now ≤ last)) moments
        → 1000 * admitted_of most bucket moments ≤ 1000 * most + most * (last - first) }
{}

/// The same of any run of [`SourceLimits::admits`](crate::limits::SourceLimits::admits) in which the time does not fall, with the datagrams
/// of other addresses in between: of those of one address that count, at most `most` are admitted and `most` thousandths of one more
/// for each millisecond. Those do not count that are admitted without being kept, as there are 65,536 addresses.
pub fn no_run_exceeds_its_rate()
    ensures { NoRunExceedsTheRate }
{}
