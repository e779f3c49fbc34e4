//! What a service knows of its users while it runs.
ghost use Rattle.std.specs.Prelude.{◌≡◌, ◌/◌, ◌-◌, ◌^◌, min};

use binding_table::{BindingTable, PreparedChange};
use bindings::UserBindings;
use service_decisions::ServiceView;
use service_files::Configuration;
use std::alloc::{AllocError, Allocator};
use std::sync::Wait;
use std::sync::atomic::{AtomicBool, AtomicU64, Ordering};

/// How many milliseconds a second has.
const MILLIS: u64 = 1_000;

/// What a service knows of its users while it runs: what is bound to them, and what nonces and the tokens of dialogs are made with.
#[derive(Drop)]
pub struct Registry<A: Allocator + Copy> {
    pub(crate) bindings: BindingTable<UserBindings<A>, A>,
    /// Whether anything was ever bound to anybody.
    pub(crate) is_used: AtomicBool,
    /// When users are looked for the next time of whom no binding is there any more, in milliseconds.
    pub(crate) sweep_at: AtomicU64,
    secret: [u8; 32],
    /// The millisecond since 1970 at which the moments of the service begin.
    began: u64,
}

/// The second of a millisecond since 1970: the last one that has 32 bits from then on.
fn second_of(moment: u64) -> u32
    ensures { result ≡ min (moment / 1000) (2 ^ 32 - 1) }
{
    (moment / MILLIS).min(u64::from(u32::MAX)) as u32
}

impl<A: Allocator + Copy> Registry<A> {
    /// Nothing is bound to anybody; there may be `most` bindings in all. `secret` is what nobody else has.
    ///
    /// # Errors
    ///
    /// Only where the allocator refuses.
    pub fn new(
        alloc: A,
        most: u32,
        secret: [u8; 32],
        began: u64,
    ) -> Result<Registry<A>, AllocError> {
        Ok(Registry {
            bindings: BindingTable::new(alloc, most)?,
            is_used: AtomicBool::new(false),
            sweep_at: AtomicU64::new(0),
            secret,
            began,
        })
    }

    /// The millisecond since 1970 of a moment of the service.
    pub(crate) fn moment_at(&self, now: u64) -> u64 {
        self.began.saturating_add(now)
    }

    /// How many bindings there are in all.
    pub fn count<R: Wait>(&self, rt: &R) -> u64 {
        self.bindings.count(rt)
    }

    /// Notes that something is bound from now on, and answers whether nothing ever was before.
    pub(crate) fn note_use(&self) -> bool {
        !self.is_used.swap(true, Ordering::SeqCst)
    }

    /// Gives a change up that was prepared: the user keeps the old bindings.
    pub(crate) fn give_up<R: Wait>(&self, rt: &R, change: PreparedChange<UserBindings<A>, A>) {
        self.bindings.give_up(rt, change);
    }

    /// Makes a change that was prepared: from now on the new bindings are looked at. It answers whether it is the first of all.
    pub(crate) fn commit<R: Wait>(
        &self,
        rt: &R,
        change: PreparedChange<UserBindings<A>, A>,
    ) -> bool {
        let is_first = self.note_use();
        self.bindings.commit(rt, change);
        is_first
    }

    /// The service as a request finds it that came at this moment, in milliseconds, and this configuration.
    pub fn view<'a>(&'a self, configuration: &'a Configuration<A>, now: u64) -> ServiceView<'a, A> {
        let moment = self.moment_at(now);
        ServiceView {
            settings: &configuration.settings,
            users: configuration.users.as_ref(),
            secret: &self.secret,
            bindings: &self.bindings,
            has_bindings: self.is_used.load(Ordering::SeqCst),
            second: second_of(moment),
            moment,
        }
    }
}
