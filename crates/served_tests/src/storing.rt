//! Telephones register with a service whose bindings are kept elsewhere, too.
use crate::histories::{ALICES, INSIDE, INVITE, REALM, REGISTER, USERS};
use crate::holds::holds;
use crate::outgoing::Outgoing;
use crate::turns::{Asked, Goes, missed, sends, storing_service_of, takes};
use binding_table::{Change, KeepFault, Keeper, Kept};
use proxy_service::Service;
use service_users::Hearing;
use std::alloc::Global;
use std::sync::Wait;
use std::time::Clock;

/// A disk that keeps how many changes it was given at its last call, or refuses.
#[derive(Drop)]
struct Disk {
    refuses: bool,
    changes: usize,
}

impl Keeper for Disk {
    fn load(&mut self, _alloc: Global) -> Result<Kept, KeepFault> {
        Err(KeepFault("nothing is loaded"))
    }

    fn store(&mut self, changes: &[Change<'_>]) -> Result<(), KeepFault> {
        if self.refuses {
            return Err(KeepFault("the disk is full"));
        }
        self.changes = changes.len();
        Ok(())
    }
}

/// A REGISTER of bob from inside.
const BOBS: Asked = Asked {
    source: INSIDE,
    ..REGISTER
};

const MADE: Goes = Goes {
    to: INSIDE,
    front: "SIP/2.0 200 ",
    part: "\r\nContact: <sip:bob@10.0.0.2:5070>;expires=600\r\n",
};

const UNMADE: Goes = Goes {
    to: INSIDE,
    front: "SIP/2.0 500 ",
    part: "",
};

/// Bob is called, or has no binding.
const CALLED: &[(Asked, Goes)] = &[(
    INVITE,
    Goes {
        to: INSIDE,
        front: "INVITE sip:bob@10.0.0.2:5070 SIP/2.0\r\n",
        part: "",
    },
)];

/// Each table stands in a function of its own: a proof reads a constant wherever it is named, once for each call beside it.
fn called() -> &'static [(Asked, Goes)] {
    CALLED
}

const NOT_CALLED: &[(Asked, Goes)] = &[(
    Asked {
        call: "c0",
        ..INVITE
    },
    Goes {
        to: INSIDE,
        front: "SIP/2.0 480 ",
        part: "",
    },
)];

fn not_called() -> &'static [(Asked, Goes)] {
    NOT_CALLED
}

/// Whether the registrations that wait are answered so by what a disk says.
fn keeps<R: Wait + Clock>(
    rt: &R,
    alloc: Global,
    service: &Service,
    disk: &mut Disk,
    goes: &Goes,
) -> bool {
    let mut port = Outgoing::new(alloc);
    let hearing = Hearing {
        schedule: service.calls().schedule(),
        counts: service.counts(),
    };
    service.users().keep(rt, disk, &mut port, hearing) && sends(&port, goes)
}

/// Whether a REGISTER of bob waits: nothing is sent, and nobody reaches him.
fn waits<R: Wait + Clock>(rt: &R, alloc: Global, service: &Service, asked: &Asked) -> bool {
    takes(rt, alloc, service, asked) == Some(0)
        && missed(rt, alloc, service, not_called()).is_none()
}

/// Whether bob is bound once that is kept, with alice at once, and not where a disk refuses.
fn is_kept<R: Wait + Clock>(rt: &R, alloc: Global) -> Option<bool> {
    let service = storing_service_of(alloc, REALM, Some(USERS))?;
    let mut disk = Disk {
        refuses: true,
        changes: 0,
    };
    let has_waited = waits(rt, alloc, &service, &BOBS);
    let is_refused = keeps(rt, alloc, &service, &mut disk, &UNMADE);
    disk.refuses = false;
    let again = Asked { cseq: 2, ..BOBS };
    let waits_again = waits(rt, alloc, &service, &again);
    let beside = takes(rt, alloc, &service, &ALICES) == Some(0);
    let is_made = keeps(rt, alloc, &service, &mut disk, &MADE);
    let is_called = missed(rt, alloc, &service, called()).is_none();
    let is_told = service.users().warnings.take(rt).text.as_slice()
        == b"1 changes of bindings were not kept: the disk is full\n".as_slice();
    Some(
        has_waited
            && is_refused
            && waits_again
            && beside
            && is_made
            && disk.changes == 2
            && is_called
            && is_told,
    )
}

#[test]
fn a_registration_is_answered_once_it_is_kept(rt: HostRuntime) {
    let well = is_kept(&rt, rt.alloc()) == Some(true);
    holds(&rt, well, "a REGISTER that waits for a disk");
}
