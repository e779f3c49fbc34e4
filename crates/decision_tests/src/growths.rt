//! A REGISTER, and requests that are opened and challenged, while memory is refused.
use crate::holds::holds;
use crate::texts::{register_of, request_from, settings_from};
use binding_table::BindingTable;
use bindings::UserBindings;
use failing_allocator::{Attempt, Heap, Play, Refusing, Repeated, refused_always, refused_once};
use proxy_dispatch::Decision;
use service_config::ServiceSettings;
use service_decisions::{Decided, Registered, ServiceView};
use sip_digest::{Algorithms, UserList};
use sip_text::Message;
use sip_uri::{Hop, Transport};
use std::alloc::{AllocError, Global};
use std::sync::Wait;

type Scarce<'a> = &'a Refusing<Global>;

type ScarceTable<'a> = BindingTable<UserBindings<Scarce<'a>>, Scarce<'a>>;

const SETTINGS: &[u8] =
    b"own 192.0.2.9 5060\ndomain example.com\nrealm example.com\ntrust 192.0.2.128/25\n";

const USERS: &[u8] = b"bob e4d909c290d0fb1ca068ffaddf22cbd0 -\n";

const SECRET: &[u8; 32] = &[7; 32];

const INSIDE: Hop = Hop {
    addr: [192, 0, 2, 130],
    port: 5070,
    transport: Transport::Udp,
};

const OUTSIDE: Hop = Hop {
    addr: [198, 51, 100, 7],
    port: 41_000,
    transport: Transport::Udp,
};

/// By what a service goes, and the requests that come: a REGISTER of bob, and an INVITE for him that he says to send.
#[derive(Clone, Copy)]
struct World<'w, 'a> {
    settings: &'w ServiceSettings<Scarce<'a>>,
    users: &'w UserList<Scarce<'a>>,
    register: &'w Message<Scarce<'a>>,
    invite: &'w Message<Scarce<'a>>,
}

/// The service as each request finds it.
fn view_of<'w, 'a>(
    world: World<'w, 'a>,
    table: &'w ScarceTable<'a>,
) -> ServiceView<'w, Scarce<'a>> {
    ServiceView {
        settings: world.settings,
        users: Some(world.users),
        secret: SECRET,
        bindings: table,
        has_bindings: true,
        second: 1_764_400_000,
        moment: 1_000,
    }
}

/// Drops a value. A function that drops one of many fields itself is proved field by field.
fn discard<T: Drop>(_value: T) {}

/// The REGISTER binds a contact. Where it is refused there are as many bindings as before, and no change is under way.
#[derive(Drop)]
struct Registering<'t, 'a, R> {
    rt: &'t R,
    world: World<'t, 'a>,
    table: &'t ScarceTable<'a>,
    alloc: Scarce<'a>,
}

/// Whether it is answered with 200, and there is one binding more than before once the change is made.
fn binds_one_more<'a, R: Wait>(
    rt: &R,
    table: &ScarceTable<'a>,
    registered: Registered<Scarce<'a>>,
    before: u64,
) -> bool {
    match registered {
        Registered::Changes(change, answer) => {
            table.commit(rt, change);
            answer.status().code() == 200 && table.count(rt) == before.saturating_add(1)
        }
        Registered::Answered(_answer, _noted) => false,
        Registered::Waits => false,
    }
}

impl<R: Wait> Repeated for Registering<'_, '_, R> {
    fn attempt(&mut self) -> Attempt {
        let before = self.table.count(self.rt);
        let world = self.world;
        let view = view_of(world, self.table);
        let setup = world.settings.setup();
        match view.register(self.rt, &self.alloc, setup, world.register, INSIDE) {
            Ok(registered) => Attempt::of(binds_one_more(self.rt, self.table, registered, before)),
            Err(AllocError) => Attempt::failed(self.table.count(self.rt) == before),
        }
    }
}

/// The INVITE from there is answered with this status, or opened to the one contact where there is none.
#[derive(Drop)]
struct Deciding<'t, 'a, R> {
    rt: &'t R,
    world: World<'t, 'a>,
    table: &'t ScarceTable<'a>,
    alloc: Scarce<'a>,
    source: Hop,
    status: Option<u16>,
}

/// Whether it is answered with this status, or opened to one target where there is none.
fn is_decided(decided: &Decided<Scarce<'_>>, status: Option<u16>) -> bool {
    match &decided.decision {
        Decision::OpensBy(setup) => status.is_none() && setup.locations().len() == 1,
        Decision::Answers(answer) => status == Some(answer.status().code()),
        Decision::Opens | Decision::OpensWith(_) | Decision::Leaves => false,
    }
}

impl<R: Wait> Repeated for Deciding<'_, '_, R> {
    fn attempt(&mut self) -> Attempt {
        let world = self.world;
        let view = view_of(world, self.table);
        let setup = world.settings.setup();
        match view.decide(self.rt, &self.alloc, setup, world.invite, self.source) {
            Ok(decided) => {
                let well = is_decided(&decided, self.status);
                discard(decided);
                Attempt::of(well)
            }
            Err(AllocError) => Attempt::failed(true),
        }
    }
}

/// Whether bob is bound, called by who is trusted, and asked for his password elsewhere.
fn are_decided<'t, 'a, R: Wait>(
    heap: Heap<'a>,
    rt: &'t R,
    world: World<'t, 'a>,
    table: &'t ScarceTable<'a>,
) -> bool {
    let alloc = heap.scarce;
    let mut registering = Registering {
        rt,
        world,
        table,
        alloc,
    };
    let is_bound = heap.insist(&mut registering);
    let mut deciding = Deciding {
        rt,
        world,
        table,
        alloc,
        source: INSIDE,
        status: None,
    };
    let is_opened = heap.insist(&mut deciding);
    deciding.source = OUTSIDE;
    deciding.status = Some(407);
    is_bound && is_opened && heap.insist(&mut deciding)
}

/// The REGISTER.
fn bobs_register(ample: Scarce<'_>) -> Option<Message<Scarce<'_>>> {
    register_of(ample, b"CSeq: 1 REGISTER", b"m: <sip:bob@10.0.0.2:5070>")
}

/// The INVITE.
fn bobs_invite(ample: Scarce<'_>) -> Option<Message<Scarce<'_>>> {
    request_from(
        ample,
        b"INVITE sip:bob@example.com SIP/2.0",
        b"f: <sip:bob@example.com>;tag=1",
        b"t: <sip:bob@example.com>",
    )
}

/// What comes to a service.
#[derive(Drop)]
struct Requests<'r, R> {
    rt: &'r R,
}

impl<R: Wait> Play for Requests<'_, R> {
    fn play(&self, heap: Heap<'_>) -> bool {
        heap.scarce.pause();
        let table = BindingTable::new(heap.scarce, 10);
        heap.scarce.go_on();
        let settings = settings_from(heap.ample, SETTINGS);
        let users = UserList::read(heap.ample, USERS, Algorithms::Md5);
        let register = bobs_register(heap.ample);
        let invite = bobs_invite(heap.ample);
        let well = match (&table, &settings, &users, &register, &invite) {
            (Ok(table), Some(settings), Ok(users), Some(register), Some(invite)) => {
                let world = World {
                    settings,
                    users,
                    register,
                    invite,
                };
                are_decided(heap, self.rt, world, table)
            }
            _ => false,
        };
        discard(table);
        discard(settings);
        discard(users);
        discard(register);
        discard(invite);
        well
    }
}

#[test]
fn a_growth_that_is_refused_decides_nothing(rt: HostRuntime) {
    let play = Requests { rt: &rt };
    holds(
        &rt,
        refused_once(rt.alloc(), &play) == Some(0),
        "one is refused",
    );
    holds(&rt, refused_always(rt.alloc(), &play), "memory ends");
}
