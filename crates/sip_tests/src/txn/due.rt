//! What holds of the four tables at each tick.
use crate::holds::holds;
use sip_txn::{
    InviteClient, OtherClient, Reliability, TxEvent, TxOut, TxPass, TxSend, acts_when_due,
};

/// Whether something is sent or passed.
fn acts(out: TxOut) -> bool {
    out.send != TxSend::Nothing || out.pass != TxPass::Nothing
}

#[test]
fn ticks_act_when_due(rt: HostRuntime) {
    acts_when_due();
    let mut invite = InviteClient::start(7, Reliability::Unreliable);
    let at = invite.due().unwrap_or(0);
    let early = acts(invite.on(TxEvent::Tick, at - 1));
    let due = acts(invite.on(TxEvent::Tick, at));
    holds(&rt, !early && due, "an INVITE's client");
    let mut other = OtherClient::start(7, Reliability::Reliable);
    let at = other.due().unwrap_or(0);
    let early = acts(other.on(TxEvent::Tick, at - 1));
    let due = acts(other.on(TxEvent::Tick, at));
    holds(&rt, !early && due, "another client");
}
