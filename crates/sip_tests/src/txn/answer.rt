//! The answers that stand in the tables.
use sip_txn::{TxOut, TxPass, TxSend};

/// Nothing is sent and nothing passed.
pub const SILENT: TxOut = TxOut {
    send: TxSend::Nothing,
    pass: TxPass::Nothing,
};

/// The request is sent again.
pub const REQUEST: TxOut = TxOut {
    send: TxSend::Request,
    pass: TxPass::Nothing,
};

/// The response is sent.
pub const RESEND: TxOut = TxOut {
    send: TxSend::Response,
    pass: TxPass::Nothing,
};

/// An ACK is sent.
pub const ACK: TxOut = TxOut {
    send: TxSend::Ack,
    pass: TxPass::Nothing,
};

/// The response is passed.
pub const RESPONSE: TxOut = TxOut {
    send: TxSend::Nothing,
    pass: TxPass::Response,
};

/// An ACK is sent, and the response passed.
pub const ACKNOWLEDGED: TxOut = TxOut {
    send: TxSend::Ack,
    pass: TxPass::Response,
};

/// A timeout is passed.
pub const TIMEOUT: TxOut = TxOut {
    send: TxSend::Nothing,
    pass: TxPass::Timeout,
};

/// A transport error is passed.
pub const FAULT: TxOut = TxOut {
    send: TxSend::Nothing,
    pass: TxPass::Fault,
};

/// An ACK is passed.
pub const PASS_ACK: TxOut = TxOut {
    send: TxSend::Nothing,
    pass: TxPass::Ack,
};
