//! Rows that have ended, of which trees are built: by the tests here, and with memory refused by those of `refusal_tests`.
ghost use Rattle.std.specs.Prelude.{◌≡◌, IfSome};
ghost use Rattle.fork_tree.specs.declared.row.State.TheVariants.{Ended};
ghost use Rattle.fork_tree.specs.Given.{AreRows};

use fork_rank::Status;
use fork_tree::{End, RowRef, State};

fn row(no: u16, parent: Option<u16>, group: u16, q: u16, end: End) -> RowRef
    ensures { result ≡ record { no = no; parent = parent; group = group; q = q; state = Ended end } }
{
    RowRef {
        no,
        parent,
        group,
        q,
        state: State::Ended(end),
    }
}

fn stored(code: u16, arrival: u32) -> Option<End> {
    match Status::of(code) {
        Some(status) => Some(End::Stored {
            status,
            arrival,
            received: true,
        }),
        None => None,
    }
}

/// Two targets, the second of which was redirected first.
pub fn ended_rows() -> Option<[RowRef; 6]>
    ensures { IfSome result (λ rows. AreRows rows) }
{
    let redirection = stored(302, 1)?;
    let missing = stored(404, 2)?;
    let busy = stored(486, 5)?;
    Some([
        row(0, None, 0, 1000, End::Taken { arrival: 4 }),
        row(1, None, 0, 1000, redirection),
        row(2, Some(1), 0, 700, missing),
        row(3, Some(1), 1, 300, End::Silent { arrival: 3 }),
        row(4, Some(0), 0, 500, busy),
        row(5, Some(0), 0, 500, End::Never),
    ])
}
