//! The kinds of lines, and in which order they stand.
ghost use Rattle.std.specs.Prelude.{◌≡◌};
ghost use Rattle.service_config.specs.Kind.{is_from_domain, is_whole, may_follow, may_follow_kind, may_repeat, place_of};

/// The kinds of lines that say something.
#[derive(Clone, Copy, Debug, PartialEq, Eq)]
pub(crate) enum LineKind {
    Own,
    Instance,
    Domain,
    Prefer,
    Depth,
    Ring,
    Large,
    Realm,
    Expires,
    Strangers,
    Trust,
    Gateway,
    Location,
}

impl LineKind {
    /// The place of a kind in the order.
    fn place(self) -> u8
        ensures { result ≡ place_of self }
    {
        match self {
            LineKind::Own => 0,
            LineKind::Instance => 1,
            LineKind::Domain => 2,
            LineKind::Prefer => 3,
            LineKind::Depth => 4,
            LineKind::Ring => 5,
            LineKind::Large => 6,
            LineKind::Realm => 7,
            LineKind::Expires => 8,
            LineKind::Strangers => 9,
            LineKind::Trust => 10,
            LineKind::Gateway => 11,
            LineKind::Location => 12,
        }
    }

    /// Whether a line of this kind may stand more than once.
    fn may_repeat(self) -> bool
        ensures { result ≡ may_repeat self }
    {
        matches!(
            self,
            LineKind::Trust | LineKind::Gateway | LineKind::Location
        )
    }

    /// Whether it is the domain, or stands behind it.
    fn is_from_domain(self) -> bool
        ensures { result ≡ is_from_domain self }
    {
        2 <= self.place()
    }

    /// Whether a line of this kind may stand behind one of another: in the order, the same kind again where it may repeat, and the
    /// domain is not left out.
    fn may_follow(self, earlier: LineKind) -> bool
        ensures { result ≡ may_follow_kind earlier self }
    {
        let is_behind = earlier.place() < self.place();
        let is_again = self.may_repeat() && earlier.place() == self.place();
        (is_behind || is_again) && (earlier.is_from_domain() || self.place() <= 2)
    }
}

/// Whether a line of a kind may stand behind the last line that says something, if there is one: the first is that of the own
/// address.
pub(crate) fn may_follow(last: Option<LineKind>, kind: LineKind) -> bool
    ensures { result ≡ may_follow last kind }
{
    match last {
        None => kind.place() == 0,
        Some(earlier) => kind.may_follow(earlier),
    }
}

/// Whether all lines were read that have to be there.
pub(crate) fn is_whole(last: Option<LineKind>) -> bool
    ensures { result ≡ is_whole last }
{
    match last {
        None => false,
        Some(kind) => kind.is_from_domain(),
    }
}
