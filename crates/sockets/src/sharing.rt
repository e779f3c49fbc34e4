//! What threads may share.
ghost use denote.Param.Send.{IsSync};

/// Shows that threads may share this value.
pub fn is_shared<T: Sync>(_: &T)
    ensures { IsSync T.row }
{}
