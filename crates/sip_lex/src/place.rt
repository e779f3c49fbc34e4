//! Places in a text.

ghost use Rattle.std.specs.Prelude.{◌≡◌, ◌+◌, ◌-◌, ◌^◌, ◌<◌, ◌≤◌, List, ℕ, drop, length, take};
ghost use Rattle.sip_lex.specs.Places.{IsEnd, IsWithin, moved, part_at};

/// Where a part of a text stands in it.
#[derive(Clone, Copy)]
pub struct PartPlace {
    pub start: usize,
    pub len: usize,
}

impl PartPlace {
    /// The place of what stands at a place in a part of a text that begins so many bytes behind the front of the text.
    pub fn moved(self, by: usize) -> PartPlace
        requires { IsWithin (2 ^ 64 - 1 - by) self }
        ensures { result ≡ moved by self }
    {
        PartPlace {
            start: by + self.start,
            len: self.len,
        }
    }

    /// Where so many bytes stand from a place in the part on, as far as it goes.
    pub fn part(self, start: usize, len: usize) -> PartPlace
        requires { self.start + self.len < 2 ^ 64 }
        ensures within { result.start + result.len ≤ self.start + self.len }
        ensures part { (text : List ℕ) → part_at text result ≡ take len (drop start (part_at text self)) }
    {
        let skipped = start.min(self.len);
        PartPlace {
            start: self.start + skipped,
            len: len.min(self.len - skipped),
        }
    }
}

/// The part of a text at a place, as far as the text goes.
pub fn part_at(text: &[u8], place: PartPlace) -> &[u8]
    ensures { result.now ≡ part_at text.now place }
{
    if text.len() <= place.start {
        return b"";
    }
    let behind = &text[place.start..];
    if behind.len() <= place.len {
        return behind;
    }
    &behind[..place.len]
}

/// The part of a text at a place within it.
#[inline(always)]
pub fn part_within(text: &[u8], place: PartPlace) -> &[u8]
    requires { IsWithin (length text.now) place }
    ensures { result.now ≡ part_at text.now place }
{
    &text[place.start..place.start + place.len]
}

/// Where so many bytes stand in a text at the front of what it ends with.
pub fn place_at_end(text: &[u8], end: &[u8], len: usize) -> PartPlace
    requires end { IsEnd text.now end.now }
    requires len { len ≤ length end.now }
    ensures part { part_at text.now result ≡ take len end.now }
    ensures within { IsWithin (length text.now) result }
{
    PartPlace {
        start: text.len() - end.len(),
        len,
    }
}
