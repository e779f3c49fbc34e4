//! The credentials that came with a request.
ghost use Rattle.std.specs.Prelude.{◌≡◌, IfOk};
ghost use Rattle.sip_text.specs.Name.{values_of};
ghost use Rattle.sip_digest.specs.SeenCredentials.{seen_reading};
ghost use Rattle.authentication.specs.Given.{IsGiven};

use sip_digest::{ReadCredentials, read_credentials};
use sip_text::Message;
use std::alloc::{AllocError, Allocator};

/// What the first value of that name is that has credentials of the realm.
pub(crate) fn given_in<'a, M: Allocator, A: Allocator + Clone>(
    alloc: &A,
    message: &'a Message<M>,
    name: &[u8],
    realm: &[u8],
) -> Result<ReadCredentials<'a, A>, AllocError>
    ensures { IfOk result (λ reading. IsGiven (values_of name.now message.now.headers) realm.now (seen_reading reading)) }
{
    let mut values = message.values(name);
    while let Some(value) = values.next() {
        match read_credentials(alloc.clone()?, value, realm)? {
            ReadCredentials::OtherRealm => {}
            reading => return Ok(reading),
        }
    }
    Ok(ReadCredentials::OtherRealm)
}
