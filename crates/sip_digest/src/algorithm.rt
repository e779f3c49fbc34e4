//! The algorithms of Digest authentication.
ghost use Rattle.std.specs.Prelude.{◌≡◌};
ghost use Rattle.sip_digest.specs.Algorithm.{algorithm_named, algorithm_name, algorithms_named, first_of, is_among, is_same, second_of};

/// Which digest credentials are made with (RFC 7616 section 3.2, RFC 8760 section 2.1).
#[derive(Clone, Copy, Debug, PartialEq, Eq)]
pub enum Algorithm {
    Md5,
    Sha256,
}

impl Algorithm {
    /// The algorithm of this name, in any case; `None` for any other.
    pub fn named(name: &[u8]) -> Option<Algorithm>
        ensures { result ≡ algorithm_named name.now }
    {
        if name.eq_ignore_ascii_case(b"md5") {
            Some(Algorithm::Md5)
        } else if name.eq_ignore_ascii_case(b"sha-256") {
            Some(Algorithm::Sha256)
        } else {
            None
        }
    }

    /// The name of the algorithm in a challenge.
    pub fn name(self) -> &'static [u8]
        ensures { result.now ≡ algorithm_name self }
    {
        match self {
            Algorithm::Md5 => b"MD5",
            Algorithm::Sha256 => b"SHA-256",
        }
    }

    fn is_same(self, other: Algorithm) -> bool
        ensures { result ≡ is_same self other }
    {
        match (self, other) {
            (Algorithm::Md5, Algorithm::Md5) | (Algorithm::Sha256, Algorithm::Sha256) => true,
            _ => false,
        }
    }
}

/// The algorithms of a realm, in the order in which it challenges by them.
#[derive(Clone, Copy, Debug, PartialEq, Eq)]
pub enum Algorithms {
    Md5,
    Sha256,
    Sha256AndMd5,
    Md5AndSha256,
}

impl Algorithms {
    /// Those that a configuration names: `MD5`, `SHA-256`, `SHA-256,MD5` or `MD5,SHA-256`; `None` for any other text.
    pub fn named(text: &[u8]) -> Option<Algorithms>
        ensures { result ≡ algorithms_named text.now }
    {
        if text == b"MD5".as_slice() {
            Some(Algorithms::Md5)
        } else if text == b"SHA-256".as_slice() {
            Some(Algorithms::Sha256)
        } else if text == b"SHA-256,MD5".as_slice() {
            Some(Algorithms::Sha256AndMd5)
        } else if text == b"MD5,SHA-256".as_slice() {
            Some(Algorithms::Md5AndSha256)
        } else {
            None
        }
    }

    /// The one of the first challenge.
    pub fn first(self) -> Algorithm
        ensures { result ≡ first_of self }
    {
        match self {
            Algorithms::Md5 | Algorithms::Md5AndSha256 => Algorithm::Md5,
            Algorithms::Sha256 | Algorithms::Sha256AndMd5 => Algorithm::Sha256,
        }
    }

    /// The one of the second challenge, where there are two.
    pub fn second(self) -> Option<Algorithm>
        ensures { result ≡ second_of self }
    {
        match self {
            Algorithms::Md5 | Algorithms::Sha256 => None,
            Algorithms::Sha256AndMd5 => Some(Algorithm::Md5),
            Algorithms::Md5AndSha256 => Some(Algorithm::Sha256),
        }
    }

    /// Whether the realm has this algorithm.
    pub fn has(self, algorithm: Algorithm) -> bool
        ensures { result ≡ is_among algorithm self }
    {
        if algorithm.is_same(self.first()) {
            return true;
        }
        match self.second() {
            None => false,
            Some(second) => algorithm.is_same(second),
        }
    }
}
