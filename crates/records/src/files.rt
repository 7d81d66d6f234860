// A file, and what lies before its end.
ghost use Rattle.std.specs.Prelude.{◌≡◌};
ghost use Rattle.records.specs.Opening.{body_of};

use crate::opening;

// The bytes of a file, and those before its end: the sweep and the walk look at the second alone, a question at both.
#[derive(Clone, Copy)]
pub struct File<'a> {
    pub bytes: &'a [u8],
    pub body: &'a [u8],
    ghost ends: { body.now ≡ body_of bytes.now },
}

impl<'a> File<'a> {
    pub fn new(bytes: &'a [u8]) -> File<'a>
        ensures { result.bytes.now ≡ bytes.now }
    {
        let body = opening::body(bytes);
        File { bytes, body }
    }
}
