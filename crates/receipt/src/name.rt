// The name of a file, of as many bytes as a name can have.
ghost use Rattle.std.specs.Prelude.{◌≤◌, length};
ghost use Rattle.program.specs.Sizes.{name_bytes};

use program::names::NAME;

#[derive(Clone, Copy)]
pub struct Name<'a> {
    pub bytes: &'a [u8],
    ghost short: { length bytes.now ≤ name_bytes },
}

impl<'a> Name<'a> {
    // The name of these bytes, unless they are too many.
    pub fn new(bytes: &'a [u8]) -> Option<Name<'a>> {
        if NAME < bytes.len() {
            return None;
        }
        Some(Name { bytes })
    }
}
