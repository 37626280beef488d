// What is to be done with each file.
use crate::options::Asked;
use fingerprint::Kind;
use program::Program;

#[derive(Clone, Copy)]
pub struct Job<'a> {
    pub program: Program<'a>,
    pub asked: Asked,
    // The key, if there is one: tags are made then.
    pub key: Option<&'a [u8]>,
    // Whether standard input is read for something else than the file of its name.
    pub input_taken: bool,
}

impl<'a> Job<'a> {
    pub fn without_key(program: Program<'a>, asked: Asked) -> Job<'a> {
        Job {
            program,
            asked,
            key: None,
            input_taken: false,
        }
    }

    pub fn with_key(
        program: Program<'a>,
        asked: Asked,
        key: &'a [u8],
        input_taken: bool,
    ) -> Job<'a> {
        let key = Some(key);
        Job {
            program,
            asked,
            key,
            input_taken,
        }
    }

    // What is asked for of each file.
    pub fn kind(&self) -> Kind {
        Kind {
            w: self.asked.w,
            n: self.asked.digest_length(),
            digest: self.asked.digest,
            input_taken: self.input_taken,
        }
    }

    // Whether receipts are asked for, and not digests or tags.
    pub fn has_receipts(&self) -> bool {
        !self.asked.digest && self.key.is_none()
    }
}
