// Rows of a network as text.
use prefix_text::{Prefix, put_addr, put_number, put_prefix};
use std::alloc::Global;
use std::test::Fail;
use vpc_base::NoMemory;

/// The text told so far. Where memory is refused, that is kept until the end: so functions that tell a row have
/// no answer and one exit each, and prove within a second.
#[derive(Drop)]
pub(crate) struct Told {
    text: Vec<u8>,
    refused: bool,
}

impl Told {
    pub(crate) fn new(alloc: Global) -> Told {
        Told {
            text: Vec::new(alloc),
            refused: false,
        }
    }

    fn keep(&mut self, put: Result<(), NoMemory>) {
        if put.is_err() {
            self.refused = true;
        }
    }

    pub(crate) fn put(&mut self, text: &[u8]) {
        if self.text.extend_from_slice(text).is_err() {
            self.refused = true;
        }
    }

    pub(crate) fn number(&mut self, number: u128) {
        let put = put_number(&mut self.text, number);
        self.keep(put);
    }

    pub(crate) fn addr(&mut self, addr: u32) {
        let put = put_addr(&mut self.text, addr);
        self.keep(put);
    }

    pub(crate) fn block(&mut self, block: &Prefix) {
        let put = put_prefix(&mut self.text, block);
        self.keep(put);
    }

    pub(crate) fn text(self) -> Result<String, Fail> {
        let Told { text, refused } = self;
        let text = String::from_utf8(text)?;
        if refused { Err(NoMemory)? } else { Ok(text) }
    }
}
