// Inputs of given lengths.
use crate::bytes::sample;
use reference::{Kind, Setting};
use std::alloc::{AllocError, Global};

// The lengths of key, nonce, data and message in bytes.
#[derive(Clone, Copy)]
pub(crate) struct Shape {
    key: usize,
    nonce: usize,
    ad: usize,
    message: usize,
}

impl From<[usize; 4]> for Shape {
    fn from([key, nonce, ad, message]: [usize; 4]) -> Shape {
        Shape {
            key,
            nonce,
            ad,
            message,
        }
    }
}

impl Shape {
    // The lengths of an ordinary sealing.
    pub(crate) fn usual(kind: Kind) -> Shape {
        Shape::from([kind.block_len(), 8, 10, 51])
    }

    pub(crate) fn with_nonce(self, nonce: usize) -> Shape {
        Shape { nonce, ..self }
    }

    pub(crate) fn with_ad(self, ad: usize) -> Shape {
        Shape { ad, ..self }
    }

    pub(crate) fn with_message(self, message: usize) -> Shape {
        Shape { message, ..self }
    }
}

#[derive(Drop)]
pub(crate) struct Inputs {
    pub(crate) key: Vec<u8>,
    pub(crate) nonce: Vec<u8>,
    pub(crate) ad: Vec<u8>,
    pub(crate) message: Vec<u8>,
}

impl Inputs {
    pub(crate) fn of(heap: Global, shape: Shape) -> Result<Inputs, AllocError> {
        Ok(Inputs {
            key: sample(heap, 1, shape.key)?,
            nonce: sample(heap, 2, shape.nonce)?,
            ad: sample(heap, 3, shape.ad)?,
            message: sample(heap, 4, shape.message)?,
        })
    }

    pub(crate) fn setting(&self, kind: Kind) -> Setting<'_> {
        Setting {
            kind,
            key: &self.key,
            nonce: &self.nonce,
            ad: &self.ad,
        }
    }
}
