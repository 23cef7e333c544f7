// A row of bytes, from 0000 up.
ghost use Rattle.std.specs.Prelude.{◌<◌, All};

// Every item is a byte. A ghost field cannot stand beside a const parameter that is a bool, so this is a struct of its
// own.
#[derive(Drop)]
pub(crate) struct Row {
    pub(crate) bytes: Vec<u8>,
    ghost small: { All (λ b. b < 256) bytes.items },
}
