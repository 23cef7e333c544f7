// Memories that are made of bytes.
ghost use Rattle.std.specs.Prelude.{◌≡◌, false};
ghost use Rattle.memory.specs.Bytes.{bytes_of};
ghost use Rattle.memory.specs.Store.{form_of, put, store_of};
ghost use Rattle.std.proofs.Common.{rules};

use crate::meaning::Memory;
use crate::row::Row;

// They are read from 0000 up, and FF past them; bytes past 65,536 are unused. KEPT says whether they keep what is
// written to them; nothing past them is kept.
#[derive(Drop)]
pub struct Bytes<const KEPT: bool>(Row);

// RAM: bytes that are kept.
pub type Ram = Bytes<true>;

// Fixed bytes: they are read and never kept.
pub type Fixed = Bytes<false>;

impl<const KEPT: bool> Bytes<KEPT> {
    // A memory over bytes that are handed in.
    pub fn new(bytes: Vec<u8>) -> Bytes<KEPT>
        ensures { bytes_of result ≡ bytes.items }
    {
        Bytes(Row { bytes })
    }

    // The bytes, with what was written to them.
    pub fn bytes(&self) -> &[u8]
        ensures { result.now ≡ bytes_of self.now }
    {
        &self.0.bytes
    }

    // The bytes, handed back.
    pub fn into_bytes(self) -> Vec<u8>
        ensures { result.items ≡ bytes_of self.entry }
    {
        self.0.bytes
    }
}

impl<const KEPT: bool> Memory for Bytes<KEPT> {
    ghost store = { λ m. store_of KEPT (bytes_of m) };

    ghost form = { λ m. form_of KEPT (bytes_of m) };

    ghost bytes = { Prim.search rules };

    fn read(&self, address: u16) -> u8
        ensures { result ≡ (store_of KEPT (bytes_of self.now)).byte address }
    {
        self.0
            .bytes
            .get(usize::from(address))
            .copied()
            .unwrap_or(0xff)
    }

    fn write(&mut self, address: u16, byte: u8)
        ensures after { store_of KEPT (bytes_of self.new) ≡ put (store_of KEPT (bytes_of self.old)) address byte }
        ensures built { form_of KEPT (bytes_of self.new) ≡ form_of KEPT (bytes_of self.old) }
        ensures unaltered { KEPT ≡ false → self.new ≡ self.old }
    {
        if KEPT && let Some(kept) = self.0.bytes.get_mut(usize::from(address)) {
            *kept = byte;
        }
    }
}
