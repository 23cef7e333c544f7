// What a memory is. Code above is written over this trait, and proved from nothing else.
ghost use Rattle.std.specs.Prelude.{◌≡◌, ℕ, ◌<◌};
ghost use Rattle.memory.specs.Store.{Form, Store, put};

pub trait Memory {
    // What the memory holds: at each address a byte, and whether the address keeps bytes.
    ghost store: { Self → Store };

    // How the memory is built.
    ghost form: { Self → Form };

    // The byte at an address. A read alters nothing.
    fn read(&self, address: u16) -> u8
        ensures { result ≡ (store self.now).byte address };

    // Replaces the byte at an address that keeps bytes, and that byte alone; elsewhere nothing is altered.
    fn write(&mut self, address: u16, byte: u8)
        ensures after { store self.new ≡ put (store self.old) address byte }
        ensures built { form self.new ≡ form self.old };

    // Each byte is a byte.
    ghost bytes: { (m : Self) (address : ℕ) → (store m).byte address < 256 };
}
