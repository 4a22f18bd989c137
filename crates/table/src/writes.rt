// Writes to the registers of a plain table.
ghost use Rattle.std.specs.Prelude.{◌≡◌, ◌^◌, ◌<◌};
ghost use Rattle.table.specs.Registers.{with_address_at, with_config_at, with_switch, zeros};
ghost use Rattle.table.specs.Entries.{entry_over, below_of};
ghost use Rattle.table.specs.Tables.{registers};

use super::bounds::{Bounds, matching_of, resolve};
use super::entries::{Entry, PlainTable};
use super::field::Field;
use access::field_bits::FieldBits;

impl Entry {
    // Resolves the bounds anew over the address register below.
    fn refresh<const F: u32>(&mut self, bits: FieldBits<F>, below: Field<F>)
        requires { self.old.address < 2 ^ F }
        ensures { self.new ≡ entry_over below.entry.value self.old.config self.old.address }
    {
        self.bounds = resolve(bits, matching_of(self.config), self.address, below.value);
    }

    // Takes another address register.
    fn set_address<const F: u32>(&mut self, bits: FieldBits<F>, below: Field<F>, address: Field<F>)
        ensures { self.new ≡ entry_over below.entry.value self.old.config address.entry.value }
    {
        self.address = address.value;
        self.refresh(bits, below);
    }

    // Takes another configuration byte.
    fn set_config<const F: u32>(&mut self, bits: FieldBits<F>, below: Field<F>, config: u8)
        requires { self.old.address < 2 ^ F }
        ensures { self.new ≡ entry_over below.entry.value config self.old.address }
    {
        self.config = config;
        self.refresh(bits, below);
    }
}

impl<const F: u32> PlainTable<F> {
    // All registers zero.
    pub(crate) fn zeroed(bits: FieldBits<F>) -> Self
        ensures { registers result ≡ zeros }
    {
        let entry = Entry {
            config: 0,
            address: 0,
            bounds: Bounds { first: 0, end: 0 },
        };
        PlainTable {
            entries: [entry; 64],
            switches: 0,
            bits,
        }
    }

    // The address register of entry i.
    fn address(&self, i: usize) -> Field<F>
        requires { i < 64 }
        ensures { result.value ≡ (registers self.now).address i }
    {
        Field::of(self.bits, self.entries[i].address)
    }

    // The address register below entry i.
    fn below(&self, i: usize) -> Field<F>
        requires { i < 64 }
        ensures { result.value ≡ below_of self.now.entries i }
    {
        if i == 0 {
            Field::of(self.bits, 0)
        } else {
            self.address(i - 1)
        }
    }

    // Writes an address register, and resolves its entry and the one above.
    #[inline]
    pub(crate) fn write_address(&mut self, i: usize, value: Field<F>)
        requires { i < 64 }
        ensures { registers self.new ≡ with_address_at (registers self.old) i value.entry.value }
    {
        let bits = self.bits;
        let below = self.below(i);
        self.entries[i].set_address(bits, below, value);
        if i + 1 < 64 {
            self.entries[i + 1].refresh(bits, value);
        }
    }

    // Writes a configuration byte, and resolves its entry.
    pub(crate) fn write_config(&mut self, i: usize, byte: u8)
        requires { i < 64 }
        ensures { registers self.new ≡ with_config_at (registers self.old) i byte }
    {
        let bits = self.bits;
        let below = self.below(i);
        self.entries[i].set_config(bits, below, byte);
    }

    // Writes the switch bits.
    pub(crate) fn write_switches(&mut self, switches: u64)
        ensures { registers self.new ≡ with_switch (registers self.old) switches }
    {
        self.switches = switches;
    }
}
