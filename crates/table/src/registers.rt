// The registers of a table, whatever the width of its address fields.
ghost use Rattle.std.specs.Prelude.{◌≡◌, ◌+◌, ◌<◌, ◌≤◌, IfOk};
ghost use Rattle.access.specs.Cases.{Gives, Does};
ghost use Rattle.table.specs.Registers.{with_address_at, with_config_at, with_switch, zeros, Same};
ghost use Rattle.table.specs.Tables.{regs};
ghost use Rattle.table.specs.RegisterCalls.{register_report, no_register, kept_byte, entry_written, bytes_written};

use super::entries::PlainTable;
use super::field::Field;
use super::refusal::RegisterRefusal;
use super::table::Table;
use access::field_bits::FieldBits;
use book::book::RuleBook;
use std::marker::PhantomData;

// The number of a register, of which there are COUNT.
pub(crate) fn register<const COUNT: usize>(n: usize) -> Result<usize, RegisterRefusal>
    ensures number { Gives register_report (no_register COUNT n) (λ v. v ≡ n) result }
    ensures below { IfOk result (λ v. v < COUNT) }
{
    if n < COUNT {
        Ok(n)
    } else {
        Err(RegisterRefusal::NoSuchRegister)
    }
}

impl<B: RuleBook, const F: u32> Table<B, F> {
    // A table whose registers are all zero.
    pub fn new(bits: FieldBits<F>) -> Self
        ensures { regs result ≡ zeros }
    {
        let plain = PlainTable::zeroed(bits);
        Table {
            plain,
            book: PhantomData,
        }
    }

    // Writes an address register.
    pub(crate) fn set_address(&mut self, i: usize, value: Field<F>)
        requires { i < 64 }
        ensures { regs self.new ≡ with_address_at (regs self.old) i value.entry.value }
    {
        self.plain.write_address(i, value);
    }

    // Writes a configuration byte by the book's rule.
    fn write_byte(&mut self, i: usize, byte: u8)
        requires { i < 64 }
        ensures { regs self.new ≡ with_config_at (regs self.old) i (kept_byte B.meaning ((regs self.old).config i) byte) }
    {
        let cleared = byte & 0x9f;
        if B::legal(cleared) {
            self.plain.write_config(i, cleared);
        }
    }

    // Writes the configuration byte of entry n by the book's rule, and its address register, which keeps F bits.
    pub fn write_entry(&mut self, n: usize, byte: u8, address: u64) -> Result<(), RegisterRefusal>
        ensures { Does register_report (no_register 64 n) (λ _. regs self.new ≡ entry_written F B.meaning (regs self.old) n byte address) (regs self.new ≡ regs self.old) result }
    {
        let n = register::<64>(n)?;
        let field = Field::of(self.plain.bits, address);
        self.write_byte(n, byte);
        self.set_address(n, field);
        Ok(())
    }

    // Writes the switch bits of all entries: bit i is that of entry i.
    pub fn write_switches(&mut self, switches: u64)
        ensures { regs self.new ≡ with_switch (regs self.old) switches }
    {
        self.plain.write_switches(switches);
    }

    // Writes the bytes of a word to four entries, the lowest first, each by the book's rule.
    pub(crate) fn write_bytes(&mut self, start: usize, word: u32)
        requires { start + 4 ≤ 64 }
        ensures { regs self.new ≡ bytes_written B.meaning (regs self.old) start word 4 }
    {
        let bytes = word.to_le_bytes();
        for (k, &byte) in bytes.iter().enumerate() {
            self.write_byte(start + k, byte);
        }
    }

    // Takes over the registers of another table of the book.
    pub fn copy_registers(&mut self, from: &Self)
        ensures equal { regs self.new ≡ regs from.now }
        ensures same { Same (regs self.new) (regs from.now) }
    {
        self.plain.entries = from.plain.entries;
        self.plain.switches = from.plain.switches;
    }
}
