// The registers of RV32: 32-bit words, address fields of 32 bits.
ghost use Rattle.std.specs.Prelude.{◌≡◌, ◌+◌, ◌*◌, ◌^◌, ◌<◌, ◌≤◌};
ghost use Rattle.access.specs.Cases.{Gives, Does};
ghost use Rattle.table.specs.Registers.{with_address_at, with_switch};
ghost use Rattle.table.specs.Tables.{regs};
ghost use Rattle.table.specs.RegisterCalls.{register_report, no_register, packed, bytes_written, switch_word, switch_written, SwitchBits};

use super::field::Field;
use super::refusal::RegisterRefusal;
use super::registers::register;
use super::table::Table;
use book::book::RuleBook;
use std::array;

impl<B: RuleBook> Table<B, 32> {
    // Address register n.
    pub fn read_address(&self, n: usize) -> Result<u32, RegisterRefusal>
        ensures { Gives register_report (no_register 64 n) (λ v. v ≡ (regs self.now).address n) result }
    {
        let n = register::<64>(n)?;
        Ok(self.plain.entries[n].address as u32)
    }

    // Writes address register n.
    pub fn write_address(&mut self, n: usize, value: u32) -> Result<(), RegisterRefusal>
        ensures { Does register_report (no_register 64 n) (λ _. regs self.new ≡ with_address_at (regs self.old) n value) (regs self.new ≡ regs self.old) result }
    {
        let n = register::<64>(n)?;
        self.set_address(n, Field::from(value));
        Ok(())
    }

    // The configuration bytes of four entries, lowest first.
    pub(crate) fn config_word(&self, start: usize) -> u32
        requires { start + 4 ≤ 64 }
        ensures { result ≡ packed (regs self.now) start 4 }
    {
        u32::from_le_bytes(array::from_fn(|k| self.plain.entries[start + k].config))
    }

    // Configuration register n: entries 4 n to 4 n + 3, lowest byte first.
    pub fn read_config(&self, n: usize) -> Result<u32, RegisterRefusal>
        ensures { Gives register_report (no_register 16 n) (λ v. v ≡ packed (regs self.now) (4 * n) 4) result }
    {
        let n = register::<16>(n)?;
        Ok(self.config_word(4 * n))
    }

    // Writes configuration register n, each byte by the book's rule.
    pub fn write_config(&mut self, n: usize, word: u32) -> Result<(), RegisterRefusal>
        ensures { Does register_report (no_register 16 n) (λ _. regs self.new ≡ bytes_written B.meaning (regs self.old) (4 * n) word 4) (regs self.new ≡ regs self.old) result }
    {
        let n = register::<16>(n)?;
        self.write_bytes(4 * n, word);
        Ok(())
    }

    // One of the two switch words.
    pub(crate) fn switch_word(&self, n: usize) -> u32
        requires { n < 2 }
        ensures { result ≡ switch_word (regs self.now) n }
    {
        ((self.plain.switches >> (32 * n)) % (1 << 32)) as u32
    }

    // Writes both switch words.
    pub(crate) fn set_switches(&mut self, low: u32, high: u32)
        ensures { regs self.new ≡ with_switch (regs self.old) (low + high * 2 ^ 32) }
    {
        self.write_switches(u64::from(low) + (u64::from(high) << 32));
    }

    // Switch word n: bit i of it belongs to entry 32 n + i.
    pub fn read_switch(&self, n: usize) -> Result<u32, RegisterRefusal>
        ensures value { Gives register_report (no_register 2 n) (λ v. v ≡ switch_word (regs self.now) n) result }
        ensures bits { SwitchBits (regs self.now) }
    {
        let n = register::<2>(n)?;
        Ok(self.switch_word(n))
    }

    // Writes switch word n; the other stays.
    pub fn write_switch(&mut self, n: usize, word: u32) -> Result<(), RegisterRefusal>
        ensures { Does register_report (no_register 2 n) (λ _. regs self.new ≡ switch_written (regs self.old) n word) (regs self.new ≡ regs self.old) result }
    {
        let n = register::<2>(n)?;
        let mut words = [self.switch_word(0), self.switch_word(1)];
        words[n] = word;
        self.set_switches(words[0], words[1]);
        Ok(())
    }
}
