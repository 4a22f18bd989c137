// Saved and restored registers of RV32.
ghost use Rattle.std.specs.Prelude.{◌≡◌, ℕ, ◌<◌, ◌≤◌};
ghost use Rattle.access.specs.Cases.{Does};
ghost use Rattle.table.specs.Registers.{Registers};
ghost use Rattle.table.specs.Tables.{regs};
ghost use Rattle.table.specs.RegisterCalls.{register_report};
ghost use Rattle.table.specs.Contexts.{short_buffer, saved_word, SavedTo, words_of, restored_to, restored, ComesBack};

use super::field::Field;
use super::refusal::RegisterRefusal;
use super::table::Table;
use book::book::RuleBook;
use std::array;

// The words of saved registers.
pub const SAVED_WORDS: usize = 82;

impl<B: RuleBook> Table<B, 32> {
    // Word k of the saved registers.
    fn saved_word(&self, k: usize) -> u32
        requires { k < 82 }
        ensures { result ≡ saved_word (regs self.now) k }
    {
        if k < 64 {
            self.plain.entries[k].address as u32
        } else if k < 80 {
            self.config_word(4 * (k - 64))
        } else {
            self.switch_word(k - 80)
        }
    }

    // Saves the registers into a buffer, whose first 82 words they fill.
    pub fn save(&self, buffer: &mut [u32]) -> Result<(), RegisterRefusal>
        ensures { Does register_report (short_buffer buffer.old) (λ _. SavedTo (saved_word (regs self.now)) 82 buffer.old buffer.new) (buffer.new ≡ buffer.old) result }
    {
        let Some(words) = buffer.first_chunk_mut::<SAVED_WORDS>() else {
            return Err(RegisterRefusal::ShortBuffer);
        };
        *words = array::from_fn(|k| self.saved_word(k));
        Ok(())
    }

    // Writes the address registers from the first of the saved words.
    fn restore_addresses(&mut self, words: &[u32; SAVED_WORDS])
        ensures { regs self.new ≡ restored_to B.meaning (regs self.old) (words_of words.now) 64 0 }
    {
        for (i, &word) in words[..64].iter().enumerate() {
            self.set_address(i, Field::from(word));
        }
    }

    // Writes the configuration registers from the words after the addresses.
    fn restore_configs(&mut self, words: &[u32; SAVED_WORDS])
        ensures { (r : Registers) (k : ℕ) → regs self.old ≡ restored_to B.meaning r (words_of words.now) k 0 → regs self.new ≡ restored_to B.meaning r (words_of words.now) k 16 }
    {
        for (n, &word) in words[64..80].iter().enumerate() {
            self.write_bytes(4 * n, word);
        }
    }

    // Restores the registers that a buffer begins with.
    pub fn restore(&mut self, buffer: &[u32]) -> Result<(), RegisterRefusal>
        ensures written { Does register_report (short_buffer buffer.now) (λ _. regs self.new ≡ restored B.meaning (regs self.old) (words_of buffer.now)) (regs self.new ≡ regs self.old) result }
        ensures back { ComesBack B.meaning }
    {
        let Some(words) = buffer.first_chunk::<SAVED_WORDS>() else {
            return Err(RegisterRefusal::ShortBuffer);
        };
        self.restore_addresses(words);
        self.restore_configs(words);
        self.set_switches(words[80], words[81]);
        Ok(())
    }
}
