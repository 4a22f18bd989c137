// The supervisor's status word, of which SUM is bit 18.
ghost use Rattle.std.specs.Prelude.{◌≡◌};
ghost use Rattle.hart.specs.Status.{sum_of, with_sum, SumAlone};

// A status word as sstatus has it: while SUM is set, the supervisor may load and store in user memory.
#[derive(Clone, Copy, PartialEq, Eq, Debug)]
pub struct Status {
    word: u32,
}

// The bit of SUM.
const SUM: u32 = 1 << 18;

impl Status {
    // The status that a word says.
    pub fn new(word: u32) -> Self
        ensures { result.word ≡ word }
    {
        Status { word }
    }

    // The word.
    pub fn word(&self) -> u32
        ensures { result ≡ self.now.word }
    {
        self.word
    }

    // Whether SUM is set.
    pub fn sum(&self) -> bool
        ensures { result ≡ sum_of self.now.word }
    {
        self.word & SUM != 0
    }

    // Sets or clears SUM, and leaves every other bit as it was.
    pub fn set_sum(&mut self, on: bool)
        ensures value { self.new.word ≡ with_sum self.old.word on }
        ensures alone { SumAlone self.old.word on self.new.word }
    {
        let word = self.word;
        self.word = if on { word | SUM } else { word & !SUM };
    }
}
